//! The options that words set.
ghost use Rattle.std.specs.Prelude.{◌≡◌, IfSome, IsNone, MatchBool, None, false};
ghost use Rattle.git_words.specs.Words.{words_of, Adds, AddsOne, IsTwice, SetsMore, SetsForFan};
ghost use Rattle.git_words.specs.declared.options.TheConstants.{UNSET};

use crate::settings::{Setting, first_setting};

/// The options that are set so far.
#[derive(Clone, Copy, Debug, PartialEq, Eq)]
pub(crate) struct Options {
    pub(crate) workers: Option<u32>,
    pub(crate) table: Option<u32>,
    pub(crate) steps: Option<u64>,
    pub(crate) certs: bool,
}

/// No option is set.
pub(crate) const UNSET: Options = Options {
    workers: None,
    table: None,
    steps: None,
    certs: false,
};

/// One option more; none where it is set already.
fn with(options: Options, setting: Setting) -> Option<Options>
    ensures some { IfSome result (λ after. AddsOne options setting after) }
    ensures none { IsNone result → IsTwice options setting }
{
    match setting {
        Setting::Workers(n) if options.workers.is_none() => Some(Options {
            workers: Some(n),
            ..options
        }),
        Setting::Table(n) if options.table.is_none() => Some(Options {
            table: Some(n),
            ..options
        }),
        Setting::Steps(n) if options.steps.is_none() => Some(Options {
            steps: Some(n),
            ..options
        }),
        Setting::Certs if !options.certs => Some(Options {
            certs: true,
            ..options
        }),
        _ => None,
    }
}

/// The options with those that the words set, each once at most. It calls itself five times at most, since each call
/// sets one option more.
fn options_after(options: Options, words: &[&str]) -> Option<Options>
    ensures some { IfSome result (λ after. Adds options (words_of words.now) after) }
    ensures none { IsNone result → (after : Options) → Adds options (words_of words.now) after → ⊥ }
{
    if words.is_empty() {
        return Some(options);
    }
    let (setting, rest) = first_setting(words)?;
    options_after(with(options, setting)?, rest)
}

/// The options that the words set, each once at most.
pub(crate) fn read_options(words: &[&str]) -> Option<Options>
    ensures some { IfSome result (λ options. Adds UNSET (words_of words.now) options) }
    ensures none { IsNone result → (options : Options) → Adds UNSET (words_of words.now) options → ⊥ }
{
    options_after(UNSET, words)
}

/// Whether an option other than the steps is set.
pub(crate) fn sets_more(options: Options) -> bool
    ensures { MatchBool result (SetsMore options) ((options.workers ≡ None) × (options.table ≡ None) × (options.certs ≡ false)) }
{
    options.workers.is_some() || options.table.is_some() || options.certs
}

/// Whether an option is set that `fan` alone has.
pub(crate) fn sets_for_fan(options: Options) -> bool
    ensures { MatchBool result (SetsForFan options) ((options.workers ≡ None) × (options.certs ≡ false)) }
{
    options.workers.is_some() || options.certs
}

//! The reader of the words.
ghost use Rattle.std.specs.Prelude.{◌≡◌, ◌++◌, ℕ, List, Bool, IfSome, IsNone};
ghost use Rattle.git_words.specs.Words.{words_of, IsFan, IsFaces, IsMake, IsQuestion, IsCommand, IsCommandAfter, IsNumberWord, NamesSample};
ghost use Rattle.git_words.specs.declared.commands.Command.TheVariants.{Fan, Faces, Make, AllCones, Locate, Bunch};

use crate::commands::{Command, STEPS_UNSET, Sample, TABLE_UNSET, WORKERS_UNSET};
use crate::options::{read_options, sets_for_fan, sets_more};
use crate::settings::number_in;

/// What the words after `fan` ask for.
fn read_fan(words: &[&str]) -> Option<Command>
    ensures some { IfSome result (λ c. (workers table steps : ℕ) × (certs : Bool) × (c ≡ Fan workers table steps certs) × IsFan (words_of words.now) workers table steps certs) }
    ensures none { IsNone result → (workers table steps : ℕ) → (certs : Bool) → IsFan (words_of words.now) workers table steps certs → ⊥ }
{
    let options = read_options(words)?;
    Some(Command::Fan {
        workers: options.workers.unwrap_or(WORKERS_UNSET),
        table: options.table.unwrap_or(TABLE_UNSET),
        steps: options.steps.unwrap_or(STEPS_UNSET),
        certs: options.certs,
    })
}

/// What the words after `faces` ask for.
fn read_faces(words: &[&str]) -> Option<Command>
    ensures some { IfSome result (λ c. (steps : ℕ) × (c ≡ Faces steps) × IsFaces (words_of words.now) steps) }
    ensures none { IsNone result → (steps : ℕ) → IsFaces (words_of words.now) steps → ⊥ }
{
    let options = read_options(words)?;
    if sets_more(options) {
        return None;
    }
    Some(Command::Faces {
        steps: options.steps.unwrap_or(STEPS_UNSET),
    })
}

/// The most signatures and the most steps that the words after a question's own say.
fn read_question(words: &[&str]) -> Option<(u32, u64)>
    ensures some { IfSome result (λ r. IsQuestion (words_of words.now) r.0 r.1) }
    ensures none { IsNone result → (table steps : ℕ) → IsQuestion (words_of words.now) table steps → ⊥ }
{
    let options = read_options(words)?;
    if sets_for_fan(options) {
        return None;
    }
    let table = options.table.unwrap_or(TABLE_UNSET);
    Some((table, options.steps.unwrap_or(STEPS_UNSET)))
}

/// What the words after `cones` ask for.
fn read_cones(words: &[&str]) -> Option<Command>
    ensures some { IfSome result (λ c. (table steps : ℕ) × (c ≡ AllCones table steps) × IsQuestion (words_of words.now) table steps) }
    ensures none { IsNone result → (table steps : ℕ) → IsQuestion (words_of words.now) table steps → ⊥ }
{
    let (table, steps) = read_question(words)?;
    Some(Command::AllCones { table, steps })
}

/// What the words after `locate` ask for.
fn read_locate(words: &[&str]) -> Option<Command>
    ensures some { IfSome result (λ c. (table steps : ℕ) × (c ≡ Locate table steps) × IsQuestion (words_of words.now) table steps) }
    ensures none { IsNone result → (table steps : ℕ) → IsQuestion (words_of words.now) table steps → ⊥ }
{
    let (table, steps) = read_question(words)?;
    Some(Command::Locate { table, steps })
}

/// What the words after `bunch` ask for.
fn read_bunch(words: &[&str]) -> Option<Command>
    ensures some { IfSome result (λ c. (table steps : ℕ) × (c ≡ Bunch table steps) × IsQuestion (words_of words.now) table steps) }
    ensures none { IsNone result → (table steps : ℕ) → IsQuestion (words_of words.now) table steps → ⊥ }
{
    let (table, steps) = read_question(words)?;
    Some(Command::Bunch { table, steps })
}

/// The seed that the word stands for: one to nine digits.
fn seed_of(word: &[u8]) -> Option<u32>
    ensures some { IfSome result (λ n. IsNumberWord word.now n) }
    ensures none { IsNone result → (n : ℕ) → IsNumberWord word.now n → ⊥ }
{
    let seed = number_in(0, 999_999_999, word)?;
    Some(seed as u32)
}

/// The sample that the words name.
fn read_sample(words: &[&str]) -> Option<Sample>
    ensures some { IfSome result (λ sample. NamesSample (words_of words.now) sample) }
    ensures none { IsNone result → (sample : Sample) → NamesSample (words_of words.now) sample → ⊥ }
{
    match words {
        ["points", n, seed] => Some(Sample::Points {
            n: number_in(3, 16, n.as_bytes())? as u32,
            seed: seed_of(seed.as_bytes())?,
        }),
        ["plucker", n] => Some(Sample::Plucker {
            n: number_in(4, 5, n.as_bytes())? as u32,
        }),
        _ => None,
    }
}

/// What the words after `make` ask for.
fn read_make(words: &[&str]) -> Option<Command>
    ensures some { IfSome result (λ c. (sample : Sample) × (run : Bool) × (c ≡ Make sample run) × IsMake (words_of words.now) sample run) }
    ensures none { IsNone result → (sample : Sample) → (run : Bool) → IsMake (words_of words.now) sample run → ⊥ }
{
    match words {
        [front @ .., "--run"] => Some(Command::Make {
            sample: read_sample(front)?,
            run: true,
        }),
        _ => Some(Command::Make {
            sample: read_sample(words)?,
            run: false,
        }),
    }
}

/// The command that the words spell; none where they spell none. The words don't hold the program's name.
pub fn read_words(words: &[&str]) -> Option<Command>
    ensures some { IfSome result (λ c. IsCommand (words_of words.now) c) }
    ensures none { IsNone result → (c : Command) → IsCommand (words_of words.now) c → ⊥ }
{
    match words {
        ["fan", rest @ ..] => read_fan(rest),
        ["faces", rest @ ..] => read_faces(rest),
        ["make", rest @ ..] => read_make(rest),
        ["cones", rest @ ..] => read_cones(rest),
        ["locate", rest @ ..] => read_locate(rest),
        ["bunch", rest @ ..] => read_bunch(rest),
        _ => None,
    }
}

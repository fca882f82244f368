//! An option with its value, at the front of words.
ghost use Rattle.std.specs.Prelude.{◌≡◌, ◌≤◌, ◌++◌, ◌∷◌, [], ℕ, List, codes, MatchOption, IfSome, IsNone};
ghost use Rattle.git_words.specs.Words.{words_of, IsNumberIn, Names, NamesNumber, Begins};

use crate::commands::{STEPS, TABLE, WORKERS};
use git_lines::natural_of;

/// One option that is set, with its value.
#[derive(Clone, Copy, Debug, PartialEq, Eq)]
pub(crate) enum Setting {
    Workers(u32),
    Table(u32),
    Steps(u64),
    Certs,
}

/// The number of one to nine digits within a range.
pub(crate) fn number_in(least: u64, most: u64, word: &[u8]) -> Option<u64>
    ensures some { IfSome result (λ n. IsNumberIn least most word.now n) }
    ensures none { IsNone result → (n : ℕ) → IsNumberIn least most word.now n → ⊥ }
{
    if word.len() > 9 {
        return None;
    }
    let n = natural_of(word)?;
    if n < least || n > most { None } else { Some(n) }
}

/// What stands in the word after the name.
fn after_name<'a>(name: &[u8], word: &'a [u8]) -> Option<&'a [u8]>
    ensures { MatchOption result ((rest : List ℕ) → word.now ≡ name.now ++ rest → ⊥) (λ rest. word.now ≡ name.now ++ rest.now) }
{
    word.strip_prefix(name)
}

/// What stands after `=`.
fn after_equals(bytes: &[u8]) -> Option<&[u8]>
    ensures { MatchOption result ((value : List ℕ) → bytes.now ≡ codes "=" ++ value → ⊥) (λ value. bytes.now ≡ codes "=" ++ value.now) }
{
    match bytes {
        [b'=', value @ ..] => Some(value),
        _ => None,
    }
}

/// What stands in the word after the name and `=`.
fn joined<'a>(name: &[u8], word: &'a [u8]) -> Option<&'a [u8]>
    ensures { MatchOption result ((value : List ℕ) → word.now ≡ name.now ++ (codes "=" ++ value) → ⊥) (λ value. word.now ≡ name.now ++ (codes "=" ++ value.now)) }
{
    let rest = after_name(name, word)?;
    after_equals(rest)
}

/// The first word, and the others.
fn first_word<'a, 'b>(words: &'a [&'b str]) -> Option<(&'b [u8], &'a [&'b str])>
    ensures { MatchOption result (words_of words.now ≡ []) (λ r. words_of words.now ≡ r.0.now ∷ words_of r.1.now) }
{
    match words {
        [first, rest @ ..] => Some((first.as_bytes(), rest)),
        [] => None,
    }
}

/// The word for the value of the option that the words begin with, and the words after it.
fn named_word<'a, 'b>(name: &[u8], words: &'a [&'b str]) -> Option<(&'b [u8], &'a [&'b str])>
    ensures some { IfSome result (λ r. Names name.now r.0.now (words_of words.now) (words_of r.1.now)) }
    ensures none { IsNone result → (word : List ℕ) → (rest : List (List ℕ)) → Names name.now word (words_of words.now) rest → ⊥ }
{
    let (first, rest) = first_word(words)?;
    if first == name {
        first_word(rest)
    } else {
        Some((joined(name, first)?, rest))
    }
}

/// The number of the option that the words begin with, from 1, and the words after it.
fn named_number<'a, 'b>(
    name: &[u8],
    most: u64,
    words: &'a [&'b str],
) -> Option<(u64, &'a [&'b str])>
    ensures some { IfSome result (λ r. NamesNumber name.now most r.0 (words_of words.now) (words_of r.1.now)) }
    ensures none { IsNone result → (n : ℕ) → (rest : List (List ℕ)) → NamesNumber name.now most n (words_of words.now) rest → ⊥ }
{
    let (word, rest) = named_word(name, words)?;
    Some((number_in(1, most, word)?, rest))
}

/// The setting that the words begin with, and the words after it.
pub(crate) fn first_setting<'a, 'b>(words: &'a [&'b str]) -> Option<(Setting, &'a [&'b str])>
    ensures some { IfSome result (λ r. Begins r.0 (words_of words.now) (words_of r.1.now)) }
    ensures none { IsNone result → (s : Setting) → (rest : List (List ℕ)) → Begins s (words_of words.now) rest → ⊥ }
{
    if let ["--certs", rest @ ..] = words {
        return Some((Setting::Certs, rest));
    }
    if let Some((n, rest)) = named_number(b"--workers", u64::from(WORKERS), words) {
        return Some((Setting::Workers(n as u32), rest));
    }
    if let Some((n, rest)) = named_number(b"--table", u64::from(TABLE), words) {
        return Some((Setting::Table(n as u32), rest));
    }
    let (n, rest) = named_number(b"--steps", STEPS, words)?;
    Some((Setting::Steps(n), rest))
}

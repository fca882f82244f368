//! Comparing sets of numbers word by word.
ghost use Rattle.std.specs.Prelude.{◌≡◌, ◌≢◌, ◌<◌, ◌+◌, ◌*◌, ◌^◌, ◌↔◌, ℕ, IsNone, IfSome, IsTrue, length, max, slice_index};
ghost use Rattle.std.specs.Int.{bit_at};
ghost use Rattle.git_machine.specs.Signatures.{Has, signature_cmp};

use std::cmp::Ordering;

/// Word `i`, and 0 past the last.
pub(crate) fn word_at(words: &[u64], i: usize) -> u64
    ensures { result ≡ slice_index words.now i }
{
    if i < words.len() { words[i] } else { 0 }
}

/// The first place at which the words differ, where those past the last count as 0.
pub(crate) fn first_difference(a: &[u64], b: &[u64]) -> Option<usize>
    ensures none { IsNone result → (i : ℕ) → slice_index a.now i ≡ slice_index b.now i }
    ensures differs { IfSome result (λ i. slice_index a.now i ≢ slice_index b.now i) }
    ensures same { IfSome result (λ i. (j : ℕ) → j < i → slice_index a.now j ≡ slice_index b.now j) }
{
    for i in 0..a.len().max(b.len()) {
        if word_at(a, i) != word_at(b, i) {
            return Some(i);
        }
    }
    None
}

/// Whether the set has a number above `64 i + bit`.
pub(crate) fn has_above(words: &[u64], i: usize, bit: u32) -> bool
    requires { bit < 64 }
    ensures { IsTrue result ↔ ((n : ℕ) × (64 * i + bit < n) × Has words.now n) }
{
    if word_at(words, i) >> bit > 1 {
        return true;
    }
    for j in i..words.len() {
        if j > i && words[j] != 0 {
            return true;
        }
    }
    false
}

/// The lowest bit in which the words differ.
pub(crate) fn lowest_difference(x: u64, y: u64) -> u32
    requires { x ≢ y }
    ensures bound { result < 64 }
    ensures same { (j : ℕ) → j < result → bit_at x j ≡ bit_at y j }
    ensures apart { bit_at x result + bit_at y result ≡ 1 }
{
    (x ^ y).trailing_zeros()
}

/// Compares by the first number that only one of the sets has.
pub(crate) fn compare(a: &[u64], b: &[u64]) -> Ordering
    ensures { result ≡ signature_cmp a.now b.now }
{
    let Some(i) = first_difference(a, b) else {
        return a.len().cmp(&b.len());
    };
    let x = word_at(a, i);
    let bit = lowest_difference(x, word_at(b, i));
    if x >> bit & 1 == 1 {
        if has_above(b, i, bit) {
            Ordering::Less
        } else {
            Ordering::Greater
        }
    } else if has_above(a, i, bit) {
        Ordering::Greater
    } else {
        Ordering::Less
    }
}

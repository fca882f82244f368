//! A set of numbers as words of 64 bits.
ghost use Rattle.std.specs.Prelude.{◌≡◌, ◌<◌, ◌↔◌, ℕ, IfOk, IsTrue, length, slice_index, nat_eq};
ghost use Rattle.std.specs.Cmp.Rules.{comparing};
ghost use Rattle.std.specs.Cmp.Lexicographic.{pointwise};
ghost use Rattle.std.specs.Ordering.{as_partial_cmp};
ghost use Rattle.std.specs.Hash as fed;
ghost use Rattle.std.proofs.Common.{rules};
ghost use Rattle.git_machine.specs.Signatures.{AreWords, Has, signature_cmp};
ghost use Rattle.git_machine.specs.Ties.{signature_total, signature_ties, signature_partial, signature_alike};

use crate::comparing::{compare, word_at};
use git_base::NoMemory;
use git_bits::has_bit;
use std::alloc::Global;
use std::cmp::Ordering;
use std::hash::{Hash, Hasher};
use std::marker::Model;

/// A set of numbers below 64 times its width, which is the number of its words. Bit `b` of word `i`
/// stands for the number `64 i + b`.
///
/// The order is that of the ascending lists of numbers, a proper prefix first; of equal sets the one with
/// the smaller width is first.
#[derive(Debug, Drop)]
pub struct Sig {
    words: Vec<u64>,
}

impl Model for Sig {
    ghost use Rattle.std.specs.Prelude.{ℕ, List};
    ghost use Rattle.std.specs.Coded.{coded_list, coded_ℕ};
    ghost use Rattle.git_machine.specs.Signatures.{AreWords};

    ghost Value = { List ℕ };

    ghost coded = { coded_list coded_ℕ };

    ghost view = { λ s. s.words.items };

    ghost invariant = { λ s. AreWords s.words.items };
}

impl Sig {
    /// The signature with these words.
    pub fn of(alloc: Global, words: &[u64]) -> Result<Sig, NoMemory>
        ensures { IfOk result (λ s. s ≡ words.now) }
    {
        let words = Vec::from_slice(alloc, words)?;
        Ok(Sig { words })
    }

    /// The signature of words that stand in a vector already. It takes no memory.
    pub fn of_words(words: Vec<u64>) -> Sig
        ensures { result ≡ words.items }
    {
        Sig { words }
    }

    /// A signature equal to this one.
    pub fn copied(&self, alloc: Global) -> Result<Sig, NoMemory>
        ensures { IfOk result (λ s. s ≡ self.now) }
    {
        Sig::of(alloc, self.words.as_slice())
    }

    /// Whether the number `n` is in the set.
    pub fn has(&self, n: u32) -> bool
        ensures { IsTrue result ↔ Has self.now n }
    {
        let word = word_at(self.words.as_slice(), n as usize / 64);
        has_bit(word, n % 64)
    }

    /// The number of words.
    pub fn width(&self) -> usize
        ensures count { result ≡ length self.now }
        ensures words { AreWords self.now }
    {
        self.words.len()
    }

    /// Word `i`, counted from 0.
    pub fn word(&self, i: usize) -> u64
        requires { i < length self.now }
        ensures { result ≡ slice_index self.now i }
    {
        self.words[i]
    }

    /// The words.
    pub fn words(&self) -> &[u64]
        ensures { result.now ≡ self.now }
    {
        self.words.as_slice()
    }

    /// Whether both have one width and the same numbers.
    pub fn same(&self, o: &Sig) -> bool
        ensures equal { IsTrue result ↔ (self.now ≡ o.now) }
        ensures sets { IsTrue result ↔ ((length self.now ≡ length o.now) × ((n : ℕ) → Has self.now n ↔ Has o.now n)) }
    {
        self.words.as_slice() == o.words.as_slice()
    }
}

impl PartialEq for Sig {
    ghost eq = { pointwise nat_eq };

    ghost laws = { Prim.search (comparing, rules) };

    fn eq(&self, other: &Sig) -> bool {
        self.words.as_slice() == other.words.as_slice()
    }
}

impl Eq for Sig {
    ghost laws = { Prim.search (comparing, rules) };
}

impl Hash for Sig {
    ghost hash_input = { fed.slice fed.u64 };

    ghost respects_eq = { signature_alike };

    fn hash<H: Hasher>(&self, state: &mut H) {
        self.words.as_slice().hash(state);
    }
}

impl PartialOrd for Sig {
    ghost partial_cmp = { as_partial_cmp signature_cmp };

    ghost laws = { signature_partial };

    fn partial_cmp(&self, other: &Sig) -> Option<Ordering> {
        Some(self.cmp(other))
    }
}

impl Ord for Sig {
    ghost cmp = { signature_cmp };

    ghost total = { signature_total };

    ghost matches_partial_cmp = { Prim.search (comparing, rules) };

    ghost matches_eq = { signature_ties };

    fn cmp(&self, other: &Sig) -> Ordering {
        compare(self.words.as_slice(), other.words.as_slice())
    }
}

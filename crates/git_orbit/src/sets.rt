//! Sets of numbers as words of 64 bits, which are written in place.
ghost use Rattle.std.specs.Prelude.{◌≡◌, ◌↔◌, ◌⊎◌, ◌<◌, ◌*◌, ℕ, IfOk, IsTrue, length};
ghost use Rattle.git_bits.specs.Bits.{has_bit};
ghost use Rattle.git_machine.specs.Signatures.{AreWords, Has};

use git_base::NoMemory;
use git_machine::Sig;
use git_stages::add;
use std::alloc::Global;
use std::marker::Model;

/// A set of numbers below 64 times its width, which is the number of its words. Bit `b` of word `i`
/// stands for the number `64 i + b`. Contracts see it as its words, as they see a signature.
#[derive(Drop)]
pub struct NumberSet {
    words: Vec<u64>,
}

impl Model for NumberSet {
    ghost use Rattle.std.specs.Prelude.{ℕ, List};

    ghost Value = { List ℕ };

    ghost view = { λ s. s.words.items };
}

/// The word without the bits of another.
fn without(word: u64, other: u64) -> u64
    ensures { (j : ℕ) → j < 64 → IsTrue (has_bit result j) ↔ (IsTrue (has_bit word j) × (IsTrue (has_bit other j) → ⊥)) }
{
    word & !other
}

/// The word with one bit more.
fn with(word: u64, bit: u32) -> u64
    requires { bit < 64 }
    ensures { (j : ℕ) → j < 64 → IsTrue (has_bit result j) ↔ (IsTrue (has_bit word j) ⊎ (j ≡ bit)) }
{
    word | (1 << bit)
}

/// Whether two words have a bit in common.
fn overlap(a: u64, b: u64) -> bool
    ensures { IsTrue result ↔ ((j : ℕ) × (j < 64) × IsTrue (has_bit a j) × IsTrue (has_bit b j)) }
{
    a & b != 0
}

impl NumberSet {
    /// The empty set.
    pub fn empty(alloc: Global, width: usize) -> Result<NumberSet, NoMemory>
        ensures width { IfOk result (λ s. length s ≡ width) }
        ensures none { IfOk result (λ s. (n : ℕ) → Has s n → ⊥) }
    {
        let mut words = Vec::new(alloc);
        for i in 0..width {
            let _ = i;
            add(&mut words, 0u64)?;
        }
        Ok(NumberSet { words })
    }

    /// Puts a number into the set.
    pub fn put(&mut self, n: usize)
        requires { n < 64 * length self.old }
        ensures width { length self.new ≡ length self.old }
        ensures each { (m : ℕ) → Has self.new m ↔ (Has self.old m ⊎ (m ≡ n)) }
    {
        let i = n / 64;
        self.words[i] = with(self.words[i], (n % 64) as u32);
    }

    /// Takes the numbers of another set out of this one.
    pub fn take_out(&mut self, other: &NumberSet)
        ensures width { length self.new ≡ length self.old }
        ensures each { (m : ℕ) → Has self.new m ↔ (Has self.old m × (Has other.now m → ⊥)) }
    {
        for i in 0..self.words.len().min(other.words.len()) {
            self.words[i] = without(self.words[i], other.words[i]);
        }
    }

    /// Whether it has a number in common with a signature.
    pub fn meets(&self, sig: &Sig) -> bool
        ensures { IsTrue result ↔ ((n : ℕ) × Has self.now n × Has sig.now n) }
    {
        for i in 0..self.words.len().min(sig.width()) {
            if overlap(self.words[i], sig.word(i)) {
                return true;
            }
        }
        false
    }

    /// A set equal to this one.
    pub fn copied(&self, alloc: Global) -> Result<NumberSet, NoMemory>
        ensures { IfOk result (λ s. s ≡ self.now) }
    {
        let words = Vec::from_slice(alloc, self.words.as_slice())?;
        Ok(NumberSet { words })
    }

    /// The same as a signature. It takes no memory.
    pub fn into_sig(self) -> Sig
        ensures value { result ≡ self }
        ensures words { AreWords result }
    {
        Sig::of_words(self.words)
    }
}

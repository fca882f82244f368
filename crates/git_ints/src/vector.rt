//! A short vector of integers.
ghost use Rattle.std.specs.Prelude.{◌≡◌, ℕ, ◌≤◌, ◌<◌, ◌^◌, ◌*◌, ◌⊎◌, List, ℤ, pos, ◌*ℤ◌, ◌+ℤ◌, length, slice_get, Some, take};
ghost use Rattle.std.specs.Int.RustNames.{unsigned_abs};
ghost use Rattle.git_ints.specs.Padded.{AreWithin};
ghost use Rattle.git_ints.specs.Content.{IsPrimitivePart};
ghost use Rattle.git_defs.specs.Vectors.{dot, plus, scale, units};
ghost use Rattle.std.specs.Cmp.{partial_order_from_own_ties};
ghost use Rattle.std.specs.Cmp.Rules.{comparing};
ghost use Rattle.std.specs.Cmp.Lexicographic.{slice_cmp, pointwise, lists_total};
ghost use Rattle.std.specs.Ordering.{int_cmp, int_eq, as_partial_cmp};
ghost use Rattle.std.proofs.Common.{rules};
ghost use Rattle.git_lemmas.proofs.Order.{vectors_ties};

use crate::arithmetic::{blend, product, sum};
use crate::content::{content, quotient};
use git_limits::{ENTRY, ROWS};
use std::cmp::Ordering;
use std::marker::Model;

/// A vector of one to six integers. Vectors are ordered by their first differing entry.
#[derive(Clone, Copy, Debug)]
pub struct IVec {
    entries: [i128; ROWS],
    len: usize,
}

impl Model for IVec {
    ghost use Rattle.std.specs.Prelude.{◌≡◌, ◌≤◌, List, ℤ, pos, length, take, drop, replicate, ◌-◌};
    ghost use Rattle.std.proofs.Common.{sym};
    ghost use Rattle.git_ints.specs.Padded.{padded};
    ghost use Rattle.git_lemmas.proofs.Padding.{padded_front};
    ghost use Rattle.git_limits.specs.declared.TheConstants.{ROWS};

    ghost Value = { List ℤ };

    ghost view = { λ s. take s.len s.entries };

    ghost invariant = { λ s. (1 ≤ s.len) × (s.len ≤ ROWS) × (s.entries ≡ padded (take s.len s.entries)) };

    ghost inverse = { λ v. record { entries = padded v; len = length v } };

    ghost inverse_ok = { λ a h. λ i. record { entries = sym h.2 i; len = padded_front (pos 0) ROWS a.len a.entries h.1 h.2 i } };
}

impl IVec {
    /// The vector with these entries.
    pub fn of(entries: &[i128]) -> Self
        requires some { 1 ≤ length entries.now }
        requires few { length entries.now ≤ ROWS }
        ensures { result ≡ entries.now }
    {
        let mut all = [0i128; ROWS];
        all[..entries.len()].copy_from_slice(entries);
        IVec {
            entries: all,
            len: entries.len(),
        }
    }

    /// The unit vector with 1 at place `i`, counted from 0, of `k` entries.
    pub fn unit(k: usize, i: usize) -> Self
        requires at { i < k }
        requires few { k ≤ ROWS }
        ensures { slice_get (units k) i ≡ Some result }
    {
        let mut all = [0i128; ROWS];
        all[i] = 1;
        IVec::of(&all[..k])
    }

    /// The entries.
    pub fn as_slice(&self) -> &[i128]
        ensures value { result.now ≡ self.now }
        ensures some { 1 ≤ length self.now }
        ensures few { length self.now ≤ ROWS }
    {
        &self.entries[..self.len]
    }

    /// The number of entries.
    pub fn len(&self) -> usize
        ensures value { result ≡ length self.now }
        ensures some { 1 ≤ result }
        ensures few { result ≤ ROWS }
    {
        self.as_slice().len()
    }

    /// The entry at place `i`, counted from 0.
    pub fn entry(&self, i: usize) -> i128
        requires { i < length self.now }
        ensures { slice_get self.now i ≡ Some result }
    {
        self.as_slice()[i]
    }

    /// The inner product of two vectors of one length, one with entries of at most 2^40 in absolute
    /// value, the other of at most 2^80.
    pub fn dot(&self, other: &IVec) -> i128
        requires lengths { length self.now ≡ length other.now }
        requires small { (AreWithin ENTRY self.now × AreWithin (2 ^ 80) other.now)
            ⊎ (AreWithin (2 ^ 80) self.now × AreWithin ENTRY other.now) }
        ensures { result ≡ dot self.now other.now }
    {
        inner_product(self.as_slice(), other.as_slice())
    }

    /// The sum of two vectors of one length, with entries of at most 2^80 in absolute value.
    pub fn plus(&self, other: &IVec) -> IVec
        requires lengths { length self.now ≡ length other.now }
        requires first { AreWithin (2 ^ 80) self.now }
        requires second { AreWithin (2 ^ 80) other.now }
        ensures { result ≡ plus self.now other.now }
    {
        let a = self.as_slice();
        let b = other.as_slice();
        let mut all = [0i128; ROWS];
        for i in 0..a.len() {
            all[i] = sum(a[i], b[i]);
        }
        IVec::of(&all[..a.len()])
    }

    /// `a u + b v`, of two vectors of one length with entries of at most 2^40 in absolute value, and of
    /// numbers of at most 2^83.
    pub fn combine(a: i128, u: &IVec, b: i128, v: &IVec) -> IVec
        requires lengths { length u.now ≡ length v.now }
        requires first { AreWithin ENTRY u.now }
        requires second { AreWithin ENTRY v.now }
        requires one { unsigned_abs a ≤ 2 ^ 83 }
        requires other { unsigned_abs b ≤ 2 ^ 83 }
        ensures { result ≡ plus (scale a u.now) (scale b v.now) }
    {
        let x = u.as_slice();
        let y = v.as_slice();
        let mut all = [0i128; ROWS];
        for i in 0..x.len() {
            all[i] = blend(a, x[i], b, y[i]);
        }
        IVec::of(&all[..x.len()])
    }

    /// The vector divided by the greatest common divisor of its entries, which are at most 2^126 in
    /// absolute value. The zero vector stays.
    pub fn primitive(&self) -> IVec
        requires { AreWithin (2 ^ 126) self.now }
        ensures { IsPrimitivePart self.now result }
    {
        let a = self.as_slice();
        let divisor = content(a);
        if divisor == 0 {
            return *self;
        }
        if divisor == 1 {
            return *self;
        }
        let mut all = [0i128; ROWS];
        for i in 0..a.len() {
            all[i] = quotient(a[i], divisor);
        }
        IVec::of(&all[..a.len()])
    }
}

fn inner_product(a: &[i128], b: &[i128]) -> i128
    requires lengths { length a.now ≡ length b.now }
    requires few { length a.now ≤ ROWS }
    requires small { (AreWithin ENTRY a.now × AreWithin (2 ^ 80) b.now) ⊎ (AreWithin (2 ^ 80) a.now × AreWithin ENTRY b.now) }
    ensures { result ≡ dot a.now b.now }
{
    let mut total = 0i128;
    for i in 0..a.len() {
        total = sum(total, product(a[i], b[i]));
    }
    total
}

impl PartialEq for IVec {
    ghost eq = { pointwise int_eq };

    ghost laws = { Prim.search (comparing, rules) };

    fn eq(&self, other: &IVec) -> bool {
        self.as_slice() == other.as_slice()
    }
}

impl Eq for IVec {
    ghost laws = { Prim.search (comparing, rules) };
}

impl PartialOrd for IVec {
    ghost partial_cmp = { as_partial_cmp (slice_cmp int_cmp) };

    ghost laws = { partial_order_from_own_ties (Prim.search (comparing, rules)) vectors_ties };

    fn partial_cmp(&self, other: &IVec) -> Option<Ordering> {
        Some(self.cmp(other))
    }
}

impl Ord for IVec {
    ghost cmp = { slice_cmp int_cmp };

    ghost total = { Prim.search (comparing, rules) };

    ghost matches_partial_cmp = { Prim.search (comparing, rules) };

    ghost matches_eq = { vectors_ties };

    fn cmp(&self, other: &IVec) -> Ordering {
        self.as_slice().cmp(other.as_slice())
    }
}

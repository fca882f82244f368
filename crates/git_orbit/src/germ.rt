//! Germs.
ghost use Rattle.std.specs.Prelude.{◌≡◌, ◌≤◌, ◌^◌, All, length};
ghost use Rattle.git_defs.specs.Vectors.{AllOfLength};
ghost use Rattle.git_canon.specs.Canons.{entries_of};
ghost use Rattle.git_ints.specs.Padded.{AreWithin};

use git_ints::IVec;
use std::marker::Model;

const MOST: usize = 8;

/// One to eight vectors of one length, with entries of at most 2^80 in absolute value: a point that runs
/// off along the first, moved a little along the second, less along the third, and so on. Contracts see
/// it as the list of its vectors.
#[derive(Drop)]
pub struct Germ {
    vectors: [IVec; 8],
    len: usize,
}

impl Model for Germ {
    ghost use Rattle.std.specs.Prelude.{◌≤◌, List, ℤ, take};
    ghost use Rattle.git_orbit.specs.Signatures.{IsGerm};

    ghost Value = { List (List ℤ) };

    ghost view = { λ g. take g.len g.vectors };

    ghost invariant = { λ g. (1 ≤ g.len) × (g.len ≤ 8) × IsGerm (take g.len g.vectors) };
}

impl Germ {
    /// The germ of these vectors.
    pub fn of(vectors: &[IVec]) -> Self
        requires some { 1 ≤ length vectors.now }
        requires few { length vectors.now ≤ 8 }
        requires lengths { AllOfLength (entries_of vectors.now) vectors.now }
        requires within { All (AreWithin (2 ^ 80)) vectors.now }
        ensures { result ≡ vectors.now }
    {
        let mut all = [vectors[0]; MOST];
        all[..vectors.len()].copy_from_slice(vectors);
        Germ {
            vectors: all,
            len: vectors.len(),
        }
    }

    /// The vectors.
    pub fn as_slice(&self) -> &[IVec]
        ensures value { result.now ≡ self.now }
        ensures some { 1 ≤ length self.now }
        ensures few { length self.now ≤ 8 }
        ensures lengths { AllOfLength (entries_of self.now) self.now }
        ensures within { All (AreWithin (2 ^ 80)) self.now }
    {
        &self.vectors[..self.len]
    }
}

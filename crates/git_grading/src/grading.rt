//! Gradings: matrices whose columns span, and whose cone is pointed.
ghost use Rattle.std.specs.Prelude.{◌≡◌, ◌≤◌, ◌<◌, ◌^◌, ◌↔◌, ℕ, length, slice_get, Some, IfOk, IsErrOf, IsTrue};
ghost use Rattle.git_defs.specs.Vectors.{HasRank, HasZeroSum};
ghost use Rattle.git_defs.specs.Faces.{IsFullDimensional};
ghost use Rattle.git_grading.specs.Gradings.{IsMatrix, IsGrading};
ghost use Rattle.git_grading.specs.Tables.{HasWithin};

use crate::bases::{bases, has_positive_dependence};
use crate::fault::GradingFault;
use crate::minors::minors;
use git_bits::is_within;
use git_ints::IVec;
use std::alloc::Global;
use std::marker::Model;

/// A matrix of one to six rows and one to sixteen columns, with entries from -1000 to 1000. As many of
/// its columns as it has rows are independent, and no sum of columns with natural numbers, not all 0, is
/// 0. Column `i` is the degree of the variable `T(i + 1)`.
#[derive(Drop)]
pub struct Grading {
    k: usize,
    columns: Vec<IVec>,
    /// The faces of `k` independent columns.
    bases: Vec<u16>,
}

impl Model for Grading {
    ghost use Rattle.git_grading.specs.Gradings.{Degrees, IsGrading};
    ghost use Rattle.git_grading.specs.Tables.{AreBases};

    ghost Value = { Degrees };

    ghost view = { λ g. record { k = g.k; columns = g.columns.items } };

    ghost invariant = { λ g. IsGrading g.k g.columns.items × AreBases g.k g.columns.items g.bases.items };
}

impl Grading {
    /// The grading with `k` rows and these columns.
    ///
    /// # Errors
    ///
    /// - `Rank`: no `k` of the columns are independent.
    /// - `Pointed`: some `k` are, and natural numbers, not all 0, make the columns sum to 0.
    /// - `NoMemory`: memory ran out.
    pub fn of(alloc: Global, k: usize, columns: Vec<IVec>) -> Result<Grading, GradingFault>
        requires { IsMatrix k columns.items }
        ensures value { IfOk result (λ g. (g.k ≡ k) × (g.columns ≡ columns.items)) }
        ensures grading { IfOk result (λ g. IsGrading k columns.items) }
        ensures rank { IsErrOf result GradingFault.Rank → (HasRank k columns.items → ⊥) }
        ensures pointed { IsErrOf result GradingFault.Pointed → HasRank k columns.items × HasZeroSum k columns.items }
    {
        let minors = minors(alloc, k, &columns)?;
        let bases = bases(alloc, k, &columns, &minors)?;
        if bases.is_empty() {
            return Err(GradingFault::Rank);
        }
        if has_positive_dependence(k, &columns, &minors) {
            return Err(GradingFault::Pointed);
        }
        Ok(Grading { k, columns, bases })
    }

    /// The number of rows.
    pub fn k(&self) -> usize
        ensures value { result ≡ self.now.k }
        ensures grading { IsGrading self.now.k self.now.columns }
    {
        let _ = &self.columns;
        self.k
    }

    /// The number of columns.
    pub fn r(&self) -> usize
        ensures value { result ≡ length self.now.columns }
        ensures grading { IsGrading self.now.k self.now.columns }
    {
        self.columns.len()
    }

    /// The column at place `i`, counted from 0.
    pub fn column(&self, i: usize) -> IVec
        requires { i < length self.now.columns }
        ensures { slice_get self.now.columns i ≡ Some result }
    {
        self.columns[i]
    }

    /// All columns.
    pub fn columns(&self) -> &[IVec]
        ensures { result.now ≡ self.now.columns }
    {
        &self.columns
    }

    /// Whether as many columns of the face as there are rows are independent. Bit `i` of the mask stands
    /// for column `i`, and no bit past the columns is set.
    pub fn full(&self, mask: u16) -> bool
        requires { mask < 2 ^ length self.now.columns }
        ensures { IsTrue result ↔ IsFullDimensional self.now.k self.now.columns mask }
    {
        has_basis(&self.bases, mask)
    }
}

/// Whether one of the bases lies within the mask.
fn has_basis(bases: &[u16], mask: u16) -> bool
    ensures { IsTrue result ↔ HasWithin bases.now mask }
{
    for basis in bases {
        if is_within(u64::from(*basis), u64::from(mask)) {
            return true;
        }
    }
    false
}

//! Rows of a grading with a modulus.
use std::marker::Model;

/// A row of a grading with a modulus. The degree of `T(i)` has in it the class of its entry for `T(i)`.
///
/// The modulus is from 2 to 1000. There is an entry for each variable, from -1000 to 1000.
#[derive(Drop, Debug)]
pub struct Torsion {
    pub modulus: u32,
    pub entries: Vec<i32>,
}

impl Model for Torsion {
    ghost use Rattle.git_degrees.specs.Torsions.{TorsionRow, IsTorsionRow, torsion_code};

    ghost Value = { TorsionRow };

    ghost coded = { torsion_code };

    ghost view = { λ x. record { modulus = x.modulus; entries = x.entries.items } };

    ghost invariant = { λ x. IsTorsionRow (record { modulus = x.modulus; entries = x.entries.items }) };
}

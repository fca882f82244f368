//! Pluecker relations of planes.
ghost use Rattle.std.specs.Prelude.{◌≡◌, ◌⊎◌, ◌≤◌, ◌<◌, ℕ, map, take, slice_index, IfOk};
ghost use Rattle.git_algebra.specs.Exponents.{times, variable_power};
ghost use Rattle.git_make.specs.Samples.{plucker_columns, plucker_relations, plucker_of};
ghost use Rattle.git_make.specs.Tables.{relation_at, AreShort};

use crate::draws::grading_of;
use crate::tables::{FIVE, FIVE_RELATIONS, FOUR, FOUR_RELATIONS};
use git_base::NoMemory;
use git_field::Fp;
use git_input::Input;
use git_ints::IVec;
use git_mono::Mono;
use git_poly::Poly;
use std::alloc::Global;

/// The first `k` entries of each row of a table, as columns.
fn cut_columns(alloc: Global, k: usize, table: &[[i128; 5]]) -> Result<Vec<IVec>, NoMemory>
    requires some { 1 ≤ k }
    requires few { k ≤ 5 }
    ensures { IfOk result (λ v. v.items ≡ map (take k) table.now) }
{
    let mut columns = Vec::new(alloc);
    for row in table {
        columns.push(IVec::of(&row[..k]))?;
    }
    Ok(columns)
}

/// The product of two variables.
fn product(i: usize, j: usize) -> Mono
    requires first { i < 17 }
    requires second { j < 17 }
    ensures { result ≡ times (variable_power i 1) (variable_power j 1) }
{
    let first = Mono::power(i, 1).unwrap();
    let second = Mono::power(j, 1).unwrap();
    first.times(&second).unwrap()
}

/// The first monomial less the second, and the third.
fn three_terms(alloc: Global, first: Mono, second: Mono, third: Mono) -> Result<Poly, NoMemory>
    ensures { IfOk result (λ p. p ≡ Rattle.git_make.specs.Samples.three_terms first second third) }
{
    let one = Fp::reduce(1);
    let first = Poly::term(alloc, first, one)?;
    let second = Poly::term(alloc, second, one)?;
    let third = Poly::term(alloc, third, one)?;
    let difference = first.sub(alloc, &second)?;
    difference.add(alloc, &third)
}

/// The relation whose variables stand at these places.
fn relation(alloc: Global, places: &[usize; 6]) -> Result<Poly, NoMemory>
    requires { (i : ℕ) → slice_index places.now i < 17 }
    ensures { IfOk result (λ p. p ≡ relation_at places.now) }
{
    let first = product(places[0], places[1]);
    let second = product(places[2], places[3]);
    let third = product(places[4], places[5]);
    three_terms(alloc, first, second, third)
}

/// The relations of a table.
fn relations(alloc: Global, table: &[[usize; 6]]) -> Result<Vec<Poly>, NoMemory>
    requires { AreShort table.now }
    ensures { IfOk result (λ v. v.items ≡ map relation_at table.now) }
{
    let mut generators = Vec::new(alloc);
    for places in table {
        generators.push(relation(alloc, places)?)?;
    }
    Ok(generators)
}

/// The columns for `n`.
fn columns_of(alloc: Global, n: u32) -> Result<Vec<IVec>, NoMemory>
    requires { (n ≡ 4) ⊎ (n ≡ 5) }
    ensures { IfOk result (λ v. v.items ≡ plucker_columns n) }
{
    if n == 4 {
        cut_columns(alloc, 4, &FOUR)
    } else {
        cut_columns(alloc, 5, &FIVE)
    }
}

/// The generators for `n`.
fn generators_of(alloc: Global, n: u32) -> Result<Vec<Poly>, NoMemory>
    requires { (n ≡ 4) ⊎ (n ≡ 5) }
    ensures { IfOk result (λ v. v.items ≡ plucker_relations n) }
{
    if n == 4 {
        relations(alloc, &FOUR_RELATIONS)
    } else {
        relations(alloc, &FIVE_RELATIONS)
    }
}

/// The Pluecker relations of the planes in a space of dimension `n`, which is 4 or 5: a variable for each pair `i < j`, with
/// the degree `e_i + e_j`, and a generator for each four.
pub fn plucker(alloc: Global, n: u32) -> Result<Input, NoMemory>
    requires { (n ≡ 4) ⊎ (n ≡ 5) }
    ensures { IfOk result (λ x. x ≡ plucker_of n) }
{
    let columns = columns_of(alloc, n)?;
    let generators = generators_of(alloc, n)?;
    let grading = grading_of(alloc, n as usize, columns)?;
    Ok(Input {
        grading,
        generators,
    })
}

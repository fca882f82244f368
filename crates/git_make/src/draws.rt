//! Points of a plane, most of them drawn.
ghost use Rattle.std.specs.Prelude.{◌≡◌, ◌+◌, ◌-◌, ◌≤◌, ◌<◌, ◌++◌, ◌∷◌, [], pos, map, IfOk, OnOk};
ghost use Rattle.std.specs.List.{range_with_len};
ghost use Rattle.git_grading.specs.Gradings.{IsGrading};
ghost use Rattle.git_make.specs.Samples.{drawn_column, corners, points_columns, points_of};

use git_base::NoMemory;
use git_grading::{Grading, GradingFault};
use git_input::Input;
use git_ints::IVec;
use std::alloc::{AllocError, Global};

/// The state of the draws after this one.
fn next_state(x: u64) -> u64
    requires { x < 2147483648 }
    ensures value { result ≡ Rattle.git_make.specs.Samples.next_state x }
    ensures small { result < 2147483648 }
{
    (1_103_515_245 * x + 12_345) % 2_147_483_648
}

/// What is drawn with this state, below 64.
fn drawn(x: u64) -> i128
    ensures { result ≡ pos (Rattle.git_make.specs.Samples.drawn x) }
{
    i128::from(x / 65_536 % 64)
}

/// The three columns that aren't drawn.
fn first_columns(alloc: Global) -> Result<Vec<IVec>, NoMemory>
    ensures { IfOk result (λ v. v.items ≡ corners) }
{
    let mut columns = Vec::new(alloc);
    columns.push(IVec::of(&[1, 0, 0]))?;
    columns.push(IVec::of(&[1, 63, 0]))?;
    columns.push(IVec::of(&[1, 0, 63]))?;
    Ok(columns)
}

/// The column of the point that is drawn with two states.
fn column_of(first: u64, second: u64) -> IVec
    ensures { result ≡ pos 1 ∷ pos (Rattle.git_make.specs.Samples.drawn first) ∷ pos (Rattle.git_make.specs.Samples.drawn second) ∷ [] }
{
    let across = drawn(first);
    let up = drawn(second);
    IVec::of(&[1, across, up])
}

/// Adds columns that are drawn, so many.
fn push_drawn(columns: &mut Vec<IVec>, count: u32, seed: u32) -> Result<(), NoMemory>
    requires { seed < 1000000000 }
    ensures { OnOk result (columns.new.items ≡ columns.old.items ++ map (drawn_column seed) (range_with_len 0 count)) }
{
    let mut state = u64::from(seed);
    for _ in 0..count {
        let first = next_state(state);
        let second = next_state(first);
        columns.push(column_of(first, second))?;
        state = second;
    }
    Ok(())
}

/// The grading of columns that are one.
pub(crate) fn grading_of(alloc: Global, k: usize, columns: Vec<IVec>) -> Result<Grading, NoMemory>
    requires { IsGrading k columns.items }
    ensures { IfOk result (λ g. (g.k ≡ k) × (g.columns ≡ columns.items)) }
{
    match Grading::of(alloc, k, columns) {
        Ok(grading) => Ok(grading),
        Err(GradingFault::NoMemory) => Err(NoMemory),
        Err(GradingFault::Rank) => unreachable!(),
        Err(GradingFault::Pointed) => unreachable!(),
    }
}

/// The columns of `n` points.
fn columns_of(alloc: Global, n: u32, seed: u32) -> Result<Vec<IVec>, NoMemory>
    requires some { 3 ≤ n }
    requires small { seed < 1000000000 }
    ensures { IfOk result (λ v. v.items ≡ points_columns n seed) }
{
    let mut columns = first_columns(alloc)?;
    push_drawn(&mut columns, n - 3, seed)?;
    Ok(columns)
}

/// `n` points of a plane: three corners of a square, and others that are drawn from a seed; no generators. There are 3 to
/// 16 points, and the seed is below 10^9.
pub fn points(alloc: Global, n: u32, seed: u32) -> Result<Input, NoMemory>
    requires some { 3 ≤ n }
    requires few { n ≤ 16 }
    requires small { seed < 1000000000 }
    ensures { IfOk result (λ x. x ≡ points_of n seed) }
{
    let columns = columns_of(alloc, n, seed)?;
    let grading = grading_of(alloc, 3, columns)?;
    Ok(Input {
        grading,
        generators: Vec::new(alloc),
    })
}

//! The columns of a matrix given by its rows.
ghost use Rattle.std.specs.Prelude.{◌≡◌, ◌<◌, ◌≤◌, pos, length, slice_index_or, IfOk, All};
ghost use Rattle.git_text.specs.Grammar.{column_of, columns_of};
ghost use Rattle.git_text.specs.Views.{row_of, rows_of};

use crate::rows::Row;
use git_ints::IVec;
use git_limits::ROWS;
use std::alloc::{AllocError, Global};

/// The entry at place `j` of a row, counted from 0.
fn entry(row: &Row, j: usize) -> i128
    requires { j < length (row_of row.now) }
    ensures { result ≡ slice_index_or (row_of row.now) j (pos 0) }
{
    i128::from(row.entries[j])
}

/// The column at place `j`, counted from 0.
fn column(rows: &[Row], j: usize) -> IVec
    requires some { 1 ≤ length rows.now }
    requires few { length rows.now ≤ ROWS }
    requires wide { All (λ row. j < length (row_of row)) rows.now }
    ensures { result ≡ column_of (rows_of rows.now) j }
{
    let mut entries = [0i128; ROWS];
    for (i, row) in rows.iter().enumerate() {
        entries[i] = entry(row, j);
    }
    IVec::of(&entries[..rows.len()])
}

/// The columns, where each row has `r` entries.
pub(crate) fn columns(alloc: Global, rows: &[Row], r: usize) -> Result<Vec<IVec>, AllocError>
    requires some { 1 ≤ length rows.now }
    requires few { length rows.now ≤ ROWS }
    requires wide { All (λ row. length (row_of row) ≡ r) rows.now }
    ensures { IfOk result (λ v. v.items ≡ columns_of r (rows_of rows.now)) }
{
    let mut columns = Vec::with_capacity(alloc, r)?;
    for j in 0..r {
        columns.push(column(rows, j))?;
    }
    Ok(columns)
}

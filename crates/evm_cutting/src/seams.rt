//! Where the two sides of a plane meet.

ghost use Rattle.std.specs.Prelude.{◌≡◌, ◌-◌, ◌*◌, ◌<◌, ◌≤◌, [], ◌∷◌, ◌++◌, length, IfOk, OnOk};
ghost use Rattle.evm_cells.specs.Measures.{content};
ghost use Rattle.evm_cells.specs.Sections.{rows_at};
ghost use Rattle.evm_rows.specs.Rows.{flat_of, cells_of};
ghost use Rattle.evm_rows.specs.View.{vertices_of};
ghost use Rattle.evm_cutting.specs.Seams.{couplet_cells, shared_cells};

use crate::measures::content;
use evm_rows::{NoMemory, Rows, Solid, split_row, xor};
use std::alloc::{AllocError, Global};

// Appends the row without its number at `axis`, if that number is `at`.
fn append_at(out: &mut Vec<i32>, row: &[i32], axis: usize, at: i32) -> Result<(), AllocError>
    requires { axis < length row.now }
    ensures { OnOk result
        (out.new.items ≡ out.old.items ++ flat_of (rows_at axis at (row.now ∷ []))) }
{
    if row[axis] == at {
        out.extend_from_slice(&row[..axis])?;
        out.extend_from_slice(&row[axis + 1..])?;
    }
    Ok(())
}

// Appends each row at the height `at` of an axis, without its number there.
fn append_all_at(out: &mut Vec<i32>, a: Rows<'_>, axis: usize, at: i32) -> Result<(), AllocError>
    requires { axis < (vertices_of a).dim }
    ensures { OnOk result
        (out.new.items ≡ out.old.items ++ flat_of (rows_at axis at (vertices_of a.entry).rows)) }
{
    let mut left = a.flat;
    while left.len() != 0 {
        let (row, rest) = split_row(left, a.width, a.skip);
        append_at(out, row, axis, at)?;
        left = rest;
    }
    Ok(())
}

/// The couplet at the height `at` of an axis, counted from 0: its vertices are the rows at this height, without it, in the order in
/// which they stand. Takes memory for the answer. The one error is want of memory.
pub(crate) fn couplet_at(
    alloc: Global,
    a: Rows<'_>,
    axis: usize,
    at: i32,
) -> Result<Solid, NoMemory>
    requires deep { 2 ≤ (vertices_of a).dim }
    requires axis { axis < (vertices_of a).dim }
    ensures dim { IfOk result (λ s. s.dim ≡ (vertices_of a.entry).dim - 1) }
    ensures cells { IfOk result (λ s. cells_of s ≡ couplet_cells axis at (vertices_of a.entry)) }
{
    let dim = a.dim() - 1;
    let mut flat = Vec::new(alloc);
    append_all_at(&mut flat, a, axis, at)?;
    Ok(Solid::from_rows(dim, flat))
}

/// Twice the number of pairs of neighbours of which one is just below the plane in `low` and the other just above it in `high`: the
/// faces that `low` and `high` have in the plane, where their union has none. `low` lies below the plane, `high` above it, so their
/// couplets there are their sections. Takes memory for the two, for their exclusive or, and as [`content`] does. The one error is
/// want of memory.
pub(crate) fn faces_between(
    alloc: Global,
    low: &Solid,
    high: &Solid,
    axis: usize,
    at: i32,
) -> Result<u128, NoMemory>
    requires deep { 2 ≤ low.now.dim }
    requires dim { high.now.dim ≡ low.now.dim }
    requires axis { axis < low.now.dim }
    ensures { IfOk result (λ n. n ≡ 2 * content (shared_cells axis at low.now high.now)) }
{
    let below = couplet_at(alloc, low.rows(), axis, at)?;
    let above = couplet_at(alloc, high.rows(), axis, at)?;
    let change = xor(alloc, below.rows(), above.rows())?;
    let apart = content(alloc, change.rows())?;
    let first = content(alloc, below.rows())?;
    let second = content(alloc, above.rows())?;
    Ok(first + second - apart)
}

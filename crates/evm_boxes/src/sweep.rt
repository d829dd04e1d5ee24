//! Unions of boxes in the plane, by one sweep.

ghost use Rattle.std.specs.Prelude.{◌≡◌, map, All, IfOk, OnOk};
ghost use Rattle.std.specs.List.Sorted.{IsSortedByKey};
ghost use Rattle.std.specs.Ordering.{int_cmp};
ghost use Rattle.evm_cells.specs.Sections.{slice};
ghost use Rattle.evm_cells.specs.Vertices.{evm};
ghost use Rattle.evm_cells.specs.Unions.{union_of};
ghost use Rattle.evm_boxes.specs.BoxRows.{ends_of, IsBoxRow};
ghost use Rattle.evm_boxes.specs.Fills.{low_of, reaches, IsWithRun, IsWithPart};

use super::BoxRow;
use super::heights::heights_of;
use evm_rows::{NoMemory, Solid, append_xor};
use std::alloc::{AllocError, Global};

/// The union of boxes of dimension 2, by a sweep over the heights at which boxes come or go.
///
/// The boxes are put in order by where they begin on the second axis, so that at each height one pass over them gives the
/// section above it; the couplet is its exclusive or with the section below. Time grows by the boxes times the heights, so
/// this is for few. It takes memory for two numbers a box, for two sections and for the answer; the one error is want of
/// memory.
pub(crate) fn join_plane(alloc: Global, mut rows: Vec<BoxRow>) -> Result<Solid, NoMemory>
    requires boxes { All (IsBoxRow 2) rows.items }
    ensures dim { IfOk result (λ s. s.dim ≡ 2) }
    ensures rows { IfOk result (λ s. s.rows ≡ evm 2 (union_of 2 (map ends_of rows.items))) }
{
    rows.sort_unstable_by_key(|row| row.lo[1]);
    let all = sweep(alloc, rows.as_slice())?;
    Ok(all)
}

/// The union of boxes that are in order by where they begin on the second axis.
fn sweep(alloc: Global, rows: &[BoxRow]) -> Result<Solid, NoMemory>
    requires boxes { All (IsBoxRow 2) rows.now }
    requires sorted { IsSortedByKey (low_of 1) int_cmp rows.now }
    ensures dim { IfOk result (λ s. s.dim ≡ 2) }
    ensures rows { IfOk result (λ s. s.rows ≡ evm 2 (union_of 2 (map ends_of rows.now))) }
{
    let heights = heights_of(alloc, rows)?;
    let mut below = Solid::empty(alloc, 1);
    let mut spare = Solid::empty(alloc, 1);
    let mut out = Vec::new(alloc);
    for height in heights.as_slice() {
        let above = section(rows, *height, spare)?;
        out = append_xor(out, Some(*height), below.rows(), above.rows())?;
        spare = below;
        below = above;
    }
    Ok(Solid::from_rows(2, out))
}

/// The section of the union just above a height, in the room of a solid that is done with.
fn section(rows: &[BoxRow], height: i32, room: Solid) -> Result<Solid, NoMemory>
    requires boxes { All (IsBoxRow 2) rows.now }
    requires sorted { IsSortedByKey (low_of 1) int_cmp rows.now }
    ensures dim { IfOk result (λ s. s.dim ≡ 1) }
    ensures rows { IfOk result
        (λ s. s.rows ≡ evm 1 (slice 1 0 height (union_of 2 (map ends_of rows.now)))) }
{
    let mut line = room.into_flat();
    line.clear();
    for row in rows {
        add_part(&mut line, row, height)?;
    }
    Ok(Solid::from_rows(1, line))
}

/// Adds what a box has at a height to a line of runs, none of which begins after it.
fn add_part(line: &mut Vec<i32>, row: &BoxRow, height: i32) -> Result<(), AllocError>
    ensures { OnOk result (IsWithPart row.now height line.old.items line.new.items) }
{
    if height < row.lo[0] || row.hi[0] <= height {
        return Ok(());
    }
    add_run(line, row.lo[1], row.hi[1])
}

/// Adds the run from `low` up to `high` to a line of runs, none of which begins after `low`.
fn add_run(line: &mut Vec<i32>, low: i32, high: i32) -> Result<(), AllocError>
    ensures { OnOk result (IsWithRun line.old.items low high line.new.items) }
{
    if reaches(line.as_slice(), low) {
        let last = line.len() - 1;
        line[last] = line[last].max(high);
        return Ok(());
    }
    line.push(low)?;
    line.push(high)?;
    Ok(())
}

/// Whether a run from `low` begins within the last run of a line, or at its end.
fn reaches(line: &[i32], low: i32) -> bool
    ensures { result ≡ reaches line.now low }
{
    let count = line.len();
    count != 0 && low <= line[count - 1]
}

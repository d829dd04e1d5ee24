// The rows inside a box by their keys, where rows have at most four numbers.
ghost use Rattle.std.specs.Prelude.{◌≡◌, ◌++◌, ◌%◌, ◌+◌, ◌-◌, ◌*◌, ◌^◌, ◌<◌, ◌≤◌, length, map, get_or, pos, true, IfOk, OnOk};
ghost use Rattle.std.specs.List.{All};
ghost use Rattle.evm_cells.specs.Boxes.{is_box};
ghost use Rattle.evm_cells.specs.Windows.{between, clamped};
ghost use Rattle.evm_rows.specs.Rows.{rows_of};
ghost use Rattle.evm_rows.specs.View.{vertices_of};
ghost use Rattle.evm_shapes.specs.Keys.{unpacked, room, IsLowKeys};
ghost use Rattle.evm_shapes.specs.Moves.{raised};
ghost use Rattle.evm_shapes.specs.Order.{AreMoved};

use crate::clips::moved_at;
use crate::keys::{put, rows_of_keys, word_of};
use evm_rows::{Rows, split_row};
use std::alloc::{AllocError, Global};

// The key of a row that is moved into the box.
#[inline(always)]
fn moved_key(row: &[i32], lo: &[i32], hi: &[i32]) -> u128
    requires narrow { length row.now ≤ 4 }
    requires low { length lo.now ≡ length row.now }
    requires high { length hi.now ≡ length row.now }
    ensures room { result < room (length row.now) }
    ensures row { unpacked (length row.now) result ≡ clamped lo.now hi.now row.now }
{
    let mut key = 0u128;
    for k in 0..row.len() {
        key = key * 0x1_0000_0000 + word_of(moved_at(row, lo, hi, k));
    }
    key
}

// The keys of the rows below the upper end on the first axis, moved into the box, with those taken away that meet their like.
struct LowKeys {
    keys: Vec<u128>,
    // Whether these are all rows.
    all: bool,
}

// Those keys. Where the compiler knows `dim`, a row becomes its key with no loop and no call.
#[inline(always)]
fn low_keys_of(
    alloc: Global,
    a: Rows<'_>,
    dim: usize,
    lo: &[i32],
    hi: &[i32],
) -> Result<LowKeys, AllocError>
    requires dim { dim ≡ (vertices_of a).dim }
    requires narrow { (vertices_of a).dim ≤ 4 }
    requires inside { is_box (vertices_of a).dim lo.now hi.now ≡ true }
    ensures { IfOk result
        (λ l. IsLowKeys lo.now hi.now (vertices_of a.entry) l.keys.items l.all) }
{
    let mut keys: Vec<u128> = Vec::with_capacity(alloc, a.len())?;
    let mut left = a.flat;
    while left.len() != 0 {
        let (whole_row, rest) = split_row(left, a.width, a.skip);
        let (row, _) = whole_row.split_at(dim);
        if hi[0] <= row[0] {
            return Ok(LowKeys { keys, all: false });
        }
        put(&mut keys, moved_key(row, lo, hi))?;
        left = rest;
    }
    Ok(LowKeys { keys, all: true })
}

// Those keys. It is compiled apart for each number of coordinates, so that no row is read by a loop of unknown length.
fn low_keys(alloc: Global, a: Rows<'_>, lo: &[i32], hi: &[i32]) -> Result<LowKeys, AllocError>
    requires narrow { (vertices_of a).dim ≤ 4 }
    requires inside { is_box (vertices_of a).dim lo.now hi.now ≡ true }
    ensures { IfOk result
        (λ l. IsLowKeys lo.now hi.now (vertices_of a.entry) l.keys.items l.all) }
{
    match a.dim() {
        1 => low_keys_of(alloc, a, 1, lo, hi),
        2 => low_keys_of(alloc, a, 2, lo, hi),
        3 => low_keys_of(alloc, a, 3, lo, hi),
        _ => low_keys_of(alloc, a, 4, lo, hi),
    }
}

// The words of a key but the first.
fn low_words(key: u128, width: usize) -> u128
    requires some { 0 < width }
    requires narrow { width ≤ 4 }
    ensures { result ≡ key % room (width - 1) }
{
    match width {
        1 => 0,
        2 => key % 0x1_0000_0000,
        3 => key % 0x1_0000_0000_0000_0000,
        _ => key % 0x1_0000_0000_0000_0000_0000_0000,
    }
}

// A word at the place of the first of a key.
fn first_word(word: u128, width: usize) -> u128
    requires some { 0 < width }
    requires narrow { width ≤ 4 }
    requires small { word < 2 ^ 32 }
    ensures { result ≡ word * room (width - 1) }
{
    match width {
        1 => word,
        2 => word * 0x1_0000_0000,
        3 => word * 0x1_0000_0000_0000_0000,
        _ => word * 0x1_0000_0000_0000_0000_0000_0000,
    }
}

// Adds each key once more, put at a height on the first axis.
fn close(keys: &mut Vec<u128>, at: i32, width: usize) -> Result<(), AllocError>
    requires some { 0 < width }
    requires narrow { width ≤ 4 }
    requires room { All (λ k. k < room width) keys.old.items }
    ensures room { OnOk result (All (λ k. k < room width) keys.new.items) }
    ensures rows { OnOk result
        (map (unpacked width) keys.new.items ≡ map (unpacked width) keys.old.items
        ++ map (raised at) (map (unpacked width) keys.old.items)) }
{
    let top = first_word(word_of(at), width);
    for i in 0..keys.len() {
        let key = keys[i];
        keys.push(top + low_words(key, width))?;
    }
    Ok(())
}

/// The rows, moved into the box, that then stand an odd number of times. Those at or above the upper end on the first axis are not
/// read: each line along that axis has an even number of rows, so they come to as many there as those below it do.
pub(crate) fn rows_inside_by_keys(
    alloc: Global,
    a: Rows<'_>,
    lo: &[i32],
    hi: &[i32],
) -> Result<Vec<i32>, AllocError>
    requires narrow { (vertices_of a).dim ≤ 4 }
    requires inside { is_box (vertices_of a).dim lo.now hi.now ≡ true }
    ensures whole { IfOk result (λ v. length v.items % (vertices_of a.entry).dim ≡ 0) }
    ensures rows { IfOk result
        (λ v. AreMoved lo.now hi.now (vertices_of a.entry)
        (rows_of v.items (vertices_of a.entry).dim 0)) }
{
    let dim = a.dim();
    let LowKeys { mut keys, all } = low_keys(alloc, a, lo, hi)?;
    if all {
        let flat = rows_of_keys(alloc, keys, dim)?;
        return Ok(flat);
    }
    close(&mut keys, hi[0], dim)?;
    let flat = rows_of_keys(alloc, keys, dim)?;
    Ok(flat)
}

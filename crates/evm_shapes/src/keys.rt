// Rows of at most four numbers as whole numbers that are ordered as the rows are, so that they sort with no call a row.
ghost use Rattle.std.specs.Prelude.{◌≡◌, ◌-◌, ◌%◌, ◌/◌, ◌^◌, ◌<◌, ◌≤◌, ◌++◌, length, drop, map, IfOk, OnOk};
ghost use Rattle.std.specs.List.{All};
ghost use Rattle.evm_rows.specs.Rows.{rows_of, flat_of};
ghost use Rattle.evm_cells.specs.Windows.{IsReduced};
ghost use Rattle.evm_shapes.specs.Order.{starts_pair, unpaired, AreLone};
ghost use Rattle.evm_shapes.specs.Keys.{number_of, unpacked, room, IsPut};

use evm_rows::split_row;
use std::alloc::{AllocError, Global};

/// The word of 32 bits that stands for a number in a key: its sign bit is flipped, so that words are ordered as numbers are.
/// Takes no memory.
#[inline(always)]
pub(crate) fn word_of(x: i32) -> u128
    ensures small { result < 2 ^ 32 }
    ensures number { number_of result ≡ x }
{
    (i64::from(x) + 0x8000_0000) as u128
}

// The words of a row, the first the highest.
fn key_of(row: &[i32]) -> u128
    requires { length row.now ≤ 4 }
    ensures room { result < room (length row.now) }
    ensures row { unpacked (length row.now) result ≡ row.now }
{
    let mut key = 0u128;
    for k in 0..row.len() {
        key = key * 0x1_0000_0000 + word_of(row[k]);
    }
    key
}

/// Adds a key, or takes the last away where that is the same. Takes memory only where the list has no room left; the one
/// error is want of memory.
#[inline(always)]
pub(crate) fn put(keys: &mut Vec<u128>, key: u128) -> Result<(), AllocError>
    ensures { OnOk result (IsPut keys.old.items key keys.new.items) }
{
    let count = keys.len();
    if 0 < count && keys[count - 1] == key {
        keys.truncate(count - 1);
    } else {
        keys.push(key)?;
    }
    Ok(())
}

// The keys of the rows without their first `skip` numbers, where a row that equals the last one that is left takes that away, so that
// few are sorted.
fn lone_keys(
    alloc: Global,
    flat: &[i32],
    width: usize,
    skip: usize,
) -> Result<Vec<u128>, AllocError>
    requires few { width - skip ≤ 4 }
    requires left { skip < width }
    requires narrow { width ≤ 6 }
    requires whole { length flat.now % width ≡ 0 }
    ensures room { IfOk result (λ v. All (λ k. k < room (width - skip)) v.items) }
    ensures lone { IfOk result
        (λ v. AreLone (width - skip) (rows_of flat.now width skip)
        (map (unpacked (width - skip)) v.items)) }
{
    let mut keys: Vec<u128> = Vec::with_capacity(alloc, flat.len() / width)?;
    let mut left = flat;
    while left.len() != 0 {
        let (row, rest) = split_row(left, width, skip);
        put(&mut keys, key_of(row))?;
        left = rest;
    }
    Ok(keys)
}

// The number whose word starts at a bit of the key.
#[inline(always)]
fn number_at(key: u128, bit: u32) -> i32
    requires { bit < 128 }
    ensures { result ≡ number_of (key / 2 ^ bit % 2 ^ 32) }
{
    (((key >> bit) % 0x1_0000_0000) as i64 - 0x8000_0000) as i32
}

// Appends the row of a key.
#[inline(always)]
fn append_row(out: &mut Vec<i32>, key: u128, width: usize) -> Result<(), AllocError>
    requires { width ≤ 4 }
    ensures { OnOk result (out.new.items ≡ out.old.items ++ unpacked width key) }
{
    let row = [
        number_at(key, 96),
        number_at(key, 64),
        number_at(key, 32),
        number_at(key, 0),
    ];
    out.extend_from_slice(&row[4 - width..])?;
    Ok(())
}

// Whether the key at `i` and the next are equal.
#[inline(always)]
fn is_paired(keys: &[u128], i: usize, width: usize) -> bool
    requires within { i < length keys.now }
    requires room { All (λ k. k < room width) keys.now }
    ensures { result ≡ starts_pair (map (unpacked width) (drop i keys.now)) }
{
    i + 1 < keys.len() && keys[i] == keys[i + 1]
}

// Appends the rows of the keys without each pair of equal neighbours. Where the compiler knows `width`, a row is stored
// with no call.
#[inline(always)]
fn append_unpaired_of(out: &mut Vec<i32>, keys: &[u128], width: usize) -> Result<(), AllocError>
    requires narrow { width ≤ 4 }
    requires room { All (λ k. k < room width) keys.now }
    ensures { OnOk result
        (out.new.items ≡ out.old.items ++ flat_of (unpaired (map (unpacked width) keys.now))) }
{
    let mut i = 0;
    while i < keys.len() {
        if is_paired(keys, i, width) {
            i += 2;
        } else {
            append_row(out, keys[i], width)?;
            i += 1;
        }
    }
    Ok(())
}

// Appends those rows. It is compiled apart for each width from 1 to 4, so that no row is copied by a call.
fn append_unpaired(out: &mut Vec<i32>, keys: &[u128], width: usize) -> Result<(), AllocError>
    requires narrow { width ≤ 4 }
    requires room { All (λ k. k < room width) keys.now }
    ensures { OnOk result
        (out.new.items ≡ out.old.items ++ flat_of (unpaired (map (unpacked width) keys.now))) }
{
    match width {
        1 => append_unpaired_of(out, keys, 1),
        2 => append_unpaired_of(out, keys, 2),
        3 => append_unpaired_of(out, keys, 3),
        4 => append_unpaired_of(out, keys, 4),
        _ => append_unpaired_of(out, keys, width),
    }
}

/// The rows of the keys that stand there an odd number of times, ascending. Takes memory for the answer.
pub(crate) fn rows_of_keys(
    alloc: Global,
    mut keys: Vec<u128>,
    width: usize,
) -> Result<Vec<i32>, AllocError>
    requires some { 0 < width }
    requires narrow { width ≤ 4 }
    requires room { All (λ k. k < room width) keys.items }
    ensures whole { IfOk result (λ v. length v.items % width ≡ 0) }
    ensures rows { IfOk result
        (λ v. IsReduced width (map (unpacked width) keys.items) (rows_of v.items width 0)) }
{
    keys.sort_unstable();
    let mut out = Vec::with_capacity(alloc, keys.len().saturating_mul(width))?;
    append_unpaired(&mut out, keys.as_slice(), width)?;
    Ok(out)
}

/// The rows of `flat`, each of `width` numbers, without their first `skip`, which leaves at most four, that occur an odd number of
/// times, ascending: sorted by whole numbers in which a row is packed. Takes memory for 16 bytes a row, and for the answer. The one
/// error is want of memory.
pub fn reduced_by_keys(
    alloc: Global,
    flat: &[i32],
    width: usize,
    skip: usize,
) -> Result<Vec<i32>, AllocError>
    requires few { width - skip ≤ 4 }
    requires left { skip < width }
    requires narrow { width ≤ 6 }
    requires whole { length flat.now % width ≡ 0 }
    ensures whole { IfOk result (λ v. length v.items % (width - skip) ≡ 0) }
    ensures rows { IfOk result
        (λ v. IsReduced (width - skip) (rows_of flat.now width skip)
        (rows_of v.items (width - skip) 0)) }
{
    let keys = lone_keys(alloc, flat, width, skip)?;
    let rows = rows_of_keys(alloc, keys, width - skip)?;
    Ok(rows)
}

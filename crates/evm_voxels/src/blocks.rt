// The extreme vertices of a wide grid, 32 columns at a time.
ghost use Rattle.std.specs.Prelude.{◌≡◌, ℕ, pos, ◌-ℤ◌, ◌+◌, ◌*◌, ◌<◌, ◌≤◌, ◌^◌, ◌++◌, ◌∷◌, [], false, length, map, slice_index, OnOk, IfOk};
ghost use Rattle.evm_rows.specs.Rows.{flat_of};
ghost use Rattle.evm_cells.specs.Limits.{cells_where, limit};
ghost use Rattle.evm_cells.specs.Vertices.{evm};
ghost use Rattle.evm_voxels.specs.Parity.{turns, grid, seam};
ghost use Rattle.evm_voxels.specs.Marks.{bit_on};
ghost use Rattle.evm_voxels.specs.Blocks.{table, line_of, places, planes, columns};
ghost use Rattle.evm_voxels.specs.Grids.{filled_in, filled_flat};

use crate::grid::Grid;
use crate::narrow::append_if;
use std::alloc::{AllocError, Global};

// Appends a word for each point (x, y, z) of a line, whose bit k is the parity at column first + k. The line `last` has the
// differences of the row before, and then those of this row.
fn append_words(
    words: &mut Vec<u32>,
    last: &mut Vec<u32>,
    of: &Grid<'_>,
    first: usize,
    y: usize,
) -> Result<(), AllocError>
    requires first { first ≤ of.now.width }
    requires some { 0 < of.now.width }
    requires long { length last.old.items ≡ of.now.depth + 1 }
    requires last { (k z : ℕ) → k < 32 → z < of.now.depth + 1 → bit_on k (slice_index last.old.items z)
        ≡ seam (filled_in of.now) (pos (first + k)) ((pos y -ℤ pos 1) ∷ pos z ∷ []) }
    ensures words { OnOk result ((k : ℕ) → k < 32 → map (bit_on k) words.new.items
        ≡ map (bit_on k) words.old.items ++ line_of (λ c. turns (filled_in of.now) (pos (first + k) ∷ pos y ∷ c)) (of.now.depth + 1)) }
    ensures long { OnOk result (length last.new.items ≡ of.now.depth + 1) }
    ensures last { OnOk result ((k z : ℕ) → k < 32 → z < of.now.depth + 1 → bit_on k (slice_index last.new.items z)
        ≡ seam (filled_in of.now) (pos (first + k)) (pos y ∷ pos z ∷ [])) }
{
    let mut before = 0u32;
    for z in 0..of.depth + 1 {
        let now = of.seams(first, y, z);
        let edge = last[z] ^ now;
        words.push(before ^ edge)?;
        last[z] = now;
        before = edge;
    }
    Ok(())
}

// The words of all lines of 32 columns. The line `last` has no bit before and after.
fn fill_block(
    words: &mut Vec<u32>,
    last: &mut Vec<u32>,
    of: &Grid<'_>,
    first: usize,
) -> Result<(), AllocError>
    requires first { first ≤ of.now.width }
    requires some { 0 < of.now.width }
    requires long { length last.old.items ≡ of.now.depth + 1 }
    requires clear { (k z : ℕ) → k < 32 → z < of.now.depth + 1
        → bit_on k (slice_index last.old.items z) ≡ false }
    ensures words { OnOk result ((k : ℕ) → k < 32 → map (bit_on k) words.new.items
        ≡ table (of.now.height ∷ of.now.depth ∷ []) (λ c. turns (filled_in of.now) (pos (first + k) ∷ c))) }
    ensures long { OnOk result (length last.new.items ≡ of.now.depth + 1) }
    ensures clear { OnOk result ((k z : ℕ) → k < 32 → z < of.now.depth + 1
        → bit_on k (slice_index last.new.items z) ≡ false) }
{
    words.clear();
    for y in 0..of.height + 1 {
        append_words(words, last, of, first, y)?;
    }
    Ok(())
}

// Appends, for each word whose bit `column` is set, the head and the word's number.
fn append_bits(
    out: &mut Vec<i32>,
    head: &[i32],
    words: &[u32],
    column: u32,
) -> Result<(), AllocError>
    requires column { column < 32 }
    requires few { length words.now ≤ 2 ^ 30 + 1 }
    ensures { OnOk result (out.new.items
        ≡ out.old.items ++ flat_of (map
        (λ t. head.now ++ t) (places (map (bit_on column) words.now) 0))) }
{
    for (z, word) in words.iter().enumerate() {
        append_if(out, head, z, (*word >> column) & 1 == 1)?;
    }
    Ok(())
}

// Appends the rows of column x, of `count` lines of words.
fn append_plane(
    out: &mut Vec<i32>,
    x: usize,
    words: &[u32],
    line: usize,
    count: usize,
    column: u32,
) -> Result<(), AllocError>
    requires column { column < 32 }
    requires place { x ≤ 2 ^ 30 }
    requires short { line ≤ 2 ^ 30 + 1 }
    requires few { count ≤ 2 ^ 30 + 1 }
    requires whole { length words.now ≡ count * line }
    ensures { OnOk result (out.new.items ≡ out.old.items
        ++ flat_of (map (λ t. pos x ∷ t) (planes line count 0 (map (bit_on column) words.now)))) }
{
    let mut rest = words;
    let mut left = count;
    let mut y = 0usize;
    while left > 0 {
        let (front, later) = rest.split_at(line);
        let head = [x as i32, y as i32];
        append_bits(out, &head, front, column)?;
        rest = later;
        left -= 1;
        y += 1;
    }
    Ok(())
}

// Appends the rows of `count` columns from `first` on, of which these are the words.
fn append_block(
    out: &mut Vec<i32>,
    words: &[u32],
    of: &Grid<'_>,
    first: usize,
    count: usize,
) -> Result<(), AllocError>
    requires few { count ≤ 32 }
    requires within { first + count ≤ of.now.width + 1 }
    requires words { (k : ℕ) → k < 32 → map (bit_on k) words.now
        ≡ table (of.now.height ∷ of.now.depth ∷ []) (λ c. turns (filled_in of.now) (pos (first + k) ∷ c)) }
    ensures { OnOk result (out.old.items ≡ columns (of.now.height ∷ of.now.depth ∷ []) (turns (filled_in of.now)) first
        → out.new.items ≡ columns (of.now.height ∷ of.now.depth ∷ []) (turns (filled_in of.now)) (first + count)) }
{
    for k in 0..count {
        append_plane(out, first + k, words, of.depth + 1, of.height + 1, k as u32)?;
    }
    Ok(())
}

/// The coordinates of the extreme vertices of the filled places of a grid, ascending. Takes memory for one word of 32 bits
/// for each row and image of the grid's points, and for a line of them.
pub fn wide_vertices(alloc: Global, of: &Grid<'_>) -> Result<Vec<i32>, AllocError>
    requires some { 0 < of.now.width }
    requires width { of.now.width ≤ limit 3 }
    requires height { of.now.height ≤ limit 3 }
    requires depth { of.now.depth ≤ limit 3 }
    ensures { IfOk result (λ v. v.items ≡ flat_of (evm 3 (cells_where 3 (filled_in of.now)))) }
{
    let mut out = Vec::new(alloc);
    let mut words = Vec::with_capacity(alloc, (of.height + 1) * (of.depth + 1))?;
    let mut last = vec![in alloc; 0u32; of.depth + 1]?;
    let mut first = 0;
    while first <= of.width {
        fill_block(&mut words, &mut last, of, first)?;
        let count = (of.width + 1 - first).min(32);
        append_block(&mut out, &words, of, first, count)?;
        first += count;
    }
    Ok(out)
}

// Appends the rows of `count` columns of an image from `first` on, of which these are the words.
fn append_columns(
    out: &mut Vec<i32>,
    words: &[u32],
    of: &Grid<'_>,
    first: usize,
    count: usize,
) -> Result<(), AllocError>
    requires few { count ≤ 32 }
    requires within { first + count ≤ of.now.width + 1 }
    requires one { of.now.height ≡ 1 }
    requires long { length words.now ≡ of.now.depth + 1 }
    requires words { (k : ℕ) → k < 32 → map (bit_on k) words.now
        ≡ table (of.now.depth ∷ []) (λ c. turns (filled_in of.now) (pos (first + k) ∷ pos 0 ∷ c)) }
    ensures { OnOk result (out.old.items ≡ columns (of.now.depth ∷ []) (turns (filled_flat of.now)) first
        → out.new.items ≡ columns (of.now.depth ∷ []) (turns (filled_flat of.now)) (first + count)) }
{
    for k in 0..count {
        let head = [(first + k) as i32];
        append_bits(out, &head, words, k as u32)?;
    }
    Ok(())
}

/// The same of one image, whose rows are the images of a grid of height 1. Takes memory for two words of 32 bits for each
/// row of the grid's points, and for one more. The one error is want of memory.
pub fn wide_image(alloc: Global, of: &Grid<'_>) -> Result<Vec<i32>, AllocError>
    requires some { 0 < of.now.width }
    requires width { of.now.width ≤ limit 2 }
    requires height { of.now.height ≡ 1 }
    requires depth { of.now.depth ≤ limit 2 }
    ensures { IfOk result (λ v. v.items ≡ flat_of (evm 2 (cells_where 2 (filled_flat of.now)))) }
{
    let line = of.depth + 1;
    let mut out = Vec::new(alloc);
    let mut words = Vec::with_capacity(alloc, 2 * line)?;
    let mut last = vec![in alloc; 0u32; line]?;
    let mut first = 0;
    while first <= of.width {
        fill_block(&mut words, &mut last, of, first)?;
        let count = (of.width + 1 - first).min(32);
        let (row, _) = words.split_at(line);
        append_columns(&mut out, row, of, first, count)?;
        first += count;
    }
    Ok(out)
}

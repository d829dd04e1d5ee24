//! Lines: views of dimension 1 as ascending numbers, walked along, and changed.
//!
//! Of a change only the span is looked at: the numbers of a line below it are skipped by a search, and copied as one.
ghost use Rattle.std.specs.Prelude.{◌≡◌, ◌++◌, ◌<◌, ◌≤◌, ◌-◌, ◌%◌, ◌-ℤ◌, ◌&&◌, IsTrue, int_le, int_lt, length, take, drop, unsigned_abs, IfOk, OnOk, false, if◌then◌else◌};
ghost use Rattle.std.specs.List.{list_all};
ghost use Rattle.evm_cells.specs.Measures.{content};
ghost use Rattle.evm_cells.specs.Vertices.{cells, odd};
ghost use Rattle.evm_rows.specs.Rows.{AreRows, rows_of};
ghost use Rattle.evm_rows.specs.View.{vertices_of};
ghost use Rattle.evm_sections.specs.Lines.{firsts, head_of, least, if_any, passed, changed_line, shared_length, IsLine};

use crate::walk::first_of;
use evm_rows::{NoMemory, Rows, append_rows, split_row};
use std::alloc::AllocError;
use std::marker::Model;

/// A line that is walked along, from its lowest number up. Its meaning is the numbers that are left, and whether the
/// place before them is filled. It borrows the numbers, and holds no memory of its own.
#[derive(Drop)]
pub struct Line<'a> {
    flat: &'a [i32],
    width: usize,
    skip: usize,
    on: bool,
}

/// A line after a change, with two lengths.
#[derive(Drop)]
pub struct LineAfter {
    /// The numbers of the line, ascending.
    pub line: Vec<i32>,
    /// The length of the change: how many places it fills. At most `2^31`.
    pub across: u64,
    /// The length of what the change shares with the line before it.
    pub shared: u64,
}

impl<'a> Model for Line<'a> {
    ghost use Rattle.evm_rows.specs.Rows.{rows_of};
    ghost use Rattle.evm_sections.specs.Lines.{LineRest, IsLine, firsts};

    ghost Value = { LineRest };

    ghost view = { λ l. record { left = firsts (rows_of l.flat.now l.width l.skip); on = l.on } };

    ghost invariant = { λ l. IsLine l.flat.now l.width l.skip };
}

impl<'a> Line<'a> {
    /// The numbers of a line from the place `from` on, counted from 0; those before it were passed. Takes no memory.
    pub fn of(numbers: &'a [i32], from: usize) -> Line<'a>
        requires { from ≤ length numbers.now }
        ensures left { result.left ≡ drop from numbers.now }
        ensures on { result.on ≡ odd from }
    {
        let (_, flat) = numbers.split_at(from);
        Line {
            flat,
            width: 1,
            skip: 0,
            on: from % 2 == 1,
        }
    }

    /// All numbers of a view of dimension 1. Takes no memory.
    pub fn of_rows(a: Rows<'a>) -> Line<'a>
        requires { (vertices_of a).dim ≡ 1 }
        ensures left { result.left ≡ firsts (vertices_of a.entry).rows }
        ensures on { result.on ≡ false }
    {
        Line {
            flat: a.flat,
            width: a.width,
            skip: a.skip,
            on: false,
        }
    }

    /// Whether the place before the numbers that are left is filled: whether an odd number of them was passed. Takes no
    /// memory.
    pub fn on(&self) -> bool
        ensures { result ≡ self.now.on }
    {
        self.on
    }

    /// The next number, or `None` where all were passed. Takes no memory.
    #[inline(always)]
    pub fn head(&self) -> Option<i32>
        ensures { result ≡ head_of self.now.left }
    {
        if self.flat.len() == 0 {
            return None;
        }
        let (row, _) = split_row(self.flat, self.width, self.skip);
        Some(first_of(row))
    }

    /// Goes past the height, if it is the next number; else the line stays. Takes no memory.
    #[inline(always)]
    pub fn pass(&mut self, height: i32)
        ensures { self.new ≡ passed height self.old }
    {
        if self.flat.len() == 0 {
            return;
        }
        let (row, rest) = split_row(self.flat, self.width, self.skip);
        if first_of(row) == height {
            self.flat = rest;
            self.on = !self.on;
        }
    }

    /// Appends the numbers that are left to `out`, as one where nothing stands between them. Takes memory only where `out`
    /// has no room left. `NoMemory` is want of memory, and `out` is gone then.
    #[inline(always)]
    pub fn append_left(&self, out: Vec<i32>) -> Result<Vec<i32>, NoMemory>
        ensures { IfOk result (λ v. v.items ≡ out.items ++ self.now.left) }
    {
        if self.width == 1 {
            let mut grown = out;
            grown.extend_from_slice(self.flat)?;
            return Ok(grown);
        }
        let grown = append_rows(out, self.flat, self.width, self.skip)?;
        Ok(grown)
    }
}

/// The lower of two numbers, of which the second may be missing. Takes no memory.
#[inline(always)]
pub fn least(x: i32, y: Option<i32>) -> i32
    ensures { result ≡ least x y }
{
    match y {
        None => x,
        Some(other) => { if other < x { other } else { x } }
    }
}

/// The place, counted from 0, of the first of ascending numbers that is not below `low`; their count where all are. Found
/// by halving. Takes no memory.
pub fn first_from(numbers: &[i32], low: i32) -> usize
    requires { AreRows numbers.now 1 0 }
    ensures within { result ≤ length numbers.now }
    ensures below { IsTrue (list_all (λ y. int_lt y low) (take result numbers.now)) }
    ensures from { IsTrue (list_all (int_le low) (drop result numbers.now)) }
{
    let mut from = 0usize;
    let mut to = numbers.len();
    while from < to {
        let middle = from + (to - from) / 2;
        if numbers[middle] < low {
            from = middle + 1;
        } else {
            to = middle;
        }
    }
    from
}

// Appends the number, if `yes`.
#[inline(always)]
fn append_number(out: &mut Vec<i32>, at: i32, yes: bool) -> Result<(), AllocError>
    ensures { OnOk result (out.new.items ≡ out.old.items ++ if_any yes at) }
{
    if yes {
        out.push(at)?;
    }
    Ok(())
}

/// How far two heights are apart, `low` the lower, if a run is between them; else 0. Takes no memory.
#[inline(always)]
pub fn counted(on: bool, low: i32, high: i32) -> u64
    ensures { result ≡ (if on then unsigned_abs (high -ℤ low) else 0) }
{
    if on { u64::from(high.abs_diff(low)) } else { 0 }
}

// How far the heights are apart, if both lines have a run between them.
#[inline(always)]
fn counted_in_both(in_a: bool, in_c: bool, low: i32, high: i32) -> u64
    ensures { result ≡ (if (in_a && in_c) then unsigned_abs (high -ℤ low) else 0) }
{
    if in_a { counted(in_c, low, high) } else { 0 }
}

/// The line after a change, in the room of a list that is done with, with the length of the change and of what the change
/// shares with the line before. What `room` holds does not matter.
///
/// The numbers of the line below the change are copied as one, those above it too: the walk is only along the span of the
/// change. Takes memory only where the room is too small. `NoMemory` is want of memory, and the room is gone then.
#[inline(always)]
pub fn changed(room: Vec<i32>, line: &[i32], change: Rows<'_>) -> Result<LineAfter, NoMemory>
    requires line { AreRows line.now 1 0 }
    requires change { (vertices_of change).dim ≡ 1 }
    ensures are_rows { IfOk result (λ p. AreRows p.line.items 1 0) }
    ensures rows { IfOk result
        (λ p. rows_of p.line.items 1 0 ≡ changed_line line.now change.entry) }
    ensures across { IfOk result
        (λ p. p.across ≡ content (cells 1 (vertices_of change.entry).rows)) }
    ensures shared { IfOk result (λ p. p.shared ≡ shared_length line.now change.entry) }
{
    let mut c = Line::of_rows(change);
    let low = c.head().unwrap_or(0);
    let from = first_from(line, low);
    let (front, _) = line.split_at(from);
    let mut out = room;
    out.clear();
    out.extend_from_slice(front)?;
    let mut a = Line::of(line, from);
    let mut level = low;
    let mut across = 0u64;
    let mut shared = 0u64;
    while let Some(next) = c.head() {
        let at = least(next, a.head());
        let in_a = a.on();
        let in_c = c.on();
        across += counted(in_c, level, at);
        shared += counted_in_both(in_a, in_c, level, at);
        a.pass(at);
        c.pass(at);
        let before = in_a != in_c;
        let after = a.on() != c.on();
        append_number(&mut out, at, before != after)?;
        level = at;
    }
    let line = a.append_left(out)?;
    Ok(LineAfter {
        line,
        across,
        shared,
    })
}

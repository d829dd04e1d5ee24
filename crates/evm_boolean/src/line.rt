// Vertices of dimension 1: the couplet that a Boolean of two lines gains.
//
// It looks only at the span of the changes: the numbers of a line below it are skipped by a search, those above it are not read.
ghost use Rattle.std.specs.Prelude.{◌≡◌, ◌++◌, OnOk, Some};
ghost use Rattle.evm_rows.specs.Rows.{AreRows, rows_of, flat_of, xor_rows, combined_rows, raised};
ghost use Rattle.evm_rows.specs.View.{vertices_of};
ghost use Rattle.evm_sections.specs.Lines.{ones, if_any};
ghost use Rattle.evm_boolean.specs.Tower.{fills, gain};

use crate::boolean::{Op2, lower_of};
use evm_rows::Rows;
use evm_sections::{Line, first_from, least};
use std::alloc::AllocError;

// Whether the Boolean of two operands changes, by whether each is filled and whether each changes.
#[inline(always)]
fn gain(op: Op2, a: bool, b: bool, change_a: bool, change_b: bool) -> bool
    ensures { result ≡ gain (fills op) a b change_a change_b }
{
    op.fills(a, b) != op.fills(a != change_a, b != change_b)
}

// Appends the height and the number, if `yes`.
#[inline(always)]
fn append_point(out: &mut Vec<i32>, height: i32, at: i32, yes: bool) -> Result<(), AllocError>
    ensures { OnOk result
        (out.new.items ≡ out.old.items ++ flat_of (raised (Some height) (ones (if_any yes at)))) }
{
    if yes {
        out.push(height)?;
        out.push(at)?;
    }
    Ok(())
}

/// Appends the rows, at a height, at which the Boolean of two lines changes where the lines change.
#[inline(always)]
pub fn append_gain(
    out: &mut Vec<i32>,
    op: Op2,
    height: i32,
    line_a: &[i32],
    line_b: &[i32],
    change_a: Rows<'_>,
    change_b: Rows<'_>,
) -> Result<(), AllocError>
    requires line_a { AreRows line_a.now 1 0 }
    requires line_b { AreRows line_b.now 1 0 }
    requires change_a { (vertices_of change_a).dim ≡ 1 }
    requires change_b { (vertices_of change_b).dim ≡ 1 }
    ensures { OnOk result
        (out.new.items ≡ out.old.items
        ++ flat_of (raised (Some height)
        (xor_rows 1 (combined_rows (fills op) 1 (rows_of line_a.now 1 0) (rows_of line_b.now 1 0))
        (combined_rows (fills op) 1
        (xor_rows 1 (rows_of line_a.now 1 0) (vertices_of change_a.entry).rows)
        (xor_rows 1 (rows_of line_b.now 1 0) (vertices_of change_b.entry).rows))))) }
{
    let mut c = Line::of_rows(change_a);
    let mut d = Line::of_rows(change_b);
    let low = lower_of(c.head(), d.head()).unwrap_or(0);
    let mut a = Line::of(line_a, first_from(line_a, low));
    let mut b = Line::of(line_b, first_from(line_b, low));
    let mut on = false;
    while let Some(next) = lower_of(c.head(), d.head()) {
        let at = least(least(next, a.head()), b.head());
        a.pass(at);
        b.pass(at);
        c.pass(at);
        d.pass(at);
        let after = gain(op, a.on(), b.on(), c.on(), d.on());
        append_point(out, height, at, on != after)?;
        on = after;
    }
    Ok(())
}

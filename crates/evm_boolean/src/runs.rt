// Booleans of views of dimension 1.
ghost use Rattle.std.specs.Prelude.{◌≡◌, ◌++◌, Bool, IfOk, OnOk, Some};
ghost use Rattle.evm_cells.specs.Booleans.{xor};
ghost use Rattle.evm_rows.specs.Rows.{flat_of, combined_rows, raised};
ghost use Rattle.evm_rows.specs.View.{vertices_of};
ghost use Rattle.evm_sections.specs.Couplets.{AreSingle};
ghost use Rattle.evm_boolean.specs.Tower.{after, section_at, fills};
ghost use Rattle.evm_sections.specs.Couplets.{mark};

use crate::boolean::{Op2, lower_of};
use evm_rows::{NoMemory, Rows, Solid};
use evm_sections::marks::Marks;
use std::alloc::AllocError;

// The other value, if `yes`.
fn flip(on: bool, yes: bool) -> bool
    ensures { result ≡ xor on yes }
{
    on != yes
}

// Whether a run begins or ends at the height. If so, the walk goes on.
fn passes(walk: &mut Marks<'_>, height: i32) -> bool
    requires { AreSingle walk.old }
    ensures left { walk.new ≡ after height walk.old }
    ensures single { AreSingle walk.new }
    ensures flips { (on : Bool) → section_at 0 height (mark on) walk.old ≡ mark (xor on result) }
{
    match walk.height() {
        None => false,
        Some(next) => {
            if next != height {
                return false;
            }
            walk.step();
            true
        }
    }
}

// Appends the height, if `yes`.
fn append_mark(out: &mut Vec<i32>, height: i32, yes: bool) -> Result<(), AllocError>
    ensures { OnOk result
        (out.new.items ≡ out.old.items ++ flat_of (raised (Some height) (mark yes))) }
{
    if yes {
        out.push(height)?;
    }
    Ok(())
}

/// The Boolean of two views of dimension 1.
pub fn combine_runs(op: Op2, a: Rows<'_>, b: Rows<'_>, room: Solid) -> Result<Solid, NoMemory>
    requires left { (vertices_of a).dim ≡ 1 }
    requires right { (vertices_of b).dim ≡ 1 }
    ensures dim { IfOk result (λ s. s.dim ≡ 1) }
    ensures rows { IfOk result
        (λ s. s.rows ≡ combined_rows (fills op) 1 (vertices_of a.entry).rows
        (vertices_of b.entry).rows) }
{
    let mut left = Marks::of(a);
    let mut right = Marks::of(b);
    let mut on_a = false;
    let mut on_b = false;
    let mut below = false;
    let mut out = room.into_flat();
    out.clear();
    while let Some(height) = lower_of(left.height(), right.height()) {
        let at_a = passes(&mut left, height);
        let at_b = passes(&mut right, height);
        on_a = flip(on_a, at_a);
        on_b = flip(on_b, at_b);
        let above = op.fills(on_a, on_b);
        let change = flip(below, above);
        append_mark(&mut out, height, change)?;
        below = above;
    }
    Ok(Solid::from_rows(1, out))
}

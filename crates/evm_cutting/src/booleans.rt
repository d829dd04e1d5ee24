//! Booleans of two solids, by what both have on the two sides of planes.

ghost use Rattle.std.specs.Prelude.{◌≡◌, IfOk, IfSome};
ghost use Rattle.evm_rows.specs.View.{vertices_of};
ghost use Rattle.evm_cutting.specs.Booleans.{combined, HasCombined};
ghost use Rattle.evm_cutting.specs.Splits.{AreSplit};

use crate::dense::{is_dense, shows_dense};
use crate::halves::{Split, cut_at};
use crate::middles::inner_plane;
use crate::sweeps::sweep;
use evm_boolean::Op2;
use evm_rows::{NoMemory, Rows, Solid, xor};
use std::alloc::Global;

/// How often operands are cut at most.
const DEEP: usize = 64;

/// How many rows two operands have together at most where no cut is tried (measured).
fn few_rows(dim: usize) -> usize {
    match dim {
        0 | 1 => usize::MAX,
        2 => 65_536,
        3 => 512,
        4 => 2048,
        5 => 8192,
        _ => 16_384,
    }
}

/// The Boolean `op` of two views of one dimension: the same as [`evm_boolean::combine`], in less time where the operands are large and
/// wide.
///
/// Where the operands have many rows, a plane cuts both, the parts on each side of it are combined by themselves, and the two answers,
/// which share no cell, are put together by one exclusive or. A plane is taken if it leaves to each side at most seven of eight rows,
/// and all four parts have at most half as many rows again as the operands. Few rows, and rows that no plane divides so, are combined by
/// a walk over couplets that looks only near each; few heights with many rows, as in scans, by the recursion over sections.
///
/// It takes memory for the parts of operands that wait, commonly about two times the operands, for a finished answer of each side that
/// waits for the other, and for what [`evm_boolean::combine`] takes. The one error is want of memory.
pub fn combine(alloc: Global, op: Op2, a: Rows<'_>, b: Rows<'_>) -> Result<Solid, NoMemory>
    requires { (vertices_of a).dim ≡ (vertices_of b).dim }
    ensures dim { IfOk result (λ s. s.dim ≡ (vertices_of a.entry).dim) }
    ensures rows { IfOk result
        (λ s. s.rows ≡ combined op (vertices_of a.entry) (vertices_of b.entry)) }
    ensures cells { IfOk result
        (λ s. HasCombined op (vertices_of a.entry) (vertices_of b.entry) s) }
{
    if is_dense(a, b) {
        return evm_boolean::combine(alloc, op, a, b);
    }
    let few = few_rows(a.dim());
    let solid = combine_parts(alloc, op, a, b, few, 0, DEEP)?;
    Ok(solid)
}

/// The Boolean of two views, which are cut where they have more than `few` rows together, and at most `fuel` times one in the other.
/// The axis that is tried first is `first`.
pub(crate) fn combine_parts(
    alloc: Global,
    op: Op2,
    a: Rows<'_>,
    b: Rows<'_>,
    few: usize,
    first: usize,
    fuel: usize,
) -> Result<Solid, NoMemory>
    requires { (vertices_of a).dim ≡ (vertices_of b).dim }
    ensures dim { IfOk result (λ s. s.dim ≡ (vertices_of a.entry).dim) }
    ensures rows { IfOk result
        (λ s. s.rows ≡ combined op (vertices_of a.entry) (vertices_of b.entry)) }
    ensures cells { IfOk result
        (λ s. HasCombined op (vertices_of a.entry) (vertices_of b.entry) s) }
{
    let count = a.len().saturating_add(b.len());
    if fuel == 0 || a.len() == 0 || b.len() == 0 || count <= few {
        return sweep(alloc, op, a, b);
    }
    let cuts = divided(alloc, a, b, first)?;
    match cuts {
        // Whole operands in space that no plane serves are mostly scans.
        None if first == 0 && a.dim() <= 3 => evm_boolean::combine(alloc, op, a, b),
        None => sweep(alloc, op, a, b),
        Some(pair) => {
            let next = pair.left.axis + 1;
            let low = combine_parts(
                alloc,
                op,
                pair.left.low.rows(),
                pair.right.low.rows(),
                few,
                next,
                fuel - 1,
            )?;
            let high = combine_parts(
                alloc,
                op,
                pair.left.high.rows(),
                pair.right.high.rows(),
                few,
                next,
                fuel - 1,
            )?;
            let both = xor(alloc, low.rows(), high.rows())?;
            Ok(both)
        }
    }
}

/// Two solids, cut by one plane.
#[derive(Drop)]
pub(crate) struct Pair {
    /// The first solid.
    pub left: Split,
    /// The second.
    pub right: Split,
}

/// Two solids cut by a plane across some axis, the first that pays from `first` on, if one was found. Only the whole operands are cut
/// with `first` 0, and then none is answered where the cut shows that their sections change fast.
fn divided(alloc: Global, a: Rows<'_>, b: Rows<'_>, first: usize) -> Result<Option<Pair>, NoMemory>
    requires { (vertices_of a).dim ≡ (vertices_of b).dim }
    ensures { IfOk result
        (λ o. IfSome o (AreSplit (vertices_of a.entry) (vertices_of b.entry))) }
{
    let dim = a.dim();
    for turn in 0..dim {
        let axis = (first % dim + turn) % dim;
        let plane = inner_plane(alloc, a, b, axis)?;
        if let Some(at) = plane {
            let left = cut_at(alloc, a, axis, at)?;
            let right = cut_at(alloc, b, axis, at)?;
            if first == 0 && axis == 0 && shows_dense(a, b, &left, &right) {
                return Ok(None);
            }
            if pays(&left, &right, a.len().saturating_add(b.len())) {
                return Ok(Some(Pair { left, right }));
            }
        }
    }
    Ok(None)
}

/// Whether a cut of two solids pays, which have `count` rows together: a choice of speed alone.
fn pays(left: &Split, right: &Split, count: usize) -> bool {
    let low = left.low.len().saturating_add(right.low.len());
    let high = left.high.len().saturating_add(right.high.len());
    let most = count - count / 8;
    low <= most && high <= most && low.saturating_add(high) <= count.saturating_add(count / 2)
}

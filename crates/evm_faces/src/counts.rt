// How much rises and how much falls at each cut of an axis.
ghost use Rattle.std.specs.Prelude.{◌≡◌, ◌<◌, ◌≤◌, IfOk};
ghost use Rattle.evm_rows.specs.View.{vertices_of};
ghost use Rattle.evm_faces.specs.Counts.{faces_between, faces_by_cut};

use evm_boolean::sub;
use evm_measure::content;
use evm_rows::{NoMemory, Rows, Solid, xor};
use evm_sections::Walk;
use evm_shapes::fronted;
use std::alloc::Global;

/// The faces at a cut: its height, how many unit faces rise there, and how many fall. So the solid has as many cells just
/// above the height that are not just below it, and just below it that are not just above.
#[derive(Clone, Copy, Debug, PartialEq, Eq, Drop)]
pub struct CutFaces {
    pub at: i32,
    pub rises: u128,
    pub falls: u128,
}

// The faces between the sections just below and just above a height.
fn between(alloc: Global, at: i32, below: Rows<'_>, above: Rows<'_>) -> Result<CutFaces, NoMemory>
    requires { (vertices_of below).dim ≡ (vertices_of above).dim }
    ensures { IfOk result
        (λ f. f ≡ faces_between (vertices_of below.entry).dim at
        (vertices_of below.entry).rows (vertices_of above.entry).rows) }
{
    let rising = sub(alloc, above, below)?;
    let rises = content(alloc, rising.rows())?;
    let falling = sub(alloc, below, above)?;
    let falls = content(alloc, falling.rows())?;
    Ok(CutFaces { at, rises, falls })
}

// The faces at each cut of the first axis.
fn along_first(alloc: Global, a: Rows<'_>) -> Result<Vec<CutFaces>, NoMemory>
    requires { 2 ≤ (vertices_of a).dim }
    ensures { IfOk result (λ v. v.items ≡ faces_by_cut 1 (vertices_of a.entry)) }
{
    let mut out = Vec::new(alloc);
    let mut walk = Walk::of(a);
    let mut below = Solid::empty(alloc, a.dim() - 1);
    while let Some((at, couplet)) = walk.next_couplet() {
        let above = xor(alloc, below.rows(), couplet)?;
        let faces = between(alloc, at, below.rows(), above.rows())?;
        out.push(faces)?;
        below = above;
    }
    Ok(out)
}

/// The faces at each cut of an axis, counted from 1, ascending: how many cells rise there and how many fall. The axis is put
/// first, by one sort, and one walk over the couplets counts what rises and falls at each, as [`rising`](crate::rising) and
/// [`falling`](crate::falling) have it. Takes memory for the rows twice, for a reference a row while they are sorted, for two
/// sections and what differs between them, and for the answer. The one error is want of memory.
pub fn cut_faces(alloc: Global, a: Rows<'_>, axis: usize) -> Result<Vec<CutFaces>, NoMemory>
    requires deep { 2 ≤ (vertices_of a).dim }
    requires low { 0 < axis }
    requires high { axis ≤ (vertices_of a).dim }
    ensures { IfOk result (λ v. v.items ≡ faces_by_cut axis (vertices_of a.entry)) }
{
    if axis == 1 {
        return along_first(alloc, a);
    }
    let turned = fronted(alloc, a, axis)?;
    along_first(alloc, turned.rows())
}

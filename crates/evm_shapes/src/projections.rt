// Projections.
ghost use Rattle.std.specs.Prelude.{◌≡◌, ◌-◌, ◌<◌, ◌≤◌, length, take, drop, IfOk, OnOk};
ghost use Rattle.evm_cells.specs.Vertices.{evm};
ghost use Rattle.evm_rows.specs.Rows.{cells_of};
ghost use Rattle.evm_rows.specs.View.{vertices_of};
ghost use Rattle.evm_sections.specs.Couplets.{couplets_of};
ghost use Rattle.evm_shapes.specs.Shapes.{projected_cells};
ghost use Rattle.evm_shapes.specs.Unions.{united, sections_of};

use crate::turns::fronted;
use evm_boolean::or;
use evm_rows::{NoMemory, Rows, Solid, own};
use evm_sections::{Sweep, Walk};
use std::alloc::Global;

// The number of couplets.
fn count_couplets(a: Rows<'_>) -> usize
    requires { 1 < (vertices_of a).dim }
    ensures { result ≡ length (couplets_of (vertices_of a.entry).rows) }
{
    let mut walk = Walk::of(a);
    let mut count = 0;
    while walk.next_couplet().is_some() {
        count += 1;
    }
    count
}

// The union of the sections of the next `count` slabs: that of the first half of them, and that of the other half.
fn unite(alloc: Global, sweep: &mut Sweep<'_>, count: usize) -> Result<Solid, NoMemory>
    requires some { 0 < count }
    requires within { count ≤ length sweep.old.left }
    ensures same_dim { sweep.new.dim ≡ sweep.old.dim }
    ensures left { OnOk result (sweep.new.left ≡ drop count sweep.old.left) }
    ensures dim { IfOk result (λ s. s.dim ≡ sweep.old.dim) }
    ensures rows { IfOk result
        (λ s. s.rows ≡ united sweep.old.dim (sections_of (take count sweep.old.left))) }
{
    if count == 1 {
        sweep.advance(alloc)?;
        let section = own(alloc, sweep.section())?;
        return Ok(section);
    }
    let half = count / 2;
    let low = unite(alloc, sweep, half)?;
    let high = unite(alloc, sweep, count - half)?;
    let all = or(alloc, low.rows(), high.rows())?;
    Ok(all)
}

/// The projection along an axis, counted from 1: each cell without its coordinate there, once. It is the union of all
/// sections along the axis. The axis is put first, by one sort, and the sections of the slabs are united half by half,
/// so that small unions are made of small ones. Takes memory for the rows twice, for a reference a row while they are
/// sorted, and for the unions of one branch of the halving.
pub fn project(alloc: Global, a: Rows<'_>, axis: usize) -> Result<Solid, NoMemory>
    requires deep { 2 ≤ (vertices_of a).dim }
    requires low { 0 < axis }
    requires high { axis ≤ (vertices_of a).dim }
    ensures dim { IfOk result (λ s. s.dim ≡ (vertices_of a.entry).dim - 1) }
    ensures rows { IfOk result
        (λ s. s.rows ≡ evm ((vertices_of a.entry).dim - 1)
        (projected_cells axis (vertices_of a.entry))) }
    ensures cells { IfOk result (λ s. cells_of s ≡ projected_cells axis (vertices_of a.entry)) }
{
    let turned = fronted(alloc, a, axis)?;
    let couplets = count_couplets(turned.rows());
    if couplets < 2 {
        return Ok(Solid::empty(alloc, a.dim() - 1));
    }
    let mut sweep = Sweep::start(alloc, turned.rows());
    let shadow = unite(alloc, &mut sweep, couplets - 1)?;
    Ok(shadow)
}

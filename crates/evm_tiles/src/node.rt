//! Nodes of a tree of tiles.

ghost use Rattle.evm_cells.specs.Windows.{is_under, is_over};
ghost use Rattle.std.specs.Prelude.{◌≡◌, ◌<◌, ◌≤◌, ◌+◌, suc, true, length, IfOk, IfSome};
ghost use Rattle.std.specs.List.{list_all};
ghost use Rattle.evm_cells.specs.Boxes.{is_box};
ghost use Rattle.evm_cells.specs.Measures.{content};
ghost use Rattle.evm_rows.specs.Rows.{cells_of};
ghost use Rattle.evm_rows.specs.View.{vertices_of};
ghost use Rattle.evm_tiles.specs.Trees.{node_cells, node_window, node_count, is_well, IsBoth, IsChanged, IsOne};
ghost use Rattle.evm_cutting.specs.Cuts.{IsBetween, cells_under, cells_over};
ghost use Rattle.evm_tiles.specs.Splits.{IsApart};

use crate::solids::{Side, both, side_of};
use evm_cutting::{content, cut_at, halved};
use evm_rows::{NoMemory, Rows, Solid, limit};
use evm_shapes::clip;
use std::alloc::Global;
use std::rc::Rc;

/// How many rows a leaf has at most where an edit met it, if it can be cut.
const LEAF: usize = 128;

/// How often a leaf is cut again at most.
pub(crate) const DEEP: usize = 64;

/// A tile: a leaf with the part of the solid inside it, or a cut of it in two.
#[derive(Drop)]
pub(crate) enum Node {
    /// The part inside, and how many rows it may have before the tile is cut.
    Leaf {
        solid: Solid,
        most: usize,
    },
    /// The axis, counted from 0, the height on it, what is below that and what is above.
    Cut {
        axis: usize,
        at: i32,
        low: Rc<Node>,
        high: Rc<Node>,
    },
}

impl Node {
    /// All cells.
    pub(crate) fn whole(&self, alloc: Global, _dim: usize) -> Result<Solid, NoMemory>
        requires { is_well _dim self.now ≡ true }
        ensures dim { IfOk result (λ s. s.dim ≡ _dim) }
        ensures cells { IfOk result (λ s. cells_of s ≡ node_cells _dim self.now) }
    {
        match self {
            Node::Leaf { solid, .. } => {
                let made = solid.copy(alloc)?;
                Ok(made)
            }
            Node::Cut { low, high, .. } => {
                let below = low.whole(alloc, _dim)?;
                let above = high.whole(alloc, _dim)?;
                let made = both(alloc, &below, &above)?;
                Ok(made)
            }
        }
    }

    /// How many cells there are: those of the leaves, since no cell is in two of them.
    pub(crate) fn content(&self, alloc: Global, _dim: usize) -> Result<u128, NoMemory>
        requires high { _dim ≤ 6 }
        requires well { is_well _dim self.now ≡ true }
        ensures { IfOk result (λ n. n ≡ content (node_cells _dim self.now)) }
    {
        match self {
            Node::Leaf { solid, .. } => content(alloc, solid.rows()),
            Node::Cut { low, high, .. } => {
                let below = low.content(alloc, _dim)?;
                let above = high.content(alloc, _dim)?;
                Ok(below + above)
            }
        }
    }

    /// The cells in a box. Only the leaves whose tiles the box meets are looked at.
    pub(crate) fn window(&self, alloc: Global, lo: &[i32], hi: &[i32]) -> Result<Solid, NoMemory>
        requires few { length lo.now ≤ 6 }
        requires well { is_well (length lo.now) self.now ≡ true }
        requires inside { is_box (length lo.now) lo.now hi.now ≡ true }
        ensures dim { IfOk result (λ s. s.dim ≡ length lo.now) }
        ensures cells { IfOk result (λ s. cells_of s ≡ node_window self.now lo.now hi.now) }
    {
        match self {
            Node::Leaf { solid, .. } => {
                let part = clip(alloc, solid.rows(), lo, hi)?;
                Ok(part)
            }
            Node::Cut {
                axis,
                at,
                low,
                high,
            } => {
                if hi[*axis] <= *at {
                    let part = low.window(alloc, lo, hi)?;
                    Ok(part)
                } else if *at <= lo[*axis] {
                    let part = high.window(alloc, lo, hi)?;
                    Ok(part)
                } else {
                    let below = low.window(alloc, lo, hi)?;
                    let above = high.window(alloc, lo, hi)?;
                    let part = both(alloc, &below, &above)?;
                    Ok(part)
                }
            }
        }
    }
}

/// A leaf.
fn leaf(alloc: Global, solid: Solid, most: usize) -> Result<Rc<Node>, NoMemory>
    ensures well { IfOk result (λ t. is_well solid.dim t.value ≡ true) }
    ensures cells { IfOk result (λ t. node_cells solid.dim t.value ≡ cells_of solid) }
    ensures count { IfOk result (λ t. node_count t.value ≡ 1) }
{
    let node = Rc::new(alloc, Node::Leaf { solid, most })?;
    Ok(node)
}

/// A cut.
fn cut(
    alloc: Global,
    _dim: usize,
    axis: usize,
    at: i32,
    low: Rc<Node>,
    high: Rc<Node>,
) -> Result<Rc<Node>, NoMemory>
    requires between { IsBetween _dim axis at }
    requires under { list_all (is_under axis at) (node_cells _dim low.value) ≡ true }
    requires over { list_all (is_over axis at) (node_cells _dim high.value) ≡ true }
    requires low { is_well _dim low.value ≡ true }
    requires high { is_well _dim high.value ≡ true }
    ensures well { IfOk result (λ t. is_well _dim t.value ≡ true) }
    ensures cells { IfOk result (λ t. IsBoth _dim t.value low.value high.value) }
    ensures count { IfOk result
        (λ t. node_count t.value ≡ suc (node_count low.value + node_count high.value)) }
{
    let node = Rc::new(
        alloc,
        Node::Cut {
            axis,
            at,
            low,
            high,
        },
    )?;
    Ok(node)
}

/// Two small leaves, as one solid.
fn merged(alloc: Global, _dim: usize, low: &Node, high: &Node) -> Result<Option<Solid>, NoMemory>
    requires low { is_well _dim low.now ≡ true }
    requires high { is_well _dim high.now ≡ true }
    ensures dim { IfOk result (λ o. IfSome o (λ s. s.dim ≡ _dim)) }
    ensures cells { IfOk result (λ o. IfSome o (λ s. IsOne _dim s low.now high.now)) }
{
    let Node::Leaf { solid: a, .. } = low else {
        return Ok(None);
    };
    let Node::Leaf { solid: b, .. } = high else {
        return Ok(None);
    };
    if LEAF / 4 < a.len() || LEAF / 4 < b.len() {
        return Ok(None);
    }
    let all = both(alloc, a, b)?;
    Ok(Some(all))
}

/// A cut, or one leaf where both sides are small.
fn joined(
    alloc: Global,
    _dim: usize,
    axis: usize,
    at: i32,
    low: Rc<Node>,
    high: Rc<Node>,
) -> Result<Rc<Node>, NoMemory>
    requires between { IsBetween _dim axis at }
    requires under { list_all (is_under axis at) (node_cells _dim low.value) ≡ true }
    requires over { list_all (is_over axis at) (node_cells _dim high.value) ≡ true }
    requires low { is_well _dim low.value ≡ true }
    requires high { is_well _dim high.value ≡ true }
    ensures well { IfOk result (λ t. is_well _dim t.value ≡ true) }
    ensures cells { IfOk result (λ t. IsBoth _dim t.value low.value high.value) }
{
    let small = merged(alloc, _dim, &low, &high)?;
    match small {
        Some(all) => {
            let node = leaf(alloc, all, LEAF)?;
            Ok(node)
        }
        None => {
            let node = cut(alloc, _dim, axis, at, low, high)?;
            Ok(node)
        }
    }
}

/// The tree of a solid from the trees of its two sides.
fn of_sides(
    alloc: Global,
    solid: &Solid,
    axis: usize,
    at: i32,
    low: Rc<Node>,
    high: Rc<Node>,
) -> Result<Rc<Node>, NoMemory>
    requires between { IsBetween solid.now.dim axis at }
    requires under { node_cells solid.now.dim low.value ≡ cells_under axis at solid.now }
    requires over { node_cells solid.now.dim high.value ≡ cells_over axis at solid.now }
    requires low { is_well solid.now.dim low.value ≡ true }
    requires high { is_well solid.now.dim high.value ≡ true }
    ensures well { IfOk result (λ t. is_well solid.now.dim t.value ≡ true) }
    ensures cells { IfOk result (λ t. node_cells solid.now.dim t.value ≡ cells_of solid.now) }
    ensures count { IfOk result
        (λ t. node_count t.value ≡ suc (node_count low.value + node_count high.value)) }
{
    let node = cut(alloc, solid.dim(), axis, at, low, high)?;
    Ok(node)
}

/// The tree of a solid, whose leaves have at most `most` rows where they can be cut.
pub(crate) fn grown(
    alloc: Global,
    solid: Solid,
    most: usize,
    first: usize,
    fuel: usize,
) -> Result<Rc<Node>, NoMemory>
    ensures well { IfOk result (λ t. is_well solid.dim t.value ≡ true) }
    ensures cells { IfOk result (λ t. node_cells solid.dim t.value ≡ cells_of solid) }
{
    if solid.len() <= most || fuel == 0 {
        let node = leaf(alloc, solid, most)?;
        return Ok(node);
    }
    let halves = halved(alloc, &solid, first)?;
    match halves {
        Some(made) => {
            let next = made.axis + 1;
            let low = grown(alloc, made.low, LEAF, next, fuel - 1)?;
            let high = grown(alloc, made.high, LEAF, next, fuel - 1)?;
            let node = of_sides(alloc, &solid, made.axis, made.at, low, high)?;
            Ok(node)
        }
        None => {
            let more = solid.len().saturating_mul(2);
            let node = leaf(alloc, solid, more)?;
            Ok(node)
        }
    }
}

/// The tree of a solid: one leaf, which is cut when an edit meets it.
pub(crate) fn planted(alloc: Global, solid: Solid) -> Result<Rc<Node>, NoMemory>
    ensures well { IfOk result (λ t. is_well solid.dim t.value ≡ true) }
    ensures cells { IfOk result (λ t. node_cells solid.dim t.value ≡ cells_of solid) }
    ensures count { IfOk result (λ t. node_count t.value ≡ 1) }
{
    let node = leaf(alloc, solid, LEAF)?;
    Ok(node)
}

/// A height of the first axis with one solid below it and another above it, where the last row of the one and the first of the
/// other show it.
fn plane_between(low: Rows<'_>, high: Rows<'_>) -> Option<i32>
    requires { (vertices_of high).dim ≡ (vertices_of low).dim }
    ensures { IfSome result (IsApart (vertices_of low.entry) (vertices_of high.entry)) }
{
    let count = low.len();
    if count == 0 || high.len() == 0 {
        return None;
    }
    let last = low.coord(count - 1, 1);
    let at = high.coord(0, 1);
    let limit = limit(low.dim());
    if last <= at && -limit < at && at < limit {
        Some(at)
    } else {
        None
    }
}

/// Whether one solid is seen to lie beyond another on the first axis, by their first and last rows.
fn is_beyond(a: Rows<'_>, b: Rows<'_>) -> bool
    requires { (vertices_of b).dim ≡ (vertices_of a).dim }
{
    plane_between(a, b).is_some() || plane_between(b, a).is_some()
}

/// A leaf that has more rows than it may, cut in two, so that the change goes on to the side that it meets, and the other side stays
/// one leaf until an edit meets it. None where the leaf has no more rows, the change lies beyond it, or no plane serves.
fn opened(
    alloc: Global,
    solid: &Solid,
    most: usize,
    d: &Solid,
    first: usize,
    fuel: usize,
) -> Result<Option<Rc<Node>>, NoMemory>
    requires { d.now.dim ≡ solid.now.dim }
    ensures well { IfOk result
        (λ o. IfSome o (λ t. is_well solid.now.dim t.value ≡ true)) }
    ensures cells { IfOk result
        (λ o. IfSome o (λ t. node_cells solid.now.dim t.value ≡ cells_of solid.now)) }
    ensures count { IfOk result (λ o. IfSome o (λ t. node_count t.value ≡ 3)) }
    ensures fuel { IfOk result (λ o. IfSome o (λ _. 0 < fuel)) }
{
    if solid.len() <= most || fuel == 0 || is_beyond(solid.rows(), d.rows()) {
        return Ok(None);
    }
    let halves = halved(alloc, solid, first)?;
    match halves {
        Some(made) => {
            let low = planted(alloc, made.low)?;
            let high = planted(alloc, made.high)?;
            let node = of_sides(alloc, solid, made.axis, made.at, low, high)?;
            Ok(Some(node))
        }
        None => Ok(None),
    }
}

/// A leaf with a change. A change that lies beyond a leaf that was never cut is set beside it by a cut, so that the leaf is shared.
fn leaf_changed(
    alloc: Global,
    tree: &Rc<Node>,
    solid: &Solid,
    most: usize,
    d: &Solid,
    first: usize,
) -> Result<Rc<Node>, NoMemory>
    requires dim { solid.now.dim ≡ d.now.dim }
    requires well { is_well d.now.dim tree.now.value ≡ true }
    requires cells { node_cells d.now.dim tree.now.value ≡ cells_of solid.now }
    ensures well { IfOk result (λ t. is_well d.now.dim t.value ≡ true) }
    ensures cells { IfOk result (λ t. IsChanged tree.now.value d.now t.value) }
{
    if most < solid.len() {
        if let Some(at) = plane_between(solid.rows(), d.rows()) {
            let other = planted(alloc, d.copy(alloc)?)?;
            let own = tree.clone()?;
            let node = cut(alloc, d.dim(), 0, at, own, other)?;
            return Ok(node);
        }
        if let Some(at) = plane_between(d.rows(), solid.rows()) {
            let other = planted(alloc, d.copy(alloc)?)?;
            let own = tree.clone()?;
            let node = cut(alloc, d.dim(), 0, at, other, own)?;
            return Ok(node);
        }
    }
    let all = both(alloc, solid, d)?;
    let node = grown(alloc, all, most, first, DEEP)?;
    Ok(node)
}

/// A tree with a change. What the change does not meet is shared. Leaves are cut from the axis `first` on, counted from 0, and a leaf
/// with more rows than it may have toward the change, at most `fuel` times on one way.
pub(crate) fn changed(
    alloc: Global,
    tree: &Rc<Node>,
    d: &Solid,
    first: usize,
    fuel: usize,
) -> Result<Rc<Node>, NoMemory>
    requires { is_well d.now.dim tree.now.value ≡ true }
    ensures well { IfOk result (λ t. is_well d.now.dim t.value ≡ true) }
    ensures cells { IfOk result (λ t. IsChanged tree.now.value d.now t.value) }
{
    match &**tree {
        Node::Leaf { solid, most } => {
            let halves = opened(alloc, solid, *most, d, first, fuel)?;
            if let Some(open) = halves {
                let node = changed(alloc, &open, d, first, fuel - 1)?;
                return Ok(node);
            }
            let node = leaf_changed(alloc, tree, solid, *most, d, first)?;
            Ok(node)
        }
        Node::Cut {
            axis,
            at,
            low,
            high,
        } => match side_of(d.rows(), *axis, *at) {
            Side::Below => {
                let below = changed(alloc, low, d, axis.saturating_add(1), fuel)?;
                let above = high.clone()?;
                let node = joined(alloc, d.dim(), *axis, *at, below, above)?;
                Ok(node)
            }
            Side::Above => {
                let below = low.clone()?;
                let above = changed(alloc, high, d, axis.saturating_add(1), fuel)?;
                let node = joined(alloc, d.dim(), *axis, *at, below, above)?;
                Ok(node)
            }
            Side::Both => {
                let parts = cut_at(alloc, d.rows(), *axis, *at)?;
                let below = changed(alloc, low, &parts.low, axis.saturating_add(1), fuel)?;
                let above = changed(alloc, high, &parts.high, axis.saturating_add(1), fuel)?;
                let node = joined(alloc, d.dim(), *axis, *at, below, above)?;
                Ok(node)
            }
        },
    }
}

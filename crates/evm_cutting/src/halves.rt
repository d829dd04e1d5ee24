//! A solid, cut in two by a plane.

ghost use Rattle.std.specs.Prelude.{◌≡◌, ◌<◌, IfOk, IfSome};
ghost use Rattle.evm_rows.specs.View.{vertices_of};
ghost use Rattle.evm_cutting.specs.Cuts.{IsBetween};
ghost use Rattle.evm_cutting.specs.Splits.{IsSplit, IsSplitAt};

use crate::levels::both_sides;
use crate::sides::under;
use evm_rows::{NoMemory, Rows, Solid, limit, xor};
use std::alloc::Global;

/// Of how many rows at least the coordinate is looked at for a plane, where there are as many.
const SAMPLE: usize = 64;

/// A middle coordinate on an axis, counted from 0, above the least one and strictly within the limits of the dimension; none where
/// there is no such coordinate among those that were looked at. Every so many rows one is: of an odd number of rows, since the rows of
/// a line come in pairs. Takes memory for at most 128 coordinates.
pub(crate) fn middle(alloc: Global, a: Rows<'_>, axis: usize) -> Result<Option<i32>, NoMemory>
    requires { axis < (vertices_of a).dim }
    ensures { IfOk result (λ o. IfSome o (λ at. IsBetween (vertices_of a.entry).dim axis at)) }
{
    let limit = limit(a.dim());
    let step = a.len() / (2 * SAMPLE) * 2 + 1;
    let mut heights = Vec::with_capacity(alloc, 2 * SAMPLE)?;
    let mut row = 0;
    while row < a.len() {
        heights.push(a.coord(row, axis + 1))?;
        row = row.saturating_add(step);
    }
    heights.sort_unstable();
    let Some(least) = heights.first() else {
        return Ok(None);
    };
    let mut at = heights[heights.len() / 2];
    for height in heights.as_slice() {
        if at == *least {
            at = *height;
        }
    }
    if -limit < at && at < limit && *least < at {
        Ok(Some(at))
    } else {
        Ok(None)
    }
}

/// A solid, cut in two by a plane across an axis.
#[derive(Drop)]
pub struct Split {
    /// The axis, counted from 0.
    pub axis: usize,
    /// The height of the plane on it.
    pub at: i32,
    /// What is below the plane.
    pub low: Solid,
    /// What is above it.
    pub high: Solid,
}

/// The two sides of a plane, both in one pass. Rows come out in the order in which they stand; only the places that close a side are
/// sorted. Takes memory for two times as many numbers as the solid has, once, and for a key of 16 bytes a row of a side.
///
/// Where the view passes over numbers of its rows, what is below is made as [`crate::under`] does, which sorts there, and what is above
/// is the exclusive or of the solid and of what is below: one merge.
pub fn cut_at(alloc: Global, a: Rows<'_>, axis: usize, at: i32) -> Result<Split, NoMemory>
    requires { IsBetween (vertices_of a).dim axis at }
    ensures { IfOk result (IsSplitAt (vertices_of a.entry) axis at) }
{
    if a.skip == 0 {
        return both_sides(alloc, a, axis, at);
    }
    let low = under(alloc, a, axis, at)?;
    let high = xor(alloc, a, low.rows())?;
    Ok(Split {
        axis,
        at,
        low,
        high,
    })
}

/// The two sides of a plane, if each is clearly smaller than the whole.
fn split_at(alloc: Global, solid: &Solid, axis: usize, at: i32) -> Result<Option<Split>, NoMemory>
    requires { IsBetween solid.now.dim axis at }
    ensures { IfOk result (λ o. IfSome o (IsSplit solid.now)) }
{
    let most = solid.len() - solid.len() / 8;
    let made = cut_at(alloc, solid.rows(), axis, at)?;
    if made.low.len() <= most && made.high.len() <= most {
        Ok(Some(made))
    } else {
        Ok(None)
    }
}

/// The two sides of a plane across some axis, the first that serves from `first` on, counted from 0 and past the last axis again from
/// the first: a plane serves that leaves to each side at most seven of eight rows. None where there is no such plane among those that
/// were looked at. Takes memory for the two sides and for at most 128 coordinates.
pub fn halved(alloc: Global, solid: &Solid, first: usize) -> Result<Option<Split>, NoMemory>
    ensures { IfOk result (λ o. IfSome o (IsSplit solid.now)) }
{
    solid.facts();
    let dim = solid.dim();
    for turn in 0..dim {
        let axis = (first % dim + turn) % dim;
        let plane = middle(alloc, solid.rows(), axis)?;
        if let Some(at) = plane {
            let made = split_at(alloc, solid, axis, at)?;
            if made.is_some() {
                return Ok(made);
            }
        }
    }
    Ok(None)
}

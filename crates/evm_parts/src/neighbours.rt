//! The links between boxes that share faces of cells.
ghost use Rattle.std.specs.Prelude.{◌≡◌, ◌+◌, ◌^◌, ◌<◌, ◌≤◌, ◌<ℤ◌, length, IfOk, OnOk};
ghost use Rattle.evm_parts.specs.Links.{AreLinks, AreNested};
ghost use Rattle.evm_parts.specs.Stretches.{low_at, high_at, IsNestedFrom, IsFirstAbove, IsFirstSlab, IsOverlap, IsMeeting, IsTouch, AreAppended};

use evm_partition::Boxes;
use evm_rows::NoMemory;
use std::alloc::{AllocError, Global};

/// Two boxes of a list that are neighbours, counted from 0; `first` is below `second`.
#[derive(Clone, Copy)]
pub(crate) struct Link {
    pub(crate) first: usize,
    pub(crate) second: usize,
}

// The boxes of a list from `start` up to, but not at, `end`.
#[derive(Clone, Copy)]
struct Stretch {
    start: usize,
    end: usize,
}

// Where a box begins and ends on an axis.
#[derive(Clone, Copy)]
struct Span {
    low: i32,
    high: i32,
}

impl Span {
    // The span of a box on an axis, both counted from 0.
    fn of(boxes: &Boxes, index: usize, axis: usize) -> Span
        requires index { index < length boxes.now.boxes }
        requires axis { axis < boxes.now.dim }
        ensures low { result.low ≡ low_at boxes.now.boxes index axis }
        ensures high { result.high ≡ high_at boxes.now.boxes index axis }
    {
        let (lo, hi) = boxes.ends(index);
        Span {
            low: lo[axis],
            high: hi[axis],
        }
    }
}

// A box of the stretch that ends above the bound on the axis, or the end of the stretch. It is found in ever longer strides, so it
// stands at most twice as far ahead as the first such box.
fn stride(boxes: &Boxes, axis: usize, stretch: Stretch, bound: i32) -> usize
    requires axis { axis < boxes.now.dim }
    requires ordered { stretch.start ≤ stretch.end }
    requires within { stretch.end ≤ length boxes.now.boxes }
    ensures from { stretch.start ≤ result }
    ensures to { result ≤ stretch.end }
    ensures above { result < stretch.end → bound <ℤ high_at boxes.now.boxes result axis }
{
    let mut ahead = 1;
    while ahead < stretch.end - stretch.start {
        if bound < Span::of(boxes, stretch.start + ahead, axis).high {
            return stretch.start + ahead;
        }
        ahead = ahead.saturating_mul(2);
    }
    stretch.end
}

// The first box of the stretch that ends above the bound on the axis, or the end of the stretch.
fn first_above(boxes: &Boxes, axis: usize, stretch: Stretch, bound: i32) -> usize
    requires boxes { AreNested boxes.now.dim boxes.now.boxes }
    requires axis { axis < boxes.now.dim }
    requires stretch { IsNestedFrom boxes.now.boxes axis stretch }
    ensures { IsFirstAbove boxes.now.boxes axis stretch bound result }
{
    let mut start = stretch.start;
    let mut end = stride(boxes, axis, stretch, bound);
    while start < end {
        let middle = start + (end - start) / 2;
        if Span::of(boxes, middle, axis).high <= bound {
            start = middle + 1;
        } else {
            end = middle;
        }
    }
    start
}

// The boxes with the span of the first on the axis.
fn first_slab(boxes: &Boxes, axis: usize, stretch: Stretch) -> Stretch
    requires boxes { AreNested boxes.now.dim boxes.now.boxes }
    requires axis { axis < boxes.now.dim }
    requires stretch { IsNestedFrom boxes.now.boxes axis stretch }
    requires some { stretch.start < stretch.end }
    ensures { IsFirstSlab boxes.now.boxes axis stretch result }
{
    let bound = Span::of(boxes, stretch.start, axis).high;
    Stretch {
        start: stretch.start,
        end: first_above(boxes, axis, stretch, bound),
    }
}

// Appends the links from the boxes of the one stretch to those of the other that overlap on the axes from `axis` on.
fn append_overlapping(
    boxes: &Boxes,
    axis: usize,
    one: Stretch,
    other: Stretch,
    out: &mut Vec<Link>,
) -> Result<(), AllocError>
    requires boxes { AreNested boxes.now.dim boxes.now.boxes }
    requires axis { axis ≤ boxes.now.dim }
    requires one { IsNestedFrom boxes.now.boxes axis one }
    requires other { IsNestedFrom boxes.now.boxes axis other }
    requires some { one.start < one.end }
    requires more { other.start < other.end }
    ensures { OnOk result
        (AreAppended (IsOverlap boxes.now.boxes axis one other) out.old.items out.new.items) }
{
    if axis == boxes.dim() {
        out.push(Link {
            first: one.start,
            second: other.start,
        })?;
        return Ok(());
    }
    let mut left = one;
    let mut right = other;
    while left.start < left.end && right.start < right.end {
        let near = Span::of(boxes, left.start, axis);
        let far = Span::of(boxes, right.start, axis);
        if near.high <= far.low {
            left.start = first_above(boxes, axis, left, far.low);
        } else if far.high <= near.low {
            right.start = first_above(boxes, axis, right, near.low);
        } else {
            let slab = first_slab(boxes, axis, left);
            let facing = first_slab(boxes, axis, right);
            append_overlapping(boxes, axis + 1, slab, facing, out)?;
            if near.high <= far.high {
                left.start = slab.end;
            } else {
                right.start = facing.end;
            }
        }
    }
    Ok(())
}

// Appends the links from the boxes of the first slab of a stretch to those after it in the stretch that touch on the axes from
// `axis` on: only the next slab may meet it.
fn append_meeting(
    boxes: &Boxes,
    axis: usize,
    stretch: Stretch,
    slab: Stretch,
    out: &mut Vec<Link>,
) -> Result<(), AllocError>
    requires boxes { AreNested boxes.now.dim boxes.now.boxes }
    requires axis { axis < boxes.now.dim }
    requires next { axis + 1 < 2 ^ 64 }
    requires stretch { IsNestedFrom boxes.now.boxes axis stretch }
    requires slab { IsFirstSlab boxes.now.boxes axis stretch slab }
    ensures { OnOk result
        (AreAppended (IsMeeting boxes.now.boxes axis stretch slab) out.old.items out.new.items) }
{
    if slab.end == stretch.end {
        return Ok(());
    }
    let after = Stretch {
        start: slab.end,
        end: stretch.end,
    };
    let next = first_slab(boxes, axis, after);
    let near = Span::of(boxes, slab.start, axis);
    let far = Span::of(boxes, next.start, axis);
    if near.high != far.low {
        return Ok(());
    }
    append_overlapping(boxes, axis + 1, slab, next, out)?;
    Ok(())
}

// Appends the links between the boxes of a stretch that touch on the axes from `axis` on.
fn append_touching(
    boxes: &Boxes,
    axis: usize,
    stretch: Stretch,
    out: &mut Vec<Link>,
) -> Result<(), AllocError>
    requires boxes { AreNested boxes.now.dim boxes.now.boxes }
    requires axis { axis ≤ boxes.now.dim }
    requires stretch { IsNestedFrom boxes.now.boxes axis stretch }
    ensures { OnOk result
        (AreAppended (IsTouch boxes.now.boxes axis stretch) out.old.items out.new.items) }
{
    if axis == boxes.dim() {
        return Ok(());
    }
    let mut left = stretch;
    while left.start < left.end {
        let slab = first_slab(boxes, axis, left);
        append_touching(boxes, axis + 1, slab, out)?;
        append_meeting(boxes, axis, left, slab, out)?;
        left.start = slab.end;
    }
    Ok(())
}

/// The links between the boxes of a list that stands in nested slabs, as those of the stated partition do.
///
/// Each slab is laid beside the next one of the same axis, and where the two meet, their own slabs are gone through side by side, axis by
/// axis. What lies on one side with nothing beside it is passed over in growing strides. So the work is that of the slabs that overlap
/// on all axes passed, and of the gaps between them, each times the logarithm of the boxes passed over; no box is compared with all
/// others. Takes memory for the links alone; calls nest as deep as there are axes. The one error is want of memory.
pub(crate) fn links(alloc: Global, boxes: &Boxes) -> Result<Vec<Link>, NoMemory>
    requires { AreNested boxes.now.dim boxes.now.boxes }
    ensures { IfOk result (λ v. AreLinks boxes.now.boxes v.items) }
{
    let mut found = Vec::new(alloc);
    let all = Stretch {
        start: 0,
        end: boxes.len(),
    };
    append_touching(boxes, 0, all, &mut found)?;
    Ok(found)
}

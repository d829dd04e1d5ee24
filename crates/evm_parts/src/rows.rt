// The rows of the boxes of each label.
ghost use Rattle.std.specs.Prelude.{◌≡◌, ◌<◌, ◌≤◌, ◌++◌, [], length, All, IfOk, OnOk};
ghost use Rattle.evm_rows.specs.Rows.{flat_of};
ghost use Rattle.evm_cells.specs.Vertices.{evm};
ghost use Rattle.evm_parts.specs.Labels.{box_at, unlabelled};
ghost use Rattle.evm_parts.specs.PartRows.{cells_in, rows_of_boxes, AreGathered};

use crate::remainder::is_main;
use evm_partition::Boxes;
use evm_rows::{BoxError, NoMemory, Solid};
use std::alloc::{AllocError, Global};

// As many empty lists.
fn empty_lists(alloc: Global, count: usize) -> Result<Vec<Vec<i32>>, AllocError>
    ensures many { IfOk result (λ v. length v.items ≡ count) }
    ensures empty { IfOk result (λ v. All (λ w. w.items ≡ []) v.items) }
{
    let mut lists = Vec::with_capacity(alloc, count)?;
    for _ in 0..count {
        lists.push(Vec::new(alloc))?;
    }
    Ok(lists)
}

// Appends the rows of a box, counted from 0: its corners.
fn append_box(
    alloc: Global,
    boxes: &Boxes,
    index: usize,
    out: &mut Vec<i32>,
) -> Result<(), NoMemory>
    requires high { boxes.now.dim ≤ 6 }
    requires within { index < length boxes.now.boxes }
    ensures { OnOk result
        (out.new.items ≡ out.old.items
        ++ flat_of (evm boxes.now.dim (cells_in boxes.now.dim (box_at boxes.now.boxes index)))) }
{
    let (lo, hi) = boxes.ends(index);
    match Solid::of_box(alloc, lo, hi) {
        Ok(solid) => {
            out.extend_from_slice(solid.flat())?;
            Ok(())
        }
        Err(BoxError::NoMemory) => Err(NoMemory),
        Err(BoxError::Range) => unreachable!(),
    }
}

/// For each label but the main one the rows of its boxes, one box after another; a row may stand in several. The other lists are empty.
///
/// Takes memory for each list and for the rows.
pub(crate) fn rows_by_label(
    alloc: Global,
    boxes: &Boxes,
    labels: &[usize],
    main: Option<usize>,
) -> Result<Vec<Vec<i32>>, NoMemory>
    requires high { boxes.now.dim ≤ 6 }
    requires many { length labels.now ≡ length boxes.now.boxes }
    requires within { All (λ label. label < length labels.now) labels.now }
    ensures { IfOk result (λ v. AreGathered boxes.now.dim boxes.now.boxes labels.now main v.items) }
{
    let mut lists = empty_lists(alloc, labels.len())?;
    for (index, label) in labels.iter().enumerate() {
        if !is_main(main, *label) {
            append_box(alloc, boxes, index, &mut lists[*label])?;
        }
    }
    Ok(lists)
}

/// The rows of all boxes that do not have the label, one box after another; a row may stand in several. Takes memory for them.
pub(crate) fn rows_of_others(
    alloc: Global,
    boxes: &Boxes,
    labels: &[usize],
    label: usize,
) -> Result<Vec<i32>, NoMemory>
    requires high { boxes.now.dim ≤ 6 }
    requires many { length labels.now ≡ length boxes.now.boxes }
    ensures { IfOk result
        (λ v. v.items ≡ flat_of
        (rows_of_boxes boxes.now.dim (unlabelled label labels.now boxes.now.boxes))) }
{
    let mut rows = Vec::new(alloc);
    for (index, other) in labels.iter().enumerate() {
        if *other != label {
            append_box(alloc, boxes, index, &mut rows)?;
        }
    }
    Ok(rows)
}

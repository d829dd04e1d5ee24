ghost use Rattle.std.specs.Prelude.{◌≡◌, ◌<◌};

use crate::{Steps, combine, combine_slabs, pass_slabs};
use evm_boolean::Op2;
use evm_rows::Solid;
use std::alloc::Global;
use std::marker::Brand;
use std::sync::ledger::{Blank, Ledger};

// Whether the union of two squares that overlap has these numbers, at once and height by height.
fn unites<L: Ledger>(alloc: Global, numbers: &[i32], blank: Blank) -> Option<bool>
    requires name { blank.name ≡ L.name }
    requires parts { blank.parts ≡ L.parts }
    requires some { 0 < L.parts }
{
    let a = Solid::of_box(alloc, &[0, 0], &[2, 2]).ok()?;
    let b = Solid::of_box(alloc, &[1, 1], &[3, 3]).ok()?;
    let mut steps = Steps::<L>::start(blank);
    let at_once = combine(alloc, Op2::Or, a.rows(), b.rows(), &mut steps).ok()?;
    let by_heights = combine_slabs(alloc, Op2::Or, a.rows(), b.rows(), &mut steps).ok()?;
    pass_slabs(a.rows(), &mut steps);
    Some(at_once.rows().flat == numbers && by_heights.rows().flat == numbers)
}

#[test]
fn unites_squares(rt: HostRuntime) {
    let numbers = [0, 0, 0, 2, 1, 2, 1, 3, 2, 0, 2, 1, 3, 1, 3, 3];
    assert_eq!(rt;
        unites::<Brand>(rt.alloc(), &numbers, Blank::new(1)),
        Some(true)
    );
}

ghost use Rattle.std.specs.Prelude.{◌≡◌, ◌<◌};

use super::has_rows;
use crate::delta2;
use evm_boolean::Op2;
use evm_rows::{NoMemory, Solid};
use evm_steps::Steps;
use evm_tiles::Tiles;
use std::alloc::Global;
use std::marker::Brand;
use std::sync::ledger::{Blank, Ledger};

// The change of `op` where both operands are a square of side 2, the left one changes by a square of side 2 that begins in
// its middle, and the right one likewise or not at all.
fn change<L: Ledger>(alloc: Global, op: Op2, both: bool, blank: Blank) -> Result<Solid, NoMemory>
    requires name { blank.name ≡ L.name }
    requires parts { blank.parts ≡ L.parts }
    requires some { 0 < L.parts }
{
    let Ok(a) = Solid::of_box(alloc, &[0, 0], &[2, 2]) else {
        return Err(NoMemory);
    };
    let Ok(da) = Solid::of_box(alloc, &[1, 1], &[3, 3]) else {
        return Err(NoMemory);
    };
    let none = Solid::empty(alloc, 2);
    let db = if both { da.rows() } else { none.rows() };
    let tree = Tiles::from_rows(alloc, a.rows())?;
    let mut steps = Steps::<L>::start(blank);
    delta2(alloc, op, &tree, da.rows(), &tree, db, &mut steps)
}

#[test]
fn changes_booleans(rt: HostRuntime) {
    let square: &[i32] = &[1, 1, 1, 3, 3, 1, 3, 3];
    let middle: &[i32] = &[1, 1, 1, 2, 2, 1, 2, 2];
    let corner: &[i32] = &[1, 2, 1, 3, 2, 1, 2, 2, 3, 1, 3, 3];
    let table: [(Op2, bool, &[i32]); 8] = [
        (Op2::Or, true, square),
        (Op2::And, true, square),
        (Op2::Sub, true, &[]),
        (Op2::Xor, true, &[]),
        (Op2::Or, false, corner),
        (Op2::And, false, middle),
        (Op2::Sub, false, corner),
        (Op2::Xor, false, square),
    ];
    for (op, both, rows) in table {
        let Ok(solid) = change::<Brand>(rt.alloc(), op, both, Blank::new(1)) else {
            panic!(rt; "there was no memory");
        };
        assert!(rt; has_rows(&solid, 2, rows), "{op:?} {both}");
    }
}

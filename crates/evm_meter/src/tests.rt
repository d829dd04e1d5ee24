ghost use Rattle.std.specs.Prelude.{IfSome};
ghost use Rattle.evm_meter.specs.Beside.{IsBeside};

use super::{FailingMeter, Kind, Meter, StockMeter};
use evm_rows::{NoMemory, Solid, xor};
use std::alloc::Global;

/// A square of 2 x 2 cells; and what of it is within 1 of the cell beside its low right corner, before that cell comes and after.
#[derive(Drop)]
struct Step {
    whole: Solid,
    before: Solid,
    gained: Solid,
    lost: Solid,
    after: Solid,
}

fn cell_beside(alloc: Global) -> Option<Step>
    ensures { IfSome result (λ s. IsBeside s.whole s.before s.gained s.lost s.after) }
{
    let Ok(whole) = Solid::of_box(alloc, &[0, 0], &[2, 2]) else {
        return None;
    };
    let Ok(before) = Solid::of_box(alloc, &[1, 0], &[2, 2]) else {
        return None;
    };
    let Ok(gained) = Solid::of_box(alloc, &[2, 0], &[3, 1]) else {
        return None;
    };
    let lost = Solid::empty(alloc, 2);
    let Ok(after) = xor(alloc, before.rows(), gained.rows()) else {
        return None;
    };
    Some(Step {
        whole,
        before,
        gained,
        lost,
        after,
    })
}

/// What the meter reads of the square; when a change was abandoned; and after the cell came.
fn follow<M: Meter>(
    alloc: Global,
    meter: &mut M,
    step: &Step,
) -> Result<(i128, i128, i128), NoMemory>
    requires { IsBeside step.now.whole step.now.before step.now.gained step.now.lost step.now.after }
{
    let (before, gained) = (step.before.rows(), step.gained.rows());
    let (lost, after) = (step.lost.rows(), step.after.rows());
    meter.begin(alloc, step.whole.rows())?;
    let first = meter.read();
    meter.prepare(alloc, before, gained, lost, after)?;
    meter.abandon();
    let same = meter.read();
    meter.prepare(alloc, before, gained, lost, after)?;
    meter.commit();
    Ok((first, same, meter.read()))
}

#[test]
fn stock_meters_follow(rt: HostRuntime) {
    let step = cell_beside(rt.alloc()).expect(&rt, "memory");
    let table = [
        (StockMeter::content(), Kind::Content, (4, 4, 5)),
        (StockMeter::boundary(), Kind::Boundary, (8, 8, 10)),
        (StockMeter::vertices(), Kind::Vertices, (4, 4, 6)),
    ];
    for (mut meter, kind, want) in table {
        assert_eq!(rt; meter.kind(), kind);
        assert_eq!(rt; follow(rt.alloc(), &mut meter, &step), Ok(want));
        let mut again = StockMeter::new(kind);
        assert_eq!(rt; follow(rt.alloc(), &mut again, &step), Ok(want));
    }
}

#[test]
fn failing_meters_fail_at_their_calls(rt: HostRuntime) {
    let step = cell_beside(rt.alloc()).expect(&rt, "memory");
    let failing = vec![in rt.alloc(); 1, 4].expect(&rt, "memory");
    let mut meter = FailingMeter::new(Kind::Content, failing);
    assert_eq!(rt; meter.kind(), Kind::Content);
    // The calls 0 and 1, of which the second fails; then 2, 3 and 4, of which the last fails; then 5 to 7.
    assert_eq!(rt; follow(rt.alloc(), &mut meter, &step), Err(NoMemory));
    assert_eq!(rt; follow(rt.alloc(), &mut meter, &step), Err(NoMemory));
    assert_eq!(rt; follow(rt.alloc(), &mut meter, &step), Ok((4, 4, 5)));
}

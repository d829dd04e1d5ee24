//! Numbers of a line as dimensions and boxes.

ghost use Rattle.std.specs.Prelude.{◌≡◌, ◌≤◌, ◌<◌, ◌*◌, pos, nat_abs, length, true, false, MatchOption};
ghost use Rattle.evm_model.specs.Scene.{is_dim};
ghost use Rattle.evm_scene.specs.Boxes.{MakesBox};

use super::edit::Refusal;
use evm_rows::{BoxError, Solid, limit};
use evm_script::{Num, Nums};
use std::alloc::Global;

/// The dimension that a number states, or `None` exactly where named solids have no such dimension.
pub fn stated(dim: Num) -> Option<usize>
    ensures { MatchOption result (is_dim dim ≡ false)
        (λ n. (is_dim dim ≡ true) × (n ≡ nat_abs dim) × (is_dim (pos n) ≡ true) × (0 < n)
        × (n ≤ 6)) }
{
    let n = dim.value();
    if 2 <= n && n <= 6 {
        Some(n as usize)
    } else {
        None
    }
}

/// The box whose lower and upper corner the numbers state.
pub fn box_of(alloc: Global, dim: usize, numbers: &Nums) -> Result<Solid, Refusal>
    requires low { 0 < dim }
    requires high { dim ≤ 6 }
    requires both { length numbers.now ≡ 2 * dim }
    ensures { MakesBox result dim numbers.now }
{
    let limit = limit(dim);
    let Some(corners) = numbers.between(-limit, limit) else {
        return Err(Refusal::Range);
    };
    let (lo, hi) = corners.values().split_at(dim);
    match Solid::of_box(alloc, lo, hi) {
        Ok(solid) => Ok(solid),
        Err(BoxError::Range) => Err(Refusal::Range),
        Err(BoxError::NoMemory) => Err(Refusal::NoMemory),
    }
}

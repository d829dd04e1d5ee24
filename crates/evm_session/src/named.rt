//! The tree of a name, with an axis of it, or for as many numbers as it has axes.

ghost use Rattle.std.specs.Prelude.{◌≡◌, ◌<◌, ◌≤◌, nat_abs, length, true, false, IfOk, MatchOption};
ghost use Rattle.evm_model.specs.Scene.{is_axis};
ghost use Rattle.evm_model.specs.Edits.{axis_causes};
ghost use Rattle.evm_session.specs.Loads.{Tests};
ghost use Rattle.evm_session.specs.Named.{IsTreeOf, many_causes};

use super::refusals::Refusal;
use evm_meter::Meter;
use evm_scene::Scene;
use evm_script::{Name, Num, Nums};
use evm_tiles::Tiles;

/// The axis that a number states, counted from 1, or `None` exactly where it is none of this dimension.
fn axis_of(axis: &Num, dim: usize) -> Option<usize>
    requires { dim ≤ 6 }
    ensures { MatchOption result (is_axis dim axis.now ≡ false)
        (λ found. (is_axis dim axis.now ≡ true) × (0 < found) × (found ≤ dim)
        × (found ≡ nat_abs axis.now)) }
{
    let axis = axis.value();
    if 1 <= axis && axis <= dim as i64 {
        Some(axis as usize)
    } else {
        None
    }
}

/// The tree of a name, and the axis of it that a number states, counted from 1.
///
/// It is `Name` exactly where the name does not stand, and else `Dim` exactly where its solid has no such axis. Takes no memory.
pub fn tree_and_axis<'a, M: Meter>(
    scene: &'a Scene<M>,
    name: &Name,
    axis: &Num,
) -> Result<(&'a Tiles, usize), Refusal>
    ensures tests { Tests result (axis_causes scene.now name.now axis.now) }
    ensures tree { IfOk result (λ found. IsTreeOf found.0.now scene.now name.now) }
    ensures axis { IfOk result
        (λ found. (0 < found.1) × (found.1 ≤ found.0.now.dim) × (found.1 ≡ nat_abs axis.now)) }
{
    scene.facts();
    let Some(tree) = scene.kept(name) else {
        return Err(Refusal::Name);
    };
    tree.facts();
    let dim = tree.dim();
    let Some(along) = axis_of(axis, dim) else {
        return Err(Refusal::Dim);
    };
    Ok((tree, along))
}

/// The tree of a name, of which numbers state one for each axis.
///
/// It is `Name` exactly where the name does not stand, and else `Dim` exactly where the numbers are not as many as its dimension.
/// Takes no memory.
pub fn tree_for<'a, M: Meter>(
    scene: &'a Scene<M>,
    name: &Name,
    nums: &Nums,
) -> Result<&'a Tiles, Refusal>
    ensures tests { Tests result (many_causes scene.now name.now nums.now) }
    ensures tree { IfOk result (λ tree. IsTreeOf tree.now scene.now name.now) }
    ensures many { IfOk result (λ tree. length nums.now ≡ tree.now.dim) }
{
    scene.facts();
    let Some(tree) = scene.kept(name) else {
        return Err(Refusal::Name);
    };
    let dim = tree.dim();
    if nums.len() != dim {
        return Err(Refusal::Dim);
    }
    Ok(tree)
}

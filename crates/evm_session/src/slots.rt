//! Slots of meters: what watches a name, and what it reads.

ghost use Rattle.std.specs.Prelude.{◌≡◌, true, pos, nat_abs, int_lt, int_le, MatchOption};
ghost use Rattle.evm_model.specs.Files.{no_files};
ghost use Rattle.evm_model.specs.Scene.{reading};
ghost use Rattle.evm_model.specs.Steps.{turn_of};
ghost use Rattle.evm_session.specs.Carried.{Carries};
ghost use Rattle.evm_script.specs.declared.command.Command.TheVariants as commands;

use super::refusals::Refusal;
use super::replies::{put_done, put_number, reserve_number, say_number};
use evm_meter::Meter;
use evm_scene::Scene;
use evm_script::{Name, Num};
use std::alloc::Global;

/// The slot that a number states, or `None` exactly where the number is negative, and so no slot's.
fn slot_of(slot: Num) -> Option<usize>
    ensures { MatchOption result (int_lt slot (pos 0) ≡ true) (λ k. slot ≡ pos k) }
{
    let number = slot.value();
    if number < 0 {
        None
    } else {
        Some(number as usize)
    }
}

/// A reading, which is a measure, as a count.
fn count_of(reading: i128) -> u128
    requires { int_le (pos 0) reading ≡ true }
    ensures { result ≡ nat_abs reading }
{
    reading as u128
}

/// The meter of a slot watches a name from now on, and its reading is told. The room for the reply comes first, so that nothing fails
/// behind it.
///
/// It is `Name` where the name does not stand, and else `Meter` where there is no such slot or it is not free. Takes the memory of the
/// name's rows, and of the meter.
pub fn meter<M: Meter>(
    scene: &mut Scene<M>,
    alloc: Global,
    slot: Num,
    name: &Name,
    out: &mut Vec<u8>,
) -> Result<(), Refusal>
    ensures { Carries result scene.old scene.new out.old.items out.new.items
        (turn_of no_files scene.old (commands.Meter slot name.now)) }
{
    if scene.entry(name).is_none() {
        return Err(Refusal::Name);
    }
    let Some(slot) = slot_of(slot) else {
        return Err(Refusal::Meter);
    };
    reserve_number(out)?;
    let reading = scene.attach(alloc, slot, name)?;
    put_number(out, count_of(reading));
    Ok(())
}

/// The reading of the slot that a number states, or `None` exactly where it states none that watches a name.
fn reading_of<M: Meter>(scene: &Scene<M>, slot: Num) -> Option<u128>
    ensures { result ≡ reading scene.now slot }
{
    let Some(slot) = slot_of(slot) else {
        return None;
    };
    let Some(reading) = scene.reading(slot) else {
        return None;
    };
    Some(count_of(reading))
}

/// The reading of a slot. It is `Meter` where the slot watches no name.
#[tactic(auto, using(crate::proofs::Answering::measured_text))]
pub fn read<M: Meter>(scene: &Scene<M>, slot: Num, out: &mut Vec<u8>) -> Result<(), Refusal>
    ensures { Carries result scene.now scene.now out.old.items out.new.items
        (turn_of no_files scene.now (commands.Read slot)) }
{
    let Some(reading) = reading_of(scene, slot) else {
        return Err(Refusal::Meter);
    };
    say_number(out, reading)?;
    Ok(())
}

/// Gives up the meter of a slot. The room for the reply comes first. It is `Meter` where the slot watches no name.
pub fn unmeter<M: Meter>(scene: &mut Scene<M>, slot: Num, out: &mut Vec<u8>) -> Result<(), Refusal>
    ensures { Carries result scene.old scene.new out.old.items out.new.items
        (turn_of no_files scene.old (commands.Unmeter slot)) }
{
    let Some(slot) = slot_of(slot) else {
        return Err(Refusal::Meter);
    };
    reserve_number(out)?;
    if scene.detach(slot).is_none() {
        return Err(Refusal::Meter);
    }
    put_done(out);
    Ok(())
}

//! One edit of a box, drawn and written.

ghost use Rattle.std.specs.Prelude.{◌≡◌, ◌++◌, ◌∷◌, OnOk};
ghost use Rattle.evm_generator.specs.Script.{name_word, command_word, corners, drawn, number_behind};
ghost use Rattle.evm_text.specs.Spaced.{behind_spaces};

use super::draws::Draws;
use evm_text::append_numbers;
use std::alloc::AllocError;

/// The name for a draw.
fn name_word(draw: u64) -> &'static [u8]
    ensures { result.now ≡ name_word draw }
{
    match draw {
        0 => b"a",
        1 => b"b",
        _ => b"c",
    }
}

/// The command for a draw.
fn command_word(draw: u64) -> &'static [u8]
    ensures { result.now ≡ command_word draw }
{
    match draw {
        0 => b"toggle",
        1 => b"add",
        _ => b"cut",
    }
}

/// An edit: its command, its name, and the lower and then the upper corner of its box.
#[derive(Drop)]
pub(crate) struct Edit {
    command: &'static [u8],
    name: &'static [u8],
    numbers: [i32; 6],
}

impl Edit {
    /// The next edit, by eight draws: the name, the command, and two for each axis.
    pub(crate) fn next(draws: &mut Draws) -> Edit
        ensures command { result.command.now ≡ command_word (drawn 2 3 draws.old.number) }
        ensures name { result.name.now ≡ name_word (drawn 1 3 draws.old.number) }
        ensures numbers { result.numbers ≡ corners draws.old.number }
        ensures place { draws.new.number ≡ number_behind 8 draws.old.number }
    {
        let name = name_word(draws.draw(3));
        let command = command_word(draws.draw(3));
        let (low_1, high_1) = draws.ends();
        let (low_2, high_2) = draws.ends();
        let (low_3, high_3) = draws.ends();
        Edit {
            command,
            name,
            numbers: [low_1, low_2, low_3, high_1, high_2, high_3],
        }
    }

    /// Appends the line of the edit.
    pub(crate) fn put(&self, text: &mut Vec<u8>) -> Result<(), AllocError>
        ensures { OnOk result (text.new.items
            ≡ text.old.items
            ++ (self.now.command.now ++ 32 ∷ self.now.name.now ++ behind_spaces self.now.numbers)) }
    {
        text.extend_from_slice(self.command)?;
        text.push(b' ')?;
        text.extend_from_slice(self.name)?;
        append_numbers(text, &self.numbers)
    }
}

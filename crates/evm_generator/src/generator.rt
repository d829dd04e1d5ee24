//! The lines of a script, one after another.

ghost use Rattle.std.specs.Prelude.{◌≡◌};
ghost use Rattle.evm_generator.specs.Script.{generated_lines};
ghost use Rattle.evm_generator.specs.Lines.{lines_left, Gives};

use super::draws::Draws;
use super::edit::Edit;
use evm_text::first_line;
use std::alloc::AllocError;

/// The lines before the edits: three inputs, and five formulas on them.
const FIRST_LINES: &[u8] =
    b"input a 3\ninput b 3\ninput c 3\ndef u or a b\ndef v sub u c\ndef p proj v 3\ndef s shift v 1 2 3\ndef w xor u s\n";

/// The lines behind the edits: measures of three of the formulas.
const LAST_LINES: &[u8] = b"content u\nboundary u\ncontent p\nboundary p\ncontent w\nboundary w\n";

/// The lines of a script that are still to come. It has some numbers and no memory of its own.
#[derive(Drop)]
pub struct Generator {
    first: &'static [u8],
    draws: Draws,
    edits: u32,
    last: &'static [u8],
}

impl Generator {
    /// The script of a seed and a number of edits: eight lines, then the edits, then six lines.
    pub fn new(seed: u64, edits: u32) -> Generator
        ensures { lines_left result ≡ generated_lines seed edits }
    {
        Generator {
            first: FIRST_LINES,
            draws: Draws::new(seed),
            edits,
            last: LAST_LINES,
        }
    }

    /// Appends the next line, without a line feed, and is true; or is false and does nothing where no line is left. It takes memory
    /// where the text has no room left for the line.
    ///
    /// # Errors
    ///
    /// `AllocError` where there is none for the text. The line is then still to come, and the text may have a front of it.
    pub fn line(&mut self, text: &mut Vec<u8>) -> Result<bool, AllocError>
        ensures { Gives result self.old self.new text.old.items text.new.items }
    {
        if let Some((line, rest)) = first_line(self.first) {
            text.extend_from_slice(line)?;
            self.first = rest;
            return Ok(true);
        }
        if self.edits > 0 {
            let mut draws = self.draws;
            let edit = Edit::next(&mut draws);
            edit.put(text)?;
            self.draws = draws;
            self.edits -= 1;
            return Ok(true);
        }
        if let Some((line, rest)) = first_line(self.last) {
            text.extend_from_slice(line)?;
            self.last = rest;
            return Ok(true);
        }
        Ok(false)
    }
}

//! The sequence of numbers that draws edits.

ghost use Rattle.std.specs.Prelude.{◌≡◌, ◌<◌, ◌+◌, ◌*◌, ◌%◌, pos};
ghost use Rattle.evm_generator.specs.Script.{first_number, next_number, number_behind, low, high};

/// Each number is 16807 times the one before, and of that what is left over 2147483647.
const MODULUS: u64 = 2147483647;

/// A place in the sequence of numbers: those behind it are still to be drawn.
#[derive(Clone, Copy)]
pub(crate) struct Draws {
    number: u64,
    ghost in_range: { number < 2147483647 },
}

impl Draws {
    /// The place that a seed gives.
    pub(crate) fn new(seed: u64) -> Draws
        ensures { result.number ≡ first_number seed }
    {
        Draws {
            number: 1 + seed % (MODULUS - 1),
        }
    }

    /// A number from 0 to `most - 1`, by the next number of the sequence.
    pub(crate) fn draw(&mut self, most: u64) -> u64
        requires { 0 < most }
        ensures value { result ≡ next_number self.old.number % most }
        ensures below { result < most }
        ensures place { self.new.number ≡ next_number self.old.number }
    {
        self.number = 16807 * self.number % MODULUS;
        self.number % most
    }

    /// The ends of a box along one axis, by two draws: they stand from 0 to 63, and the first below the second.
    pub(crate) fn ends(&mut self) -> (i32, i32)
        ensures low { result.0 ≡ pos (low 1 self.old.number) }
        ensures high { result.1 ≡ pos (high 1 self.old.number) }
        ensures place { self.new.number ≡ number_behind 2 self.old.number }
    {
        let low = self.draw(60);
        let length = 1 + self.draw(4);
        (low as i32, (low + length) as i32)
    }
}

//! Answers a generated script in a session of its own, and writes a summary of the replies.

ghost use Rattle.std.specs.Prelude.{◌≡◌, ◌+◌, ◌<◌, ◌^◌, ◌++◌, IfOk, OnOk, OnErr, Some, if◌then◌else◌, nat_lt, true};
ghost use Rattle.std.specs.FinMap as finite;
ghost use Rattle.evm_model.specs.Scene.{start};
ghost use Rattle.evm_outside.specs.Shelves.{is_file_name};
ghost use Rattle.evm_tool.specs.Generated.{RepliesTo, IsCounted, SoFar, Sums, StopsEarly, Generates, summary_by, RefusalsAreLacks, NoneRefusedWithMemory};
ghost use Rattle.evm_tool.specs.Top.{WriteFaults};

use super::send::send;
use super::top::Status;
use evm_generator::{Generator, generated_scripts_are_as_stated};
use evm_meter::{Meter, StockMeter};
use evm_outside::{FetchError, PlaceError, Shelf, Sink};
use evm_session::{NoMemory, Session};
use evm_steps::Steps;
use evm_text::append_count;
use std::alloc::Global;
use std::sync::ledger::Ledger;

/// A shelf without files, and without room for one: no line of a generated script asks it.
#[derive(Drop)]
struct NoFiles;

impl Shelf for NoFiles {
    ghost files = { λ s. Some finite.empty };

    ghost faults = { λ s. 0 };

    ghost misses = { λ s. 0 };

    fn fetch(&mut self, _alloc: Global, _name: &[u8]) -> Result<Vec<u8>, FetchError> {
        Err(FetchError::NoMemory)
    }

    fn place(&mut self, _alloc: Global, _name: &[u8], _bytes: &[u8]) -> Result<(), PlaceError> {
        Err(PlaceError::NoMemory)
    }
}

/// How many lines of a script come before those whose replies are kept, beside its edits.
const FIRST_LINES: usize = 8;

/// What is known of the replies so far.
#[derive(Drop)]
struct Tally {
    /// How many did not refuse.
    fine: usize,
    /// How many refused.
    refused: usize,
    /// The replies to the last lines.
    last: Vec<u8>,
}

impl Tally {
    /// Counts a reply, and keeps it where as many as are passed over came before.
    fn count(&mut self, fine: bool, reply: &[u8], passed_over: usize) -> Result<(), NoMemory>
        requires { self.old.fine + self.old.refused < 2 ^ 40 }
        ensures { OnOk result
            (IsCounted fine reply.now passed_over self.old.fine self.new.fine self.old.refused
            self.new.refused self.old.last.items self.new.last.items) }
    {
        if self.fine + self.refused >= passed_over {
            self.last.extend_from_slice(reply)?;
        }
        if fine {
            self.fine += 1;
        } else {
            self.refused += 1;
        }
        Ok(())
    }

    /// How a script with these replies ends.
    fn status(&self) -> Status
        ensures { result ≡ (if nat_lt 0 self.now.refused then Status.Refused else Status.Done) }
    {
        if self.refused > 0 {
            Status::Refused
        } else {
            Status::Done
        }
    }

    /// The summary: how many lines there were, how many were answered and how many refused, and the last replies.
    fn summary(&self, alloc: Global) -> Result<Vec<u8>, NoMemory>
        requires { self.now.fine + self.now.refused < 2 ^ 40 }
        ensures { IfOk result (λ text. text.items
            ≡ summary_by self.now.fine self.now.refused self.now.last.items) }
    {
        let mut text = Vec::new(alloc);
        text.extend_from_slice(b"lines ")?;
        append_count(&mut text, self.fine + self.refused)?;
        text.extend_from_slice(b"\nok ")?;
        append_count(&mut text, self.fine)?;
        text.extend_from_slice(b"\nno ")?;
        append_count(&mut text, self.refused)?;
        text.push(b'\n')?;
        text.extend_from_slice(self.last.as_slice())?;
        Ok(text)
    }
}

/// The reply to one line in place of the text, and whether it does not refuse. Want of memory is a reply too.
fn reply_to<M: Meter, L: Ledger>(
    alloc: Global,
    session: &mut Session<M>,
    line: &[u8],
    reply: &mut Vec<u8>,
    steps: &mut Steps<L>,
) -> Result<bool, NoMemory>
    ensures { RepliesTo result line.now session.old session.new reply.new.items
        steps.old steps.new }
{
    reply.clear();
    let mut shelf = NoFiles;
    match session.answer(alloc, line, &mut shelf, reply, steps) {
        Ok(fine) => Ok(fine),
        Err(NoMemory) => {
            reply.extend_from_slice(b"no memory\n")?;
            Ok(false)
        }
    }
}

/// Which lines of a generated script are refused.
///
/// - `just`: where memory was there at each of the eight lines before the edits, just those at which it was missing.
/// - `some`: some line exactly where memory was missing at some line.
fn generated_lines_lack_memory_alone()
    ensures just { RefusalsAreLacks }
    ensures some { NoneRefusedWithMemory }
{
    generated_scripts_are_as_stated();
}

/// Answers each line of a generated script in a new session.
fn tally_of<L: Ledger>(
    alloc: Global,
    seed: u64,
    edits: u32,
    steps: &mut Steps<L>,
) -> Result<Tally, NoMemory>
    ensures some { IfOk result (λ tally. Sums seed edits tally.fine tally.refused
        tally.last.items steps.old steps.new) }
    ensures none { OnErr result (StopsEarly seed edits steps.old steps.new) }
{
    generated_scripts_are_as_stated();
    let mut session: Session<StockMeter> = Session::new(alloc, Vec::new(alloc))?;
    let mut generator = Generator::new(seed, edits);
    let passed_over = edits as usize + FIRST_LINES;
    let mut tally = Tally {
        fine: 0,
        refused: 0,
        last: Vec::new(alloc),
    };
    let mut line = Vec::new(alloc);
    let mut reply = Vec::new(alloc);
    while generator.line(&mut line)? {
        let fine = reply_to(alloc, &mut session, line.as_slice(), &mut reply, steps)?;
        tally.count(fine, reply.as_slice(), passed_over)?;
        line.clear();
    }
    Ok(tally)
}

/// Answers a generated script in a session of its own, and writes the summary of its replies. Memory is taken before anything is
/// written.
pub fn answer_generated<O: Sink, L: Ledger>(
    alloc: Global,
    seed: u64,
    edits: u32,
    output: &mut O,
    steps: &mut Steps<L>,
) -> Status
    ensures text { Generates result seed edits (O.written output.old) (O.written output.new)
        steps.old steps.new }
    ensures faults { WriteFaults result (O.faults output.old) (O.faults output.new) }
{
    generated_lines_lack_memory_alone();
    let Ok(tally) = tally_of(alloc, seed, edits, steps) else {
        return Status::NoMemory;
    };
    let Ok(text) = tally.summary(alloc) else {
        return Status::NoMemory;
    };
    match send(output, text.as_slice()) {
        Err(_) => Status::WriteFault,
        Ok(()) => tally.status(),
    }
}

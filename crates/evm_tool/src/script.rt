//! Reads a script in pieces, and answers each of its lines as soon as an LF ends it.

ghost use Rattle.std.specs.Prelude.{◌≡◌, ◌+◌, length};
ghost use Rattle.evm_session.specs.Answers.{around};
ghost use Rattle.evm_tool.specs.Script.{Answered, ServesLast};
ghost use Rattle.evm_tool.specs.Served.{state_of};
ghost use Rattle.evm_tool.specs.Streams.{line_kept, piece_max};
ghost use Rattle.evm_tool.specs.Top.{ReadFaults, WriteFaults};

use super::answers::{answer_ended, serve};
use super::take::{PIECE, SCRIPT_LIMIT, keep, read_behind};
use super::top::Status;
use evm_meter::Meter;
use evm_outside::{Shelf, Sink, Source};
use evm_session::Session;
use evm_steps::Steps;
use std::alloc::Global;
use std::sync::ledger::Ledger;

/// Answers what follows the last LF, where some byte does, and says how the script was answered.
fn answer_last<O: Sink, S: Shelf, M: Meter, L: Ledger>(
    alloc: Global,
    session: &mut Session<M>,
    line: &[u8],
    refused: bool,
    shelf: &mut S,
    out: &mut Vec<u8>,
    output: &mut O,
    steps: &mut Steps<L>,
) -> Status
    ensures served { ServesLast result line.now refused
        (state_of session.old (O.written output.old)
        (around (S.files shelf.old) (S.faults shelf.old) (S.misses shelf.old) steps.old))
        (state_of session.new (O.written output.new)
        (around (S.files shelf.new) (S.faults shelf.new) (S.misses shelf.new) steps.new)) }
    ensures faults { WriteFaults result (O.faults output.old) (O.faults output.new) }
{
    let mut some = refused;
    if !line.is_empty() {
        let Ok(fine) = serve(alloc, session, line, shelf, out, output, steps) else {
            return Status::WriteFault;
        };
        some |= !fine;
    }
    if some { Status::Refused } else { Status::Done }
}

/// Answers the lines of a script, each before the next one and before more is read than the piece in which it ends.
///
/// Of a line that is not ended no more is kept than a line may have and two bytes: then it is too long, whatever follows.
pub fn answer_script<I: Source, O: Sink, S: Shelf, M: Meter, L: Ledger>(
    alloc: Global,
    session: &mut Session<M>,
    input: &mut I,
    buffer: &mut [u8],
    shelf: &mut S,
    out: &mut Vec<u8>,
    output: &mut O,
    steps: &mut Steps<L>,
) -> Status
    requires { length buffer.old ≡ line_kept + piece_max }
    ensures answered { Answered result (I.left input.old) (I.left input.new)
        (state_of session.old (O.written output.old)
        (around (S.files shelf.old) (S.faults shelf.old) (S.misses shelf.old) steps.old))
        (state_of session.new (O.written output.new)
        (around (S.files shelf.new) (S.faults shelf.new) (S.misses shelf.new) steps.new)) }
    ensures reads { ReadFaults result (I.faults input.old) (I.faults input.new) }
    ensures sends { WriteFaults result (O.faults output.old) (O.faults output.new) }
{
    let (mut taken, mut kept, mut refused) = (0, 0, false);
    while taken < SCRIPT_LIMIT {
        let want = PIECE.min(SCRIPT_LIMIT - taken);
        let Ok(count) = read_behind(input, buffer, kept, want) else {
            return Status::ReadFault;
        };
        if count == 0 {
            let line = &buffer[..kept];
            return answer_last(alloc, session, line, refused, shelf, out, output, steps);
        }
        let end = kept + count;
        let text = &buffer[..end];
        let Ok((left, some)) = answer_ended(alloc, session, text, shelf, out, output, steps) else {
            return Status::WriteFault;
        };
        taken += count;
        refused |= some;
        kept = keep(buffer, end, left);
    }
    let Ok(count) = read_behind(input, buffer, kept, 1) else {
        return Status::ReadFault;
    };
    if count == 0 {
        let line = &buffer[..kept];
        return answer_last(alloc, session, line, refused, shelf, out, output, steps);
    }
    Status::TooLong
}

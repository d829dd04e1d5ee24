//! The top call.

ghost use Rattle.std.specs.Prelude.{◌≡◌, map, IfSome, string_bytes};
ghost use Rattle.evm_session.specs.Answers.{around};
ghost use Rattle.evm_words.specs.Words.{form_of_words};
ghost use Rattle.evm_tool.specs.Top.{Runs, Does, TellsForm, ReadFaults, WriteFaults, Finishes, Completes, exit_code};

use super::generated::answer_generated;
use super::script::answer_script;
use super::take::new_buffer;
use evm_meter::Meter;
use evm_outside::{Shelf, Sink, Source};
use evm_session::Session;
use evm_steps::Steps;
use evm_words::{Form, WordsError, read_words};
use std::alloc::Global;
use std::sync::ledger::Ledger;

/// How a call of [`evm_main`] ended. The exit statuses are 0 to 6, in this order.
#[derive(Clone, Copy, Debug, PartialEq, Eq)]
pub enum Status {
    /// All lines were answered, and none was refused.
    Done,
    /// All lines were answered, and some were refused.
    Refused,
    /// The words ask for nothing that the program does.
    Words,
    /// The source failed. The lines that an LF ended before were answered, and what follows the last LF was not.
    ReadFault,
    /// The sink failed. The lines before were answered whole; of one more reply only a front was written, and its line was
    /// carried out.
    WriteFault,
    /// No memory was left for the buffers or the session. Nothing was read and no line was answered.
    NoMemory,
    /// The script is longer than a script may be. Of the bytes that it may have, the lines that an LF ends were answered.
    TooLong,
}

impl Status {
    /// The exit status of the program.
    pub fn code(self) -> u8
        ensures { result ≡ exit_code self }
    {
        match self {
            Status::Done => 0,
            Status::Refused => 1,
            Status::Words => 2,
            Status::ReadFault => 3,
            Status::WriteFault => 4,
            Status::NoMemory => 5,
            Status::TooLong => 6,
        }
    }
}

/// Answers the script of a source in a new session.
fn answer_input<I: Source, O: Sink, S: Shelf, M: Meter, L: Ledger>(
    alloc: Global,
    input: &mut I,
    output: &mut O,
    shelf: &mut S,
    meters: Vec<M>,
    steps: &mut Steps<L>,
) -> Status
    ensures run { Runs (map (λ m. M.kind m) meters.items) result
        (I.left input.old) (I.left input.new) (O.written output.old) (O.written output.new)
        (around (S.files shelf.old) (S.faults shelf.old) (S.misses shelf.old) steps.old)
        (around (S.files shelf.new) (S.faults shelf.new) (S.misses shelf.new) steps.new) }
    ensures words { result ≡ Status.Words → ⊥ }
    ensures reads { ReadFaults result (I.faults input.old) (I.faults input.new) }
    ensures sends { WriteFaults result (O.faults output.old) (O.faults output.new) }
    ensures complete { IfSome (I.left input.old) (λ script.
        Finishes result script
        (I.left input.old) (I.left input.new) (O.written output.old) (O.written output.new)
        (I.faults input.old) (I.faults input.new) (O.faults output.old) (O.faults output.new)) }
{
    let Ok(mut session) = Session::new(alloc, meters) else {
        return Status::NoMemory;
    };
    let Ok(mut buffer) = new_buffer(alloc) else {
        return Status::NoMemory;
    };
    let mut out = Vec::new(alloc);
    answer_script(
        alloc,
        &mut session,
        input,
        buffer.as_mut_slice(),
        shelf,
        &mut out,
        output,
        steps,
    )
}

/// Whatever script it is given, `evm run` answers each line, after every accepted or refused edit before it, exactly as its
/// formulas evaluated anew on sets of unit cells answer: vertices, content, boundary content, sections, projections and components;
/// a refused edit changes nothing; and two solids of one dimension are saved in equal bytes exactly if they are equal point sets.
///
/// Premises: a source, a sink or a shelf that tells nothing of its bytes leaves open which bytes were read, have arrived or lie
/// in files; only that the run is one of some bytes is then known. A count of faults that stands at the last value of its 64
/// bits does not rise. At any line memory may be missing.
///
/// `words` are those of the command line: the program's name, and `run`, or `gen` with its two options. `gen` answers a generated
/// script in a session of its own, without source and shelf, and writes the summary of its replies.
///
/// A script of `run` has at most
/// [`SCRIPT_LIMIT`](super::take::SCRIPT_LIMIT) bytes, and its lines end in LF or CR LF; the last may lack it. It is read in pieces
/// of at most [`PIECE`](super::take::PIECE) bytes. Each line is answered as soon as an LF ends it, and its reply is written whole
/// before the next line is answered or more is read. A line for which memory is missing has the reply `no memory`. Before the
/// first read memory is taken for the session and for a buffer of fixed size, which holds a piece and what is kept of the line
/// before it; then for the reply of a line and for what a line does.
///
/// `shelf` has the files of the lines `load` and `save`. A line saves to it before its reply is written.
///
/// `meters` have a slot each, counted from 0: the lines `meter`, `read` and `unmeter` hand them to names. Whatever meters are handed in,
/// with a reading or without, as long as they keep the contract of [`Meter`], what they read is the measure of their names' values.
///
/// `steps` counts the combinations of two sections that formulas take, line by line at most the model's work of the line: what grows
/// with the cuts near the change, and not with the solids.
pub fn evm_main<I: Source, O: Sink, S: Shelf, M: Meter, L: Ledger>(
    alloc: Global,
    words: &[String],
    input: &mut I,
    output: &mut O,
    shelf: &mut S,
    meters: Vec<M>,
    steps: &mut Steps<L>,
) -> Status
    // For `gen` there is a mark for each line of the generated script, none or that memory was missing, so that the summary of the
    // run with these marks was written whole at status 0 and 1, at 1 exactly where it refuses a line, which is exactly where
    // memory was missing at some line; a front of it at 4; nothing at 5; and no other status comes. For `run` some bytes were
    // taken, whatever the source tells of them, and the first k of their lines were answered in order, with exactly this number k
    // of marks: all at status 0 and 1; at 3 those that an LF ends; at 6 those that an LF ends among the bytes that a script may
    // have; at 4 those up to the one whose reply was cut, and at most one piece was taken after it; none at 2 and 5, at which no
    // byte was taken. Replies, files and the shelf's counts are those of the run of these k lines, each of which added at most its
    // work to the steps; so did the lines of the generated script, or, at 5, some of the first of them.
    ensures run { Does (form_of_words (map string_bytes words.now))
        (map (λ m. M.kind m) meters.items) result
        (I.left input.old) (I.left input.new) (O.written output.old) (O.written output.new)
        (around (S.files shelf.old) (S.faults shelf.old) (S.misses shelf.old) steps.old)
        (around (S.files shelf.new) (S.faults shelf.new) (S.misses shelf.new) steps.new) }
    // Status 2 comes exactly where the words ask for nothing, want of memory aside.
    ensures words { TellsForm result (form_of_words (map string_bytes words.now)) }
    // A fault is answered only where its count rose, and a count rises only then.
    ensures reads { ReadFaults result (I.faults input.old) (I.faults input.new) }
    ensures sends { WriteFaults result (O.faults output.old) (O.faults output.new) }
    // A run of a script that is not too long is answered, unless a count rose, or memory was missing before a byte was taken.
    ensures complete { IfSome (I.left input.old) (λ script.
        Completes result (form_of_words (map string_bytes words.now)) script
        (I.left input.old) (I.left input.new) (O.written output.old) (O.written output.new)
        (I.faults input.old) (I.faults input.new) (O.faults output.old) (O.faults output.new)) }
{
    match read_words(alloc, words) {
        Ok(Form::Run) => { answer_input(alloc, input, output, shelf, meters, steps) }
        Ok(Form::Gen { seed, edits }) => answer_generated(alloc, seed, edits, output, steps),
        Err(WordsError::NoForm) => Status::Words,
        Err(WordsError::NoMemory) => Status::NoMemory,
    }
}

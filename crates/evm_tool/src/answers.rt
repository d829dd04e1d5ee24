//! Answers the lines of a script.

ghost use Rattle.std.specs.Prelude.{◌≡◌, ◌<◌, ◌++◌, ◌∷◌, length, IfSome, MatchOption};
ghost use Rattle.std.specs.List.{position};
ghost use Rattle.evm_text.specs.Lines.{is_lf};
ghost use Rattle.evm_outside.specs.Causes.{HasCause};
ghost use Rattle.evm_session.specs.Answers.{around};
ghost use Rattle.evm_tool.specs.EndedLines.{HasNoLf};
ghost use Rattle.evm_tool.specs.Served.{Serves, AnswersEnded, state_of};

use super::send::send;
use evm_meter::Meter;
use evm_outside::{Failed, Shelf, Sink};
use evm_session::{NoMemory, Session};
use evm_steps::Steps;
use std::alloc::Global;
use std::sync::ledger::Ledger;

/// Answers one line, and says whether it was not refused. Want of memory is a reply too.
///
/// The reply is gathered in `out`, whose room is used again for the next line.
pub fn serve<O: Sink, S: Shelf, M: Meter, L: Ledger>(
    alloc: Global,
    session: &mut Session<M>,
    line: &[u8],
    shelf: &mut S,
    out: &mut Vec<u8>,
    output: &mut O,
    steps: &mut Steps<L>,
) -> Result<bool, Failed>
    ensures served { Serves result session.old session.new (O.written output.old) (O.written output.new) line.now
        (around (S.files shelf.old) (S.faults shelf.old) (S.misses shelf.old) steps.old)
        (around (S.files shelf.new) (S.faults shelf.new) (S.misses shelf.new) steps.new) }
    ensures cause { HasCause (O.faults output.old) (O.faults output.new) result }
{
    out.clear();
    match session.answer(alloc, line, shelf, out, steps) {
        Ok(fine) => {
            send(output, out.as_slice())?;
            Ok(fine)
        }
        Err(NoMemory) => {
            send(output, b"no memory\n")?;
            Ok(false)
        }
    }
}

/// Where the first LF stands.
fn first_lf(text: &[u8]) -> Option<usize>
    ensures place { result ≡ position is_lf text.now }
    ensures below { IfSome result (λ at. at < length text.now) }
{
    text.iter().position(|b| *b == b'\n')
}

/// The first line of a text that an LF ends, without it, and what follows it; or `None` exactly where the text has no LF.
fn first_ended(text: &[u8]) -> Option<(&[u8], &[u8])>
    ensures { MatchOption result (HasNoLf text.now)
        (λ cut. (text.now ≡ cut.0.now ++ 10 ∷ cut.1.now) × HasNoLf cut.0.now) }
{
    match first_lf(text) {
        Some(at) => Some((&text[..at], &text[at + 1..])),
        None => None,
    }
}

/// Answers each line of a text that an LF ends, and says how many bytes are left behind them, and whether some reply refuses.
pub fn answer_ended<O: Sink, S: Shelf, M: Meter, L: Ledger>(
    alloc: Global,
    session: &mut Session<M>,
    text: &[u8],
    shelf: &mut S,
    out: &mut Vec<u8>,
    output: &mut O,
    steps: &mut Steps<L>,
) -> Result<(usize, bool), Failed>
    ensures answered { AnswersEnded result text.now
        (state_of session.old (O.written output.old)
        (around (S.files shelf.old) (S.faults shelf.old) (S.misses shelf.old) steps.old))
        (state_of session.new (O.written output.new)
        (around (S.files shelf.new) (S.faults shelf.new) (S.misses shelf.new) steps.new)) }
    ensures cause { HasCause (O.faults output.old) (O.faults output.new) result }
{
    let mut refused = false;
    let mut rest = text;
    while let Some((line, after)) = first_ended(rest) {
        refused |= !serve(alloc, session, line, shelf, out, output, steps)?;
        rest = after;
    }
    Ok((rest.len(), refused))
}

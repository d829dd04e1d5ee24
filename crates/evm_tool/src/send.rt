//! Writes a piece whole.

ghost use Rattle.std.specs.Prelude.{OnOk, OnErr};
ghost use Rattle.std.specs.Io.KnownBytes.{Appends};
ghost use Rattle.evm_outside.specs.Causes.{HasCause};
ghost use Rattle.evm_tool.specs.Streams.{AppendsPart};

use evm_outside::{Failed, Sink};

/// Writes the whole piece, or only a front of it where the sink fails. Each write takes at least one byte.
pub fn send<O: Sink>(output: &mut O, piece: &[u8]) -> Result<(), Failed>
    ensures whole { OnOk result (Appends (O.written output.old) (O.written output.new) piece.now) }
    ensures part { OnErr result
        (AppendsPart (O.written output.old) (O.written output.new) piece.now) }
    ensures cause { HasCause (O.faults output.old) (O.faults output.new) result }
{
    let mut rest = piece;
    while !rest.is_empty() {
        let count = output.write(rest)?;
        rest = &rest[count..];
    }
    Ok(())
}

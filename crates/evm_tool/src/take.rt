//! The buffer in which a script is read: what is kept of a line that is not ended, and one piece behind it.

ghost use Rattle.std.specs.Prelude.{◌≡◌, ◌≤◌, ◌<◌, ◌+◌, ◌-◌, length, min, take, drop, IfOk, vec_len};
ghost use Rattle.evm_outside.specs.Causes.{HasCause};
ghost use Rattle.evm_tool.specs.Script.{ReadsBehind};
ghost use Rattle.evm_tool.specs.Streams.{line_kept, piece_max};

use evm_outside::{Failed, Source};
use std::alloc::{AllocError, Global};

/// The most bytes of a script.
pub const SCRIPT_LIMIT: usize = 67_108_864;

/// The most bytes that are read at once.
pub const PIECE: usize = 65_536;

/// The most bytes that are kept of a line that is not ended: one that has so many is too long, whatever follows.
pub const LINE_KEPT: usize = 4_098;

/// A buffer of so many bytes.
fn zeros(alloc: Global, count: usize) -> Result<Vec<u8>, AllocError>
    ensures { IfOk result (λ made. vec_len made ≡ count) }
{
    vec![in alloc; 0u8; count]
}

/// A buffer for what is kept of a line and for one piece.
pub fn new_buffer(alloc: Global) -> Result<Vec<u8>, AllocError>
    ensures { IfOk result (λ made. vec_len made ≡ line_kept + piece_max) }
{
    zeros(alloc, LINE_KEPT + PIECE)
}

/// Reads once, up to `want` bytes behind the first `kept`, and answers how many came: none only at the end.
pub fn read_behind<I: Source>(
    input: &mut I,
    buffer: &mut [u8],
    kept: usize,
    want: usize,
) -> Result<usize, Failed>
    requires room { kept + want ≤ length buffer.old }
    requires some { 0 < want }
    ensures size { length buffer.new ≡ length buffer.old }
    ensures bytes { ReadsBehind result kept want (I.left input.old) (I.left input.new) buffer.old buffer.new }
    ensures cause { HasCause (I.faults input.old) (I.faults input.new) result }
{
    input.read(&mut buffer[kept..kept + want])
}

/// Moves the last `left` of the first `end` bytes to the front, [`LINE_KEPT`] of them at most, and answers how many.
pub fn keep(buffer: &mut [u8], end: usize, left: usize) -> usize
    requires end { end ≤ length buffer.old }
    requires left { left ≤ end }
    ensures size { length buffer.new ≡ length buffer.old }
    ensures count { result ≡ min left line_kept }
    ensures bytes { take result buffer.new ≡ take result (drop (end - left) buffer.old) }
{
    let start = end - left;
    let kept = left.min(LINE_KEPT);
    buffer.copy_within(start..start + kept, 0);
    kept
}

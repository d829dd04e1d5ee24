//! Writes bodies: the couplets of a view, one after another, each with its height before it.
ghost use Rattle.std.specs.Prelude.{◌≡◌, ◌++◌, ◌<◌, ◌≤◌, ◌^◌, length, OnOk};
ghost use Rattle.byteorder.specs.Endian.{big_bytes};
ghost use Rattle.evm_rows.specs.View.{vertices_of};
ghost use Rattle.evm_formats.specs.FirstFile.{field};
ghost use Rattle.evm_formats.specs.RowBodies.{row_body};

use byteorder::{BigEndian, ByteOrder};
use evm_rows::Rows;
use evm_sections::{Marks, Walk};
use std::alloc::AllocError;

/// Appends a count.
fn append_count(out: &mut Vec<u8>, count: u32) -> Result<(), AllocError>
    ensures { OnOk result (out.new.items ≡ out.old.items ++ big_bytes 4 count) }
{
    let mut bytes = [0; 4];
    BigEndian::write_u32(&mut bytes, count);
    out.extend_from_slice(&bytes)
}

/// Appends a height or a coordinate.
fn append_field(out: &mut Vec<u8>, at: i32) -> Result<(), AllocError>
    ensures { OnOk result (out.new.items ≡ out.old.items ++ field at) }
{
    let mut bytes = [0; 4];
    BigEndian::write_i32(&mut bytes, at);
    out.extend_from_slice(&bytes)
}

/// The number of couplets that are left to a walk.
fn count_couplets(walk: Walk<'_>) -> u32
    requires { length walk.left < 2 ^ 32 }
    ensures { result ≡ length walk.entry.left }
{
    let mut ahead = walk;
    let mut count = 0;
    while let Some(_) = ahead.next_couplet() {
        count += 1;
    }
    count
}

/// Appends the body of a view. Takes memory only where `out` has no room left.
pub fn append_body(a: Rows<'_>, out: &mut Vec<u8>) -> Result<(), AllocError>
    ensures { OnOk result
        (out.new.items
        ≡ out.old.items ++ row_body (vertices_of a.entry).dim (vertices_of a.entry).rows) }
{
    if a.dim() == 1 {
        return append_line(a, out);
    }
    let mut walk = Walk::of(a);
    append_count(out, count_couplets(walk.again()))?;
    while let Some((height, couplet)) = walk.next_couplet() {
        append_field(out, height)?;
        append_body(couplet, out)?;
    }
    Ok(())
}

/// The same of a view of dimension 1: its body is the number of its rows, and their coordinates.
fn append_line(a: Rows<'_>, out: &mut Vec<u8>) -> Result<(), AllocError>
    requires { (vertices_of a).dim ≡ 1 }
    ensures { OnOk result
        (out.new.items
        ≡ out.old.items ++ row_body (vertices_of a.entry).dim (vertices_of a.entry).rows) }
{
    append_count(out, a.len() as u32)?;
    let mut marks = Marks::of(a);
    while let Some(at) = marks.height() {
        append_field(out, at)?;
        marks.step();
    }
    Ok(())
}

//! Appends replies. Where memory ends, a part of a reply may stand behind what was there.

ghost use Rattle.std.specs.Prelude.{◌≡◌, ◌++◌, ◌∷◌, [], ◌+◌, ◌<◌, ◌≤◌, codes, decimal, length, OnOk, vec_len, vec_capacity};
ghost use Rattle.std.specs.Fmt.{signed_decimal};
ghost use Rattle.evm_model.specs.Replies.{line_of, spaced, rows_text, reply_text, Changed, Done, Measured, Shown};
ghost use Rattle.evm_rows.specs.View.{vertices_of};
ghost use Rattle.evm_formulas.specs.Stated.{figure_of};
ghost use Rattle.evm_session.specs.Says.{Says, behind_spaces};
ghost use Rattle.evm_session.specs.Counted.{cut_line, cuts_reply, part_lines, parts_reply};

use evm_faces::CutFaces;
use evm_measure::content;
use evm_parts::Parts;
use evm_rows::{NoMemory, Rows, Solid, split_row};
use itoa::Buffer;
use std::alloc::Global;

/// Appends a text.
pub fn say(out: &mut Vec<u8>, text: &[u8]) -> Result<(), NoMemory>
    ensures { Says result out.old.items out.new.items text.now }
{
    out.extend_from_slice(text)?;
    Ok(())
}

/// Appends a count in decimal.
pub fn say_count(out: &mut Vec<u8>, count: u128) -> Result<(), NoMemory>
    ensures { Says result out.old.items out.new.items (decimal count) }
{
    let mut digits = Buffer::new();
    say(out, digits.format(count).as_bytes())
}

/// Appends a coordinate in decimal.
fn say_coordinate(out: &mut Vec<u8>, x: i32) -> Result<(), NoMemory>
    ensures { Says result out.old.items out.new.items (signed_decimal x) }
{
    let mut digits = Buffer::new();
    say(out, digits.format(x).as_bytes())
}

/// Appends the reply `ok N`.
pub fn say_number(out: &mut Vec<u8>, n: u128) -> Result<(), NoMemory>
    ensures { Says result out.old.items out.new.items (line_of (codes "ok " ++ decimal n)) }
{
    say(out, b"ok ")?;
    say_count(out, n)?;
    say(out, b"\n")
}

/// At least the bytes of the reply `ok N` for a number of 128 bits, which are `ok `, at most 39 digits and LF.
const NUMBER_BYTES: usize = 48;

/// Reserves the room for the reply `ok N`, or `ok`.
pub fn reserve_number(out: &mut Vec<u8>) -> Result<(), NoMemory>
    ensures items { out.new.items ≡ out.old.items }
    ensures room { OnOk result (vec_len out.new + NUMBER_BYTES ≤ vec_capacity out.new) }
{
    out.reserve(NUMBER_BYTES)?;
    Ok(())
}

/// Appends a text for which there is room.
fn put(out: &mut Vec<u8>, text: &[u8])
    requires { vec_len out.old + length text.now ≤ vec_capacity out.old }
    ensures items { out.new.items ≡ out.old.items ++ text.now }
    ensures len { vec_len out.new ≡ vec_len out.old + length text.now }
    ensures room { vec_capacity out.old ≤ vec_capacity out.new }
{
    if out.extend_from_slice(text).is_err() {
        unreachable!()
    }
}

/// Appends the reply `ok N`, where its room was reserved. Takes no memory.
pub fn put_number(out: &mut Vec<u8>, n: u128)
    requires { vec_len out.old + NUMBER_BYTES ≤ vec_capacity out.old }
    ensures changed { out.new.items ≡ out.old.items ++ reply_text (Changed n) }
    ensures measured { out.new.items ≡ out.old.items ++ reply_text (Measured n) }
{
    let mut digits = Buffer::new();
    put(out, b"ok ");
    put(out, digits.format(n).as_bytes());
    put(out, b"\n");
}

/// Appends the reply `ok`, where its room was reserved. Takes no memory.
#[tactic(auto, unfolding(evm_model::specs::Replies::reply_text))]
pub fn put_done(out: &mut Vec<u8>)
    requires { vec_len out.old + NUMBER_BYTES ≤ vec_capacity out.old }
    ensures { out.new.items ≡ out.old.items ++ reply_text Done }
{
    put(out, b"ok\n");
}

/// Appends a coordinate behind a space.
fn say_behind_space(out: &mut Vec<u8>, x: i32) -> Result<(), NoMemory>
    ensures { Says result out.old.items out.new.items (32 ∷ signed_decimal x) }
{
    say(out, b" ")?;
    say_coordinate(out, x)
}

/// Appends each coordinate behind a space.
fn say_behind_spaces(out: &mut Vec<u8>, coordinates: &[i32]) -> Result<(), NoMemory>
    ensures { Says result out.old.items out.new.items (behind_spaces coordinates.now) }
{
    for x in coordinates {
        say_behind_space(out, *x)?;
    }
    Ok(())
}

/// Appends a row: its coordinates with a space between each two, and LF.
fn say_row(out: &mut Vec<u8>, row: &[i32]) -> Result<(), NoMemory>
    ensures { Says result out.old.items out.new.items (line_of (spaced row.now)) }
{
    match row.split_first() {
        None => say(out, b"\n"),
        Some((first, rest)) => {
            say_coordinate(out, *first)?;
            say_behind_spaces(out, rest)?;
            say(out, b"\n")
        }
    }
}

/// The most bytes of a coordinate in a reply, with the space or LF behind it: `-1073741824` and one more.
const COORDINATE_BYTES: usize = 12;

/// Appends each row as a line. The room for them is reserved once.
fn say_rows(out: &mut Vec<u8>, rows: Rows<'_>) -> Result<(), NoMemory>
    ensures { Says result out.old.items out.new.items (rows_text (vertices_of rows.entry).rows) }
{
    out.reserve(rows.flat.len().saturating_mul(COORDINATE_BYTES))?;
    let mut left = rows.flat;
    while left.len() != 0 {
        let (row, rest) = split_row(left, rows.width, rows.skip);
        say_row(out, row)?;
        left = rest;
    }
    Ok(())
}

/// Appends the reply `ok n COUNT`, and the rows, each as a line.
pub fn say_solid(out: &mut Vec<u8>, solid: &Solid) -> Result<(), NoMemory>
    ensures { Says result out.old.items out.new.items (reply_text (Shown (figure_of solid.now))) }
{
    solid.facts();
    say(out, b"ok ")?;
    say_count(out, solid.dim() as u128)?;
    say(out, b" ")?;
    say_count(out, solid.len() as u128)?;
    say(out, b"\n")?;
    say_rows(out, solid.rows())
}

/// Appends the line of a part, with the number of its extreme vertices and its content, and then its rows.
fn say_part(out: &mut Vec<u8>, alloc: Global, part: Rows<'_>) -> Result<(), NoMemory>
    ensures { Says result out.old.items out.new.items (part_lines (vertices_of part.entry)) }
{
    let cells = content(alloc, part)?;
    say(out, b"part ")?;
    say_count(out, part.len() as u128)?;
    say(out, b" ")?;
    say_count(out, cells)?;
    say(out, b"\n")?;
    say_rows(out, part)
}

/// Appends the reply `ok COUNT`, and each part with its rows.
pub fn say_parts(out: &mut Vec<u8>, alloc: Global, parts: &Parts) -> Result<(), NoMemory>
    ensures { Says result out.old.items out.new.items
        (parts_reply parts.now.dim parts.now.parts) }
{
    say_number(out, parts.len() as u128)?;
    for index in 0..parts.len() {
        say_part(out, alloc, parts.rows(index))?;
    }
    Ok(())
}

/// Appends the line of a cut: its height, how much rises there and how much falls.
fn say_cut(out: &mut Vec<u8>, cut: &CutFaces) -> Result<(), NoMemory>
    ensures { Says result out.old.items out.new.items (cut_line cut.now) }
{
    say_coordinate(out, cut.at)?;
    say(out, b" ")?;
    say_count(out, cut.rises)?;
    say(out, b" ")?;
    say_count(out, cut.falls)?;
    say(out, b"\n")
}

/// The most bytes of the line of a cut whose numbers have at most 40 digits.
const CUT_BYTES: usize = 96;

/// Appends the reply `ok COUNT`, and the line of each cut. The room for them is reserved once.
pub fn say_cuts(out: &mut Vec<u8>, cuts: &[CutFaces]) -> Result<(), NoMemory>
    ensures { Says result out.old.items out.new.items (cuts_reply cuts.now) }
{
    out.reserve(cuts.len().saturating_mul(CUT_BYTES))?;
    say_number(out, cuts.len() as u128)?;
    for cut in cuts {
        say_cut(out, cut)?;
    }
    Ok(())
}

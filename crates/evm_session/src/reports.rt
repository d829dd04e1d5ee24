//! The text of the report on the solid of a name.

ghost use Rattle.std.specs.Prelude.{◌≡◌, ◌<◌, length, map, option_map, string_bytes, IfOk};
ghost use Rattle.evm_report.specs.Report.{report_text};
ghost use Rattle.evm_script.specs.Operands.{names_in};
ghost use Rattle.evm_model.specs.Reports.{axis_end, ends_of};
ghost use Rattle.evm_session.specs.Reported.{pick_of, kind_by, operands_by, facts_with};

use evm_cutting::{boundary, content};
use evm_parts::parts;
use evm_report::{Report, report_text};
use evm_rows::{NoMemory, Solid};
use evm_script::{Formula, Name, Operands};
use itoa::Buffer;
use std::alloc::Global;
use std::str;

/// Which end of the coordinates on an axis.
#[derive(Clone, Copy)]
enum End {
    /// The least.
    Low,
    /// The greatest.
    High,
}

impl End {
    /// The one of two numbers that is nearer to this end.
    fn pick(self, x: i32, y: i32) -> i32
        ensures { result ≡ pick_of self x y }
    {
        let takes = match self {
            End::Low => y < x,
            End::High => x < y,
        };
        if takes { y } else { x }
    }
}

/// The end of the coordinates of all vertices on an axis, counted from 0.
fn end_on(solid: &Solid, end: End, axis: usize) -> i32
    requires some { 0 < length solid.now.rows }
    requires high { axis < solid.now.dim }
    ensures { result ≡ axis_end (pick_of end) axis solid.now.rows }
{
    solid.facts();
    let mut found = solid.coord(0, axis + 1);
    for row in 1..solid.len() {
        found = end.pick(found, solid.coord(row, axis + 1));
    }
    found
}

/// The end on each axis; none where there is no vertex.
fn ends_on(alloc: Global, solid: &Solid, end: End) -> Result<Vec<i32>, NoMemory>
    ensures { IfOk result (λ v. v.items ≡ ends_of (pick_of end) solid.now.dim solid.now.rows) }
{
    let mut ends = Vec::new(alloc);
    if solid.len() == 0 {
        return Ok(ends);
    }
    for axis in 0..solid.dim() {
        ends.push(end_on(solid, end, axis))?;
    }
    Ok(ends)
}

/// The text of a name.
fn text_of(name: &Name) -> &str
    ensures { result.now ≡ name.now }
{
    match str::from_utf8(name.bytes()) {
        Ok(text) => text,
        Err(_) => unreachable!(),
    }
}

/// The word of a formula's operator, or `input` where there is no formula.
fn kind_of(formula: Option<&Formula>) -> &'static str
    ensures { result.now ≡ kind_by (option_map (λ f. f.now) formula.entry) }
{
    match formula {
        None => "input",
        Some(Formula::Or { .. }) => "or",
        Some(Formula::And { .. }) => "and",
        Some(Formula::Sub { .. }) => "sub",
        Some(Formula::Xor { .. }) => "xor",
        Some(Formula::Box { .. }) => "box",
        Some(Formula::Shift { .. }) => "shift",
        Some(Formula::Mirror { .. }) => "mirror",
        Some(Formula::Swap { .. }) => "swap",
        Some(Formula::Clip { .. }) => "clip",
        Some(Formula::Slice { .. }) => "slice",
        Some(Formula::Proj { .. }) => "proj",
        Some(Formula::Lift { .. }) => "lift",
    }
}

/// The operands of a formula; none where there is no formula.
fn operands_of(formula: Option<&Formula>) -> Operands
    ensures { names_in result ≡ operands_by (option_map (λ f. f.now) formula.entry) }
{
    match formula {
        Some(formula) => formula.operands(),
        None => Operands::None,
    }
}

/// The texts of the names of operands.
fn texts_of(alloc: Global, operands: &Operands) -> Result<Vec<&str>, NoMemory>
    ensures { IfOk result (λ v. map (λ n. n.now) v.items ≡ names_in operands.now) }
{
    let mut texts = Vec::new(alloc);
    match operands {
        Operands::Two(a, b) => {
            texts.push(text_of(a))?;
            texts.push(text_of(b))?;
        }
        Operands::One(a) => texts.push(text_of(a))?,
        Operands::None => {}
    }
    Ok(texts)
}

/// The text of the report on a solid under a name.
pub fn text_on(
    alloc: Global,
    name: &Name,
    formula: Option<&Formula>,
    solid: &Solid,
) -> Result<String, NoMemory>
    ensures { IfOk result (λ text. string_bytes text
        ≡ report_text (facts_with name.now (option_map (λ f. f.now) formula.entry) solid.now)) }
{
    solid.facts();
    let cells = content(alloc, solid.rows())?;
    let faces = boundary(alloc, solid.rows())?;
    let parts = parts(alloc, solid.rows())?;
    let low = ends_on(alloc, solid, End::Low)?;
    let high = ends_on(alloc, solid, End::High)?;
    let read = operands_of(formula);
    let operands = texts_of(alloc, &read)?;
    let mut cell_digits = Buffer::new();
    let mut face_digits = Buffer::new();
    let report = Report {
        name: text_of(name),
        kind: kind_of(formula),
        operands: operands.as_slice(),
        dim: solid.dim() as u64,
        vertices: solid.len() as u64,
        content: cell_digits.format(cells),
        boundary: face_digits.format(faces),
        parts: parts.len() as u64,
        low: low.as_slice(),
        high: high.as_slice(),
    };
    let text = report_text(alloc, &report)?;
    Ok(text)
}

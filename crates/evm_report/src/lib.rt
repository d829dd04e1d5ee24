//! The text of a report on a solid: one JSON object, without spaces.
#![tactic(auto)]

ghost use Rattle.std.specs.Prelude.{◌≡◌, IfOk, map, string_bytes};
ghost use Rattle.serde_json.specs.View.{view};
ghost use Rattle.evm_report.specs.Report.{coordinates, names, facts_of, report_data, report_text};

#[cfg(test)]
mod tests;

use serde_json::{Value, json};
use std::alloc::{AllocError, Global};

/// What a report says of a solid.
#[derive(Drop)]
pub struct Report<'a> {
    /// The name.
    pub name: &'a str,
    /// The word `input`, or that of the operator.
    pub kind: &'a str,
    /// The operands' names, in the order in which they are written.
    pub operands: &'a [&'a str],
    /// The dimension.
    pub dim: u64,
    /// The number of extreme vertices.
    pub vertices: u64,
    /// The content in digits.
    pub content: &'a str,
    /// The boundary content in digits.
    pub boundary: &'a str,
    /// The number of parts.
    pub parts: u64,
    /// The least coordinate of a vertex on each axis; empty for an empty solid.
    pub low: &'a [i32],
    /// The greatest coordinate of a vertex on each axis; empty for an empty solid.
    pub high: &'a [i32],
}

/// Coordinates as an array of numbers.
fn coordinates(alloc: Global, numbers: &[i32]) -> Result<Value, AllocError>
    ensures { IfOk result (λ v. view v ≡ coordinates numbers.now) }
{
    let mut values = Vec::new(alloc);
    for number in numbers {
        values.push(Value::from(*number))?;
    }
    Ok(Value::Array(values))
}

/// Names as an array of texts.
fn names(alloc: Global, texts: &[&str]) -> Result<Value, AllocError>
    ensures { IfOk result (λ v. view v ≡ names (map (λ n. n.now) texts.now)) }
{
    let mut values = Vec::new(alloc);
    for text in texts {
        values.push(Value::String(String::from_str(alloc, text)?))?;
    }
    Ok(Value::Array(values))
}

/// The text of a report: a JSON object without spaces, its keys in the order of the alphabet. Contents are texts of digits.
///
/// It takes memory for the object and the text.
///
/// # Errors
///
/// `AllocError` where there is no memory for them.
pub fn report_text(alloc: Global, report: &Report) -> Result<String, AllocError>
    ensures { IfOk result (λ text. string_bytes text ≡ report_text (facts_of report.now)) }
{
    let value = report_value(alloc, report)?;
    value.to_string(alloc)
}

/// The object of a report.
fn report_value(alloc: Global, report: &Report) -> Result<Value, AllocError>
    ensures { IfOk result (λ v. view v ≡ report_data (facts_of report.now)) }
{
    let low = coordinates(alloc, report.low)?;
    let high = coordinates(alloc, report.high)?;
    let operands = names(alloc, report.operands)?;
    json!(in alloc; {
        "boundary": report.boundary,
        "content": report.content,
        "dim": report.dim,
        "high": high,
        "kind": report.kind,
        "low": low,
        "name": report.name,
        "operands": operands,
        "parts": report.parts,
        "vertices": report.vertices
    })
}

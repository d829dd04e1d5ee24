//! The program `evm`: `evm run` answers a script of edits and questions on solids, line by line; `evm gen` a script made of a number.
//!
//! The script comes from standard input and the replies go to standard output; files are those of the current folder. All
//! that the program does is in [`evm_main`], over any source, sink and shelf of files; `main` makes the real ones.
#![tactic(auto)]

ghost use Rattle.std.specs.Prelude.{◌≡◌, ◌<◌, ◌∷◌, [], map, IfOk};
ghost use Rattle.evm_cells.specs.Localities.{Content, Boundary, VertexCount};
ghost use Rattle.evm_meter.specs.Meters.{measure_named};

mod answers;
mod generated;
mod script;
mod send;
mod take;
#[cfg(test)]
mod tests;
mod top;

use evm_meter::StockMeter;
use evm_outside::{FolderShelf, StdSink, StdSource};
use evm_steps::Steps;
use std::alloc::{AllocError, Global};
use std::env;
use std::io::ErrorKind;
use std::marker::Brand;
use std::process::ExitCode;
use std::sync::ledger::{Blank, Ledger};
use top::{Status, evm_main};

/// The words of the command line. A word that is not UTF-8 makes no run.
fn words_of(rt: &HostRuntime) -> Result<Vec<String>, Status> {
    let args = match env::args(rt) {
        Ok(args) => args,
        Err(error) if error.kind() == ErrorKind::OutOfMemory => return Err(Status::NoMemory),
        Err(_) => return Err(Status::Words),
    };
    match args.collect(rt.alloc()) {
        Ok(words) => Ok(words),
        Err(_) => Err(Status::NoMemory),
    }
}

/// The meters of the program: two of each kind, so that slots 0 and 3 read content, 1 and 4 boundary content, 2 and 5 the number of
/// extreme vertices.
fn stock_meters(alloc: Global) -> Result<Vec<StockMeter>, AllocError>
    ensures { IfOk result (λ made. map (λ m. measure_named m.kind) made.items
        ≡ Content ∷ Boundary ∷ VertexCount ∷ Content ∷ Boundary ∷ VertexCount ∷ []) }
{
    Ok(vec![in alloc;
        StockMeter::content(),
        StockMeter::boundary(),
        StockMeter::vertices(),
        StockMeter::content(),
        StockMeter::boundary(),
        StockMeter::vertices(),
    ]?)
}

/// Runs the program over its real source, sink, shelf and meters, with its steps counted from none.
fn run_counted<L: Ledger>(rt: &HostRuntime, blank: Blank) -> Status
    requires name { blank.name ≡ L.name }
    requires parts { blank.parts ≡ L.parts }
    requires some { 0 < L.parts }
{
    let words = match words_of(rt) {
        Ok(words) => words,
        Err(status) => return status,
    };
    let Ok(meters) = stock_meters(rt.alloc()) else {
        return Status::NoMemory;
    };
    let mut input = StdSource::new(rt.stdin());
    let mut output = StdSink::new(rt.stdout());
    let mut shelf = FolderShelf::new(rt);
    let mut steps: Steps<L> = Steps::start(blank);
    evm_main(
        rt.alloc(),
        words.as_slice(),
        &mut input,
        &mut output,
        &mut shelf,
        meters,
        &mut steps,
    )
}

fn main(rt: HostRuntime) -> ExitCode {
    let status = run_counted::<Brand>(&rt, Blank::new(1));
    if status == Status::Words {
        let _ = eprintln!(rt; "usage: evm run | evm gen --seed S --edits N");
    }
    ExitCode::from(status.code())
}

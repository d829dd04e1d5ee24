//! Runs with meters: those of the program, one that counts in another way, and one that has no memory at a stated call.

ghost use Rattle.evm_cells.specs.Localities.{VertexCount};

use super::super::top::Status;
use super::{expect, expect_with, no_files};
use evm_meter::{FailingMeter, Kind, Meter};
use evm_rows::{NoMemory, Rows};
use std::alloc::{AllocError, Global};
use std::test::Fail;

/// A meter of the number of extreme vertices that counts rows one by one, and adds what the parts of a change differ by.
#[derive(Drop)]
struct RowCounter {
    reading: Option<usize>,
    pending: Option<usize>,
}

impl Meter for RowCounter {
    ghost kind = { λ m. VertexCount };

    ghost reading = { λ m. m.reading };

    ghost pending = { λ m. m.pending };

    fn kind(&self) -> Kind {
        Kind::Vertices
    }

    fn begin(&mut self, _alloc: Global, solid: Rows<'_>) -> Result<(), NoMemory> {
        let mut count = 0;
        while count < solid.len() {
            count += 1;
        }
        self.reading = Some(count);
        self.pending = None;
        Ok(())
    }

    fn prepare(
        &mut self,
        _alloc: Global,
        before: Rows<'_>,
        _gained: Rows<'_>,
        _lost: Rows<'_>,
        after: Rows<'_>,
    ) -> Result<(), NoMemory> {
        let Some(reading) = self.reading else {
            return Err(NoMemory);
        };
        let Some(more) = reading.checked_add(after.len()) else {
            return Err(NoMemory);
        };
        self.pending = Some(more.saturating_sub(before.len()));
        Ok(())
    }

    fn commit(&mut self) {
        self.reading = self.pending.take();
    }

    fn abandon(&mut self) {
        self.pending = None;
    }

    fn read(&self) -> i128 {
        let Some(reading) = self.reading else {
            unreachable!();
        };
        reading as i128
    }
}

/// One meter that counts rows, and comes with readings of its own.
fn row_counters(alloc: Global) -> Result<Vec<RowCounter>, AllocError> {
    Ok(vec![in alloc;
        RowCounter {
            reading: Some(7),
            pending: Some(8)
        },
    ]?)
}

/// Two meters of content. The first has no memory at its second call of `begin` or `prepare`, the second always has some.
fn failing_meters(alloc: Global) -> Result<Vec<FailingMeter>, AllocError> {
    let second = vec![in alloc; 1usize]?;
    Ok(vec![in alloc;
        FailingMeter::new(Kind::Content, second),
        FailingMeter::new(Kind::Content, Vec::new(alloc)),
    ]?)
}

/// Scripts for the meters of the program, of which some lines are refused, and the replies.
const STOCK: [(&str, &str); 3] = [
    (
        "input a 2 / toggle a 0 0 2 2 / def f or a a / read 0",
        "ok 0 / ok 1 / ok 0 / no meter",
    ),
    (
        "input a 2 / add a 0 0 2 2 / input b 2 / add b 1 1 3 3 / def c and a b / meter 0 c / read 0 / cut b 1 1 2 2 / cut b 9 9 8 8 / read 0 / drop c / unmeter 0 / read 0 / meter 0 c / drop c",
        "ok 0 / ok 1 / ok 0 / ok 1 / ok 0 / ok 1 / ok 1 / ok 2 / no range / ok 0 / no used / ok / no meter / no meter / ok 0",
    ),
    (
        "input a 2 / toggle a 0 0 2 2 / def s shift a 1073741816 0 / meter 0 a / meter 1 s / add a 7 0 9 1 / read 0 / read 1 / read 6 / meter 0 s",
        "ok 0 / ok 1 / ok 0 / ok 4 / ok 8 / no range / ok 4 / ok 8 / no meter / no meter",
    ),
];

#[test]
fn meters_read_what_their_names_measure(rt: HostRuntime) -> Result<(), Fail> {
    let alloc = rt.alloc();
    for (script, replies) in STOCK {
        expect(&rt, &mut no_files(alloc), script, replies, Status::Refused)?;
    }
    Ok(())
}

#[test]
fn any_meters_are_taken_and_one_that_fails_changes_nothing(rt: HostRuntime) -> Result<(), Fail> {
    let alloc = rt.alloc();
    expect_with(
        &rt,
        &mut no_files(alloc),
        row_counters(alloc)?,
        "input a 2 / read 0 / meter 0 a / add a 0 0 1 1 / add a 1 0 2 1 / add a 0 1 1 2 / read 0",
        "ok 0 / no meter / ok 0 / ok 1 / ok 1 / ok 1 / ok 6",
        Status::Refused,
    )?;
    expect_with(
        &rt,
        &mut no_files(alloc),
        failing_meters(alloc)?,
        "input a 2 / add a 0 0 2 2 / input b 2 / add b 1 1 3 3 / def c and a b / meter 0 c / meter 1 b / cut b 1 1 2 2 / content c / read 0 / read 1 / cut b 1 1 2 2 / read 0 / read 1",
        "ok 0 / ok 1 / ok 0 / ok 1 / ok 0 / ok 1 / ok 4 / no memory / ok 1 / ok 1 / ok 4 / ok 2 / ok 0 / ok 3",
        Status::Refused,
    )
}

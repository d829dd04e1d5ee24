//! The meters that measure anew what they are handed.

ghost use Rattle.std.specs.Prelude.{◌≡◌, ◌<◌, ◌+◌, ◌^◌, ℕ, true, pos, None, Some, is_some, option_map, IfOk, OnOk, OnErr};
ghost use Rattle.evm_rows.specs.View.{vertices_of};
ghost use Rattle.evm_meter.specs.Meters.{measure_named, measured, IsLess, IsNearChange, is_few, moved_by};

use super::meter::{Kind, Meter};
use evm_rows::{NoMemory, Rows};
use std::alloc::Global;

/// A meter that measures the parts of a change anew, and keeps the sum. It keeps no rows: its two readings are numbers.
///
/// To begin takes the memory of a measure of the whole solid, and to prepare that of two measures, one after the other: for content of
/// what goes and what comes, for boundary content of the part before a change and the part after it, two sections a level of the
/// dimension, as `evm_measure` says; for the number of extreme vertices none. It is given back before the call returns. No reading
/// overflows: each is below `2^127`.
#[derive(Drop)]
pub struct StockMeter {
    /// What it measures.
    kind: Kind,
    /// The reading, where it began.
    reading: Option<u128>,
    /// The reading after a change that was prepared.
    pending: Option<u128>,
    ghost few: { is_few reading ≡ true },
    ghost few_pending: { is_few pending ≡ true },
}

// The measure of this kind of the cells that a view shows.
fn reading_of(kind: Kind, alloc: Global, solid: Rows<'_>) -> Result<u128, NoMemory>
    ensures measure { IfOk result
        (λ n. n ≡ measured (measure_named kind) (vertices_of solid.entry)) }
    ensures few { IfOk result (λ n. n < 2 ^ 127) }
{
    match kind {
        Kind::Content => evm_measure::content(alloc, solid),
        Kind::Boundary => evm_measure::boundary(alloc, solid),
        Kind::Vertices => Ok(solid.len() as u128),
    }
}

// By how much a reading shrinks and grows at a change. The content shrinks by what goes and grows by what comes, which are no larger
// than the change; of the other kinds the whole parts are measured.
fn change_of(
    kind: Kind,
    alloc: Global,
    before: Rows<'_>,
    gained: Rows<'_>,
    lost: Rows<'_>,
    after: Rows<'_>,
) -> Result<(u128, u128), NoMemory>
    requires gained { IsLess (vertices_of after) (vertices_of before) (vertices_of gained) }
    requires lost { IsLess (vertices_of before) (vertices_of after) (vertices_of lost) }
    requires same_dim { (vertices_of after).dim ≡ (vertices_of before).dim }
    ensures change { IfOk result
        (λ by. by.1 + measured (measure_named kind) (vertices_of before.entry)
        ≡ by.0 + measured (measure_named kind) (vertices_of after.entry)) }
    ensures few { IfOk result (λ by. by.1 < 2 ^ 127) }
{
    match kind {
        Kind::Content => {
            let less = reading_of(kind, alloc, lost)?;
            let more = reading_of(kind, alloc, gained)?;
            Ok((less, more))
        }
        Kind::Boundary | Kind::Vertices => {
            let less = reading_of(kind, alloc, before)?;
            let more = reading_of(kind, alloc, after)?;
            Ok((less, more))
        }
    }
}

impl StockMeter {
    /// A meter of this kind, without a reading. Takes no memory.
    pub fn new(kind: Kind) -> StockMeter
        ensures kind { result.kind ≡ kind }
        ensures reading { result.reading ≡ None }
        ensures pending { result.pending ≡ None }
    {
        StockMeter {
            kind,
            reading: None,
            pending: None,
        }
    }

    /// A meter of the content: of the number of cells. It has no reading. Takes no memory.
    pub fn content() -> StockMeter
        ensures kind { result.kind ≡ Kind.Content }
        ensures reading { result.reading ≡ None }
        ensures pending { result.pending ≡ None }
    {
        StockMeter::new(Kind::Content)
    }

    /// A meter of the boundary content: of the number of unit faces between a cell and a place that is no cell. It has no
    /// reading. Takes no memory.
    pub fn boundary() -> StockMeter
        ensures kind { result.kind ≡ Kind.Boundary }
        ensures reading { result.reading ≡ None }
        ensures pending { result.pending ≡ None }
    {
        StockMeter::new(Kind::Boundary)
    }

    /// A meter of the number of extreme vertices. It has no reading. Takes no memory.
    pub fn vertices() -> StockMeter
        ensures kind { result.kind ≡ Kind.Vertices }
        ensures reading { result.reading ≡ None }
        ensures pending { result.pending ≡ None }
    {
        StockMeter::new(Kind::Vertices)
    }
}

impl Meter for StockMeter {
    ghost kind = { λ m. measure_named m.kind };

    ghost reading = { λ m. m.reading };

    ghost pending = { λ m. m.pending };

    fn kind(&self) -> Kind {
        self.kind
    }

    fn begin(&mut self, alloc: Global, solid: Rows<'_>) -> Result<(), NoMemory> {
        let whole = reading_of(self.kind, alloc, solid)?;
        self.reading = Some(whole);
        self.pending = None;
        Ok(())
    }

    fn prepare(
        &mut self,
        alloc: Global,
        before: Rows<'_>,
        gained: Rows<'_>,
        lost: Rows<'_>,
        after: Rows<'_>,
    ) -> Result<(), NoMemory> {
        let (less, more) = change_of(self.kind, alloc, before, gained, lost, after)?;
        match self.reading {
            Some(reading) => self.pending = Some(reading + more - less),
            None => unreachable!(),
        }
        Ok(())
    }

    fn commit(&mut self) {
        self.reading = self.pending;
        self.pending = None;
    }

    fn abandon(&mut self) {
        self.pending = None;
    }

    fn read(&self) -> i128 {
        match self.reading {
            Some(reading) => reading as i128,
            None => unreachable!(),
        }
    }
}

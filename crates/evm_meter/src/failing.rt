//! A meter for tests, which has no memory at stated calls.

ghost use Rattle.std.specs.Prelude.{◌≡◌, ◌↔◌, ℕ, true, Some, None, is_some, Contains, OnOk, OnErr, IsErr, IsTrue};
ghost use Rattle.evm_rows.specs.View.{vertices_of};
ghost use Rattle.evm_meter.specs.Meters.{measure_named, measured, IsLess, IsNearChange, moved_by};
ghost use Rattle.evm_meter.specs.Fakes.{counted};

use super::meter::{Kind, Meter};
use super::stock::StockMeter;
use evm_rows::{NoMemory, Rows};
use std::alloc::Global;
use std::marker::Model;

/// A meter that reads as [`StockMeter`] does, and answers want of memory at stated calls.
///
/// Its calls of `begin` and `prepare` are counted together from 0, up to the last value of a 64-bit counter. A call answers
/// [`NoMemory`] where its number is one of those that were named at the start, and else only where there is no memory. It takes
/// the memory of a [`StockMeter`].
#[derive(Drop)]
pub struct FailingMeter {
    stock: StockMeter,
    refused: Vec<usize>,
    number: usize,
}

impl Model for FailingMeter {
    ghost use Rattle.evm_meter.specs.Fakes.{Fake};

    ghost Value = { Fake };

    ghost view = { λ m. record {
      kind = m.stock.kind;
      reading = m.stock.reading;
      pending = m.stock.pending;
      failing = m.refused.items;
      calls = m.number;
    } };
}

impl FailingMeter {
    /// A meter of this kind, without a reading. Its calls of `begin` and `prepare` answer want of memory at the numbers of
    /// `failing`, counted from 0 over both. Takes no memory.
    pub fn new(kind: Kind, failing: Vec<usize>) -> FailingMeter
        ensures { result ≡ record {
          kind = kind;
          reading = None;
          pending = None;
          failing = failing.items;
          calls = 0;
        } }
    {
        FailingMeter {
            stock: StockMeter::new(kind),
            refused: failing,
            number: 0,
        }
    }

    // Counts a call, and answers whether it is to fail.
    fn count(&mut self) -> bool
        ensures fails { IsTrue result ↔ Contains self.old.failing self.old.calls }
        ensures after { self.new ≡ record self.old { calls = counted self.old.calls } }
    {
        let number = self.number;
        self.number = number.saturating_add(1);
        self.refused.contains(&number)
    }
}

impl Meter for FailingMeter {
    ghost kind = { λ m. measure_named m.kind };

    ghost reading = { λ m. m.reading };

    ghost pending = { λ m. m.pending };

    fn kind(&self) -> Kind {
        self.stock.kind()
    }

    fn begin(&mut self, alloc: Global, solid: Rows<'_>) -> Result<(), NoMemory>
        ensures ok { OnOk result (self.new ≡ record self.old {
          reading = Some (measured (measure_named self.old.kind) (vertices_of solid.entry));
          pending = None;
          calls = counted self.old.calls;
        }) }
        ensures err { OnErr result (self.new ≡ record self.old { calls = counted self.old.calls }) }
        // It fails where the number of the call says so.
        ensures fails { Contains self.old.failing self.old.calls → IsErr result }
    {
        if self.count() {
            return Err(NoMemory);
        }
        self.stock.begin(alloc, solid)
    }

    fn prepare(
        &mut self,
        alloc: Global,
        before: Rows<'_>,
        gain: Rows<'_>,
        loss: Rows<'_>,
        after: Rows<'_>,
    ) -> Result<(), NoMemory>
        requires near { IsNearChange (measure_named self.old.kind) self.old.reading
            (vertices_of before) (vertices_of after) }
        requires free { self.old.pending ≡ None }
        requires gained { IsLess (vertices_of after) (vertices_of before) (vertices_of gain) }
        requires lost { IsLess (vertices_of before) (vertices_of after) (vertices_of loss) }
        ensures ok { OnOk result (self.new ≡ record self.old {
          pending = moved_by (measure_named self.old.kind) (vertices_of before.entry)
              (vertices_of after.entry) self.old.reading;
          calls = counted self.old.calls;
        }) }
        ensures err { OnErr result (self.new ≡ record self.old { calls = counted self.old.calls }) }
        // It fails where the number of the call says so.
        ensures fails { Contains self.old.failing self.old.calls → IsErr result }
    {
        if self.count() {
            return Err(NoMemory);
        }
        self.stock.prepare(alloc, before, gain, loss, after)
    }

    fn commit(&mut self)
        requires { is_some self.old.pending ≡ true }
        ensures { self.new ≡ record self.old { reading = self.old.pending; pending = None } }
    {
        self.stock.commit();
    }

    fn abandon(&mut self)
        ensures { self.new ≡ record self.old { pending = None } }
    {
        self.stock.abandon();
    }

    fn read(&self) -> i128 {
        self.stock.read()
    }
}

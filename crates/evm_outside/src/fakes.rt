//! A source and a sink in memory, which fail at stated calls.

ghost use Rattle.std.specs.Prelude.{◌≡◌, ◌<◌, ◌↔◌, ◌++◌, [], length, take, drop, Contains, IfOk, IsErr, MatchResult};
ghost use Rattle.std.specs.Io.{ReadsAtMost};
ghost use Rattle.std.specs.Io.KnownBytes.{ReadConsumes, WriteAppends};
ghost use Rattle.std.specs.declared.option.Option.TheVariants.{Some};
ghost use Rattle.evm_outside.specs.Causes.{HasCause, TakesSome};
ghost use Rattle.evm_outside.specs.Fakes.{Refuses, share_of, fit_of, tape_after, page_after};

use super::{Failed, NoMemory, Sink, Source};
use std::alloc::Global;
use std::marker::Model;

/// Gives the bytes of a list, some at a time, and tells those that are left.
///
/// Its calls are counted from 0, up to the last value of a 64-bit counter. A call fails exactly where its
/// number is one of those that were named at the start.
#[derive(Drop)]
pub struct MemSource {
    bytes: Vec<u8>,
    at: usize,
    most: usize,
    refused: Vec<u64>,
    number: u64,
    failures: u64,
}

impl Model for MemSource {
    ghost use Rattle.std.specs.Prelude.{drop, ◌≤◌, ◌<◌, vec_len};
    ghost use Rattle.evm_outside.specs.Fakes.{Tape};

    ghost Value = { Tape };

    ghost view = { λ s. record {
      left = drop s.at s.bytes.items;
      piece = s.most;
      failing = s.refused.items;
      calls = s.number;
      faults = s.failures;
    } };

    ghost invariant = { λ s. (s.at ≤ vec_len s.bytes) × (0 < s.most) };
}

impl MemSource {
    /// A source of these bytes, of which a call gives at most `piece`, at least 1. Calls fail at the numbers
    /// of `failing`, counted from 0. Takes no memory.
    pub fn new(bytes: Vec<u8>, piece: usize, failing: Vec<u64>) -> MemSource
        requires { 0 < piece }
        ensures { result ≡ record { left = bytes.items; piece = piece; failing = failing.items; calls = 0; faults = 0 } }
    {
        MemSource {
            bytes,
            at: 0,
            most: piece,
            refused: failing,
            number: 0,
            failures: 0,
        }
    }
}

impl Source for MemSource {
    ghost left = { λ s. Some s.left };

    ghost faults = { λ s. s.faults };

    fn read(&mut self, into: &mut [u8]) -> Result<usize, Failed>
        ensures bound { ReadsAtMost result into.new }
        ensures bytes { ReadConsumes (Some self.old.left) (Some self.new.left) result into.new }
        ensures cause { HasCause self.old.faults self.new.faults result }
        // It fails exactly where the number of the call says so.
        ensures fails { IsErr result ↔ Contains self.old.failing self.old.calls }
        // Else it gives as many bytes as are left, as a call gives and as there is space for.
        ensures count { IfOk result (λ n. n ≡ share_of self.old (length into.old)) }
        // The bytes behind those that it gave are as before.
        ensures put { MatchResult result (λ n. into.new ≡ take n self.old.left ++ drop n into.old)
            (λ _. into.new ≡ into.old) }
        ensures after { self.new ≡ tape_after self.old result }
    {
        let failed = self.refused.contains(&self.number);
        self.number = self.number.saturating_add(1);
        if failed {
            self.failures = self.failures.saturating_add(1);
            return Err(Failed);
        }
        let rest = self.bytes.len() - self.at;
        let count = rest.min(self.most).min(into.len());
        let end = self.at + count;
        into[..count].copy_from_slice(&self.bytes[self.at..end]);
        self.at = end;
        Ok(count)
    }
}

/// Keeps what is written, as far as there is room, and tells it.
///
/// Its calls are counted from 0, up to the last value of a 64-bit counter. A call fails exactly where its
/// number is one of those that were named at the start, or where there is a byte to write and no room.
#[derive(Drop)]
pub struct MemSink {
    bytes: Vec<u8>,
    space: usize,
    refused: Vec<u64>,
    number: u64,
    failures: u64,
}

impl Model for MemSink {
    ghost use Rattle.std.specs.Prelude.{◌+◌, ◌≤◌, vec_len, vec_capacity};
    ghost use Rattle.evm_outside.specs.Fakes.{Page};

    ghost Value = { Page };

    ghost view = { λ s. record {
      written = s.bytes.items;
      room = s.space;
      failing = s.refused.items;
      calls = s.number;
      faults = s.failures;
    } };

    ghost invariant = { λ s. vec_len s.bytes + s.space ≤ vec_capacity s.bytes };
}

impl MemSink {
    /// A sink with room for so many bytes, which it reserves at once, so that no later call takes memory.
    /// Calls fail at the numbers of `failing`, counted from 0. [`NoMemory`] where the room is not to be had.
    pub fn new(alloc: Global, room: usize, failing: Vec<u64>) -> Result<MemSink, NoMemory>
        ensures { IfOk result
            (λ made. made ≡ record { written = []; room = room; failing = failing.items; calls = 0; faults = 0 }) }
    {
        let Ok(bytes) = Vec::with_capacity(alloc, room) else {
            return Err(NoMemory);
        };
        Ok(MemSink {
            bytes,
            space: room,
            refused: failing,
            number: 0,
            failures: 0,
        })
    }

    /// All that was written.
    pub fn bytes(&self) -> &[u8]
        ensures { result.now ≡ self.now.written }
    {
        self.bytes.as_slice()
    }
}

impl Sink for MemSink {
    ghost written = { λ s. Some s.written };

    ghost faults = { λ s. s.faults };

    fn write(&mut self, piece: &[u8]) -> Result<usize, Failed>
        ensures some { TakesSome result piece.now }
        ensures bytes { WriteAppends (Some self.old.written) (Some self.new.written) result piece.now }
        ensures cause { HasCause self.old.faults self.new.faults result }
        // It fails exactly where the number of the call says so, or where there is no room.
        ensures fails { IsErr result ↔ Refuses self.old piece.now }
        // Else it takes as many bytes as there is room for.
        ensures count { IfOk result (λ n. n ≡ fit_of self.old (length piece.now)) }
        ensures after { self.new ≡ page_after self.old result piece.now }
    {
        let failed = self.refused.contains(&self.number);
        self.number = self.number.saturating_add(1);
        if failed || (!piece.is_empty() && self.space == 0) {
            self.failures = self.failures.saturating_add(1);
            return Err(Failed);
        }
        let count = piece.len().min(self.space);
        let front = &piece[..count];
        if self.bytes.extend_from_slice(front).is_err() {
            unreachable!()
        }
        self.space -= count;
        Ok(count)
    }
}

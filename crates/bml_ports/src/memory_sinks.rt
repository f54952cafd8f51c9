//! A sink in memory.

ghost use Rattle.std.specs.Prelude.{◌≡◌, ◌+◌, ◌<◌, ◌≤◌, ◌↔◌, [], length, min, IfOk, IsErr, IsTrue, MatchResult, is_err};
ghost use Rattle.std.specs.Io.KnownBytes.{WriteAppends};
ghost use Rattle.bml_ports.specs.Counters.{Counts};
ghost use Rattle.bml_ports.specs.MemoryCalls.{no_calls, after_call};
ghost use Rattle.bml_ports.specs.MemorySinks.{MemorySinkState, told_by_sink, WriteFails};

use crate::memory_calls::{Calls, is_listed};
use crate::outside::{Failed, Sink};
use bml_bytes::NoMemory;
use std::alloc::Global;
use std::marker::Model;

/// A sink that keeps what is written, as far as its room goes, and fails at given writes.
#[derive(Debug, Drop)]
pub struct MemorySink {
    written: Vec<u8>,
    room: usize,
    failing: Vec<u64>,
    calls: Calls,
}

impl Model for MemorySink {
    ghost use Rattle.std.specs.Prelude.{◌+◌, ◌≤◌, vec_len, vec_capacity};
    ghost use Rattle.bml_ports.specs.MemorySinks.{MemorySinkState};

    ghost Value = { MemorySinkState };

    ghost view = { λ sink. record {
      written = sink.written.items;
      room = sink.room;
      failing = sink.failing.items;
      calls = sink.calls;
    } };

    ghost invariant = { λ sink. vec_len sink.written + sink.room ≤ vec_capacity sink.written };
}

impl MemorySink {
    /// An empty sink with room for so many bytes, whose writes of the given numbers fail. Writes are
    /// numbered from 1. It takes the memory for all of its room at once.
    pub fn new(alloc: Global, room: usize, failing: Vec<u64>) -> Result<MemorySink, NoMemory>
        ensures { IfOk result (λ sink. sink ≡ record {
          written = [];
          room = room;
          failing = failing.items;
          calls = no_calls;
        }) }
    {
        let written = Vec::with_capacity(alloc, room)?;
        Ok(MemorySink {
            written,
            room,
            failing,
            calls: Calls::none(),
        })
    }

    /// All that was written so far.
    pub fn written(&self) -> &[u8]
        ensures { result.now ≡ self.now.written }
    {
        self.written.as_slice()
    }

    // Whether the next write fails.
    fn fails_next(&self) -> bool
        ensures { IsTrue result ↔ WriteFails self.now }
    {
        self.room == 0 || is_listed(self.failing.as_slice(), self.calls.next_number())
    }
}

impl Sink for MemorySink {
    ghost told = { told_by_sink };

    /// Fails exactly where the number of the write is listed or no room is left, and takes else all that
    /// there is room for.
    fn write(&mut self, bytes: &[u8]) -> Result<usize, Failed>
        requires some { 0 < length bytes.now }
        ensures count { IfOk result (λ n. (0 < n) × (n ≤ length bytes.now)) }
        ensures bytes { WriteAppends (told_by_sink self.old).written
            (told_by_sink self.new).written result bytes.now }
        ensures counted { Counts (told_by_sink self.old).writes
            (told_by_sink self.new).writes result }

        ensures fails { IsErr result ↔ WriteFails self.old }
        ensures takes { IfOk result (λ n. n ≡ min (length bytes.now) self.old.room) }
        ensures room { MatchResult result (λ n. self.new.room + n ≡ self.old.room)
            (λ _. self.new.room ≡ self.old.room) }
        ensures failing { self.new.failing ≡ self.old.failing }
        ensures calls { self.new.calls ≡ after_call self.old.calls (is_err result) }
    {
        let failed = self.fails_next();
        self.calls.count(failed);
        if failed {
            return Err(Failed);
        }
        let taken = self.room.min(bytes.len());
        self.written.extend_from_slice(&bytes[..taken]).unwrap();
        self.room -= taken;
        Ok(taken)
    }
}

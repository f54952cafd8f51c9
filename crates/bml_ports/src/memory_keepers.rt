//! A keeper in memory.

ghost use Rattle.std.specs.Prelude.{◌≡◌, ◌↔◌, length, IfOk, IsErr, IsTrue, OnErr, is_err};
ghost use Rattle.std.specs.Io.KnownBytes.{Keeps};
ghost use Rattle.bml_ports.specs.Counters.{Counts, counted};
ghost use Rattle.bml_ports.specs.Keepers.{Loads, Stores, filled};
ghost use Rattle.bml_ports.specs.MemoryCalls.{no_calls, after_call, FailsNext};
ghost use Rattle.bml_ports.specs.MemoryKeepers.{MemoryKeeperState, told_by_keeper};

use crate::memory_calls::{Calls, is_listed};
use crate::outside::{Failed, Keeper};
use bml_bytes::{AREA_LENGTH, AreaBytes};
use std::marker::Model;

/// A keeper that keeps some bytes, and an area of its own from the first store on, and fails at given calls.
#[derive(Debug, Drop)]
pub struct MemoryKeeper {
    first: Vec<u8>,
    area: [u8; AREA_LENGTH],
    has_stored: bool,
    failing: Vec<u64>,
    calls: Calls,
}

impl Model for MemoryKeeper {
    ghost use Rattle.std.specs.Prelude.{if◌then◌else◌};
    ghost use Rattle.bml_ports.specs.MemoryKeepers.{MemoryKeeperState};

    ghost Value = { MemoryKeeperState };

    ghost view = { λ keeper. record {
      kept = (if keeper.has_stored then keeper.area
          else keeper.first.items);
      failing = keeper.failing.items;
      calls = keeper.calls;
    } };
}

impl MemoryKeeper {
    /// A keeper of these bytes, whose calls of the given numbers fail. Loads and stores are numbered
    /// together, from 1.
    pub fn new(kept: Vec<u8>, failing: Vec<u64>) -> MemoryKeeper
        ensures { result ≡ record { kept = kept.items; failing = failing.items; calls = no_calls } }
    {
        MemoryKeeper {
            first: kept,
            area: [0; AREA_LENGTH],
            has_stored: false,
            failing,
            calls: Calls::none(),
        }
    }

    // Whether the next call fails.
    fn fails_next(&self) -> bool
        ensures { IsTrue result ↔ FailsNext self.now.failing self.now.calls }
    {
        is_listed(self.failing.as_slice(), self.calls.next_number())
    }

    /// The bytes that are kept.
    pub fn kept(&self) -> &[u8]
        ensures { result.now ≡ self.now.kept }
    {
        if self.has_stored {
            &self.area
        } else {
            self.first.as_slice()
        }
    }
}

impl Keeper for MemoryKeeper {
    ghost told = { told_by_keeper };

    /// Fails exactly where the number of the call is listed, and leaves the area then as it was.
    fn load(&mut self, into: &mut AreaBytes) -> Result<u64, Failed>
        ensures loaded { IfOk result (λ size. Loads (told_by_keeper self.old).kept size into.new) }
        ensures kept { Keeps (told_by_keeper self.old).kept (told_by_keeper self.new).kept }
        ensures calls { (told_by_keeper self.new).calls ≡ counted (told_by_keeper self.old).calls }
        ensures counted { Counts (told_by_keeper self.old).faults
            (told_by_keeper self.new).faults result }

        ensures fails { IsErr result ↔ FailsNext self.old.failing self.old.calls }
        ensures area { OnErr result (into.new ≡ into.old) }
        ensures after { self.new ≡ record self.old {
          calls = after_call self.old.calls
              (is_err result);
        } }
    {
        let failed = self.fails_next();
        self.calls.count(failed);
        if failed {
            return Err(Failed);
        }
        let kept = self.kept();
        fill_from(&mut into.bytes, kept);
        Ok(kept.len() as u64)
    }

    /// Fails exactly where the number of the call is listed, and keeps then what was kept.
    fn store(&mut self, from: &AreaBytes) -> Result<(), Failed>
        ensures stored { Stores (told_by_keeper self.old).kept
            (told_by_keeper self.new).kept result from.now }
        ensures calls { (told_by_keeper self.new).calls ≡ counted (told_by_keeper self.old).calls }
        ensures counted { Counts (told_by_keeper self.old).faults
            (told_by_keeper self.new).faults result }

        ensures fails { IsErr result ↔ FailsNext self.old.failing self.old.calls }
        ensures kept { OnErr result (self.new.kept ≡ self.old.kept) }
        ensures failing { self.new.failing ≡ self.old.failing }
        ensures after { self.new.calls ≡ after_call self.old.calls (is_err result) }
    {
        let refused = self.fails_next();
        self.calls.count(refused);
        if refused {
            return Err(Failed);
        }
        let bytes = from.bytes;
        self.area = bytes;
        self.has_stored = true;
        Ok(())
    }
}

// Fills a slice with as many of the bytes as fit, and with 0 behind them.
fn fill_from(area: &mut [u8], bytes: &[u8])
    ensures { area.new ≡ filled (length area.old) bytes.now }
{
    area.fill(0);
    let fits = bytes.len().min(area.len());
    area[..fits].copy_from_slice(&bytes[..fits]);
}

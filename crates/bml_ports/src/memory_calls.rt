//! The calls on a port in memory, which are counted and are to fail at given numbers.

ghost use Rattle.std.specs.Prelude.{◌≡◌, ◌≤◌, ◌↔◌, Contains, IsTrue};
ghost use Rattle.bml_ports.specs.Counters.{Counter, Rose, counted};
ghost use Rattle.bml_ports.specs.MemoryCalls.{no_calls, after_call};

/// How many calls were made and how many of them failed, each as far as 2^64 - 1, and whether the last
/// one failed.
#[derive(Clone, Copy, Debug)]
pub struct Calls {
    pub made: u64,
    pub faults: u64,
    pub last_failed: bool,
}

impl Calls {
    pub fn none() -> Calls
        ensures { result ≡ no_calls }
    {
        Calls {
            made: 0,
            faults: 0,
            last_failed: false,
        }
    }

    // The number of the next call, counted from 1.
    pub fn next_number(&self) -> u64
        ensures { result ≡ counted self.now.made }
    {
        self.made.saturating_add(1)
    }

    // Counts one more call.
    pub fn count(&mut self, failed: bool)
        ensures after { self.new ≡ after_call self.old failed }
        ensures later { self.old.faults ≤ self.new.faults }
        ensures rose { IsTrue failed → Rose self.old.faults self.new.faults }
    {
        self.made = self.made.saturating_add(1);
        if failed {
            self.faults = self.faults.saturating_add(1);
        }
        self.last_failed = failed;
    }
}

// Whether a number is in a list.
pub fn is_listed(numbers: &[u64], number: u64) -> bool
    ensures { IsTrue result ↔ Contains numbers.now number }
{
    numbers.contains(&number)
}

//! Counts of faults.

ghost use Rattle.std.specs.Prelude.{◌≡◌, Ok, IsErr, MatchResult, is_err};
ghost use Rattle.bml_ports.specs.Counters.{Counts};
ghost use Rattle.bml_ports_std.specs.Calls.{no_faults, after_call};

use bml_ports::Failed;
use std::io;
use std::marker::Model;

/// The calls that are counted together: how many of them failed, and whether the last one did.
#[derive(Debug, Drop)]
pub struct Faults {
    count: u64,
    last_failed: bool,
}

impl Model for Faults {
    ghost use Rattle.bml_ports.specs.Counters.{Counter};

    ghost Value = { Counter };

    ghost view = { λ faults. record { faults = faults.count; last_failed = faults.last_failed } };
}

impl Faults {
    /// No call yet.
    pub fn none() -> Faults
        ensures { result ≡ no_faults }
    {
        Faults {
            count: 0,
            last_failed: false,
        }
    }

    /// Counts a call by its answer, and hands the answer on: a fault without its cause. The count stands
    /// still at 2^64 - 1.
    pub fn count<T: Drop>(&mut self, answer: io::Result<T>) -> Result<T, Failed>
        ensures answered { MatchResult answer (λ value. result ≡ Ok value) (λ _. IsErr result) }
        ensures after { self.new ≡ after_call self.old (is_err answer) }
        ensures counts { Counts self.old self.new result }
    {
        match answer {
            Ok(value) => {
                self.last_failed = false;
                Ok(value)
            }
            Err(_) => {
                self.last_failed = true;
                self.count = self.count.saturating_add(1);
                Err(Failed)
            }
        }
    }
}

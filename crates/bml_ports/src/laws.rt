//! Laws of the definitions, each the contract of a function that does nothing.

ghost use Rattle.std.specs.Prelude.{◌≡◌, ℕ, ◌-◌, ◌^◌, ◌<◌, ◌≤◌, ◌↔◌, ◌⊎◌};
ghost use Rattle.bml_ports.specs.Counters.{Rose};

/// A count rose exactly where it is larger now, or stood at 2^64 - 1 and does still.
pub fn rises()
    ensures { (before now : ℕ) → before < 2 ^ 64 → now < 2 ^ 64 → Rose before now
        ↔ ((before < now) ⊎ ((before ≡ 2 ^ 64 - 1) × (now ≡ 2 ^ 64 - 1))) }
{}

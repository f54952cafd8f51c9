//! What a stop leaves in a run, which loads and then stores one area after another. The function is
//! a law: its contract is what it is for, and it does nothing when it runs.

ghost use Rattle.std.specs.Prelude.{◌≡◌, ℕ, List, Some, Result, ◌⊎◌};
ghost use Rattle.bml_ports.specs.declared.outside.Failed.{Failed};
ghost use Rattle.nv_journal.specs.Disks.{DiskContent, IsSettled};
ghost use Rattle.nv_journal.specs.Histories.{Throughout};
ghost use Rattle.nv_journal.specs.Slots.{stands};
ghost use Rattle.nv_journal.specs.Journals.{StoresNewest};
ghost use Rattle.nv_journal.specs.Runs.{HasRun, last_kept};

/// A run loads what is kept, and then stores one area after another, as long as each call answers
/// Ok. So between two of its calls a stop leaves the area that was stored last, or before the first
/// store what was loaded. At each moment of the next store, whatever that answers, a stop leaves
/// this area or the next one.
pub fn law_of_stops()
    ensures between { (areas : List (List ℕ)) (start now : DiskContent) → HasRun areas start now
        → IsSettled now × (stands now.reads ≡ last_kept (stands start.reads) areas) }
    ensures within { (areas : List (List ℕ)) (start now : DiskContent) → HasRun areas start now
        → (area : List ℕ) (result : Result (Unit {0}) Failed) (later : DiskContent)
        → StoresNewest area result now later
        → Throughout (λ image. (stands image ≡ last_kept (stands start.reads) areas)
        ⊎ (stands image ≡ Some area)) now later }
{}

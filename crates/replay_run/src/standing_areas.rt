//! What stays where a receiver makes no turn.

ghost use Rattle.std.specs.Prelude.{◌≡◌, List, ℕ};
ghost use Rattle.receiver_core.specs.Receiving.{Answers, IsOver, IsSilent, PassesDamaged};
ghost use Rattle.receiver_core.specs.Receiving.{PassesTime};
ghost use Rattle.receiver_core.specs.Receiving.{ReceiverState};
ghost use Rattle.receiver_core.specs.declared.broadcast.Input.{Input as HandedIn};

/// Where no turn is made the area stays.
pub fn law_of_standing_areas()
    ensures over { (old new : ReceiverState) (before after : List ℕ)
        → IsOver old new before after → new.area ≡ old.area }
    ensures damaged { (old new : ReceiverState) (before after : List ℕ)
        → PassesDamaged old new before after → new.area ≡ old.area }
    ensures time { (left : ℕ) (old new : ReceiverState) (before after : List ℕ)
        → PassesTime left old new before after → new.area ≡ old.area }
    ensures silent { (input : HandedIn) (old new : ReceiverState) (before after : List ℕ)
        → IsSilent input → Answers input old new before after → new.area ≡ old.area }
{}

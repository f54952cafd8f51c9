//! Laws of what a receiver prints. Each function is a law: its contract is what it is for, and it
//! does nothing.
ghost use Rattle.std.specs.Prelude.{◌≡◌, ◌<◌, ◌+◌, ℕ, true, List, [], ◌∷◌, ◌++◌, length};
ghost use Rattle.std.specs.Prelude.{Some, IfSome};
ghost use Rattle.psi_tables.specs.declared.services.Selection.{Selection};
ghost use Rattle.es_reader.specs.Readers.{Reader};
ghost use Rattle.receiver_core.specs.Fronts.{IsFront};
ghost use Rattle.page.specs.Inputs.{due_next};
ghost use Rattle.receiver_core.specs.Outputs.{Input, Piece, at_moment, followed_by, outputs};
ghost use Rattle.receiver_core.specs.Outputs.{pieces_of_turns, time_passes, with_piece};
ghost use Rattle.receiver_core.specs.Outputs.{without_piece};
ghost use Rattle.receiver_core.specs.Outputs.Input.{Tick};
ghost use Rattle.receiver_core.specs.Receiving.{IsIdle, ReceiverState, StandsFor};
ghost use Rattle.receiver_core.specs.State.{State, wants};
ghost use Rattle.receiver_core.specs.Turns.{due_turn, turn};

use psi_tables::law_of_unread_sections;

/// Without inputs nothing is printed; further inputs add pieces behind those so far, and change
/// none.
pub fn law_of_outputs()
    ensures none { (read : Reader) (selection : Selection) (area : List ℕ)
        → outputs read selection area [] ≡ [] }
    ensures more { (read : Reader) (selection : Selection) (area : List ℕ)
        (inputs further : List Input)
        → IsFront (outputs read selection area inputs)
        (outputs read selection area (inputs ++ further)) }
{}

/// What a receiver gave so far is a front of what its inputs come to, and all of it once no turn is
/// still to come.
pub fn law_of_receivers()
    ensures front { (read : Reader) (selection : Selection) (area : List ℕ)
        (state : ReceiverState) (inputs : List Input) (given : List Piece)
        → StandsFor read selection area state inputs given
        → IsFront given (outputs read selection area inputs) }
    ensures all { (read : Reader) (selection : Selection) (area : List ℕ)
        (state : ReceiverState) (inputs : List Input) (given : List Piece)
        → StandsFor read selection area state inputs given
        → IsIdle state → given ≡ outputs read selection area inputs }
{}

/// A section leaves its own PID wanted, so none of the sections that a packet completes loses its
/// turn: each prints a piece.
pub fn law_of_wanted_sections()
    ensures wanted { (pid : ℕ) (section : List ℕ) (s : State) → wants s pid ≡ true
        → wants (turn pid section s).state pid ≡ true }
    ensures pieces { (pid : ℕ) (sections : List (List ℕ)) (s : State) → wants s pid ≡ true
        → length (pieces_of_turns pid sections s) ≡ length sections }
{
    law_of_unread_sections();
}

/// Time that passes in two parts is time that passes at once, and none changes nothing. Where no
/// timer is due by its end, the clock goes there. Where one is due on the way, time goes on from
/// the turn of that moment.
pub fn law_of_ticks()
    ensures none { (s : State) → time_passes 0 s ≡ without_piece s }
    ensures split { (first second : ℕ) (s : State) → time_passes (first + second) s
        ≡ followed_by (time_passes first s) (time_passes second) }
    ensures quiet { (count : ℕ) (s : State)
        → IfSome (due_next s.page) (λ due. s.page.clock + count < due)
        → time_passes count s ≡ without_piece (at_moment (s.page.clock + count) s) }
    ensures due { (wait more : ℕ) (s : State) → 0 < wait
        → due_next s.page ≡ Some (s.page.clock + wait)
        → time_passes (wait + more) s
        ≡ followed_by (with_piece (due_turn (s.page.clock + wait) s)) (time_passes more) }
{}

/// A receiver that stands for two ticks one behind the other stands for one of both lengths. It
/// stands for a tick of no length where it stood before.
pub fn law_of_passing_time()
    ensures none { (read : Reader) (selection : Selection) (area : List ℕ)
        (state : ReceiverState) (inputs : List Input) (given : List Piece)
        → StandsFor read selection area state inputs given
        → StandsFor read selection area state (inputs ++ Tick 0 ∷ []) given }
    ensures joined { (read : Reader) (selection : Selection) (area : List ℕ)
        (state : ReceiverState) (inputs : List Input) (first second : ℕ) (given : List Piece)
        → StandsFor read selection area state
        ((inputs ++ Tick first ∷ []) ++ Tick second ∷ []) given
        → StandsFor read selection area state (inputs ++ Tick (first + second) ∷ []) given }
{}

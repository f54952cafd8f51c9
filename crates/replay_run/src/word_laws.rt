//! What the definition of a command says. The function is a law: its contract is what it is for,
//! and it does nothing when it runs.

ghost use Rattle.std.specs.Prelude.{◌≡◌, ℕ, List, Some};
ghost use Rattle.replay_run.specs.Words.{Command, IsCommand, command};

/// Words are a command exactly where they are written as one.
pub fn law_of_commands()
    ensures written { (words : List (List ℕ)) (asked : Command) → IsCommand words asked
        → command words ≡ Some asked }
    ensures read { (words : List (List ℕ)) (asked : Command) → command words ≡ Some asked
        → IsCommand words asked }
{}

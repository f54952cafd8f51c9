//! What holds of receivers before their first load. The function is a law: its contract is what it
//! is for, and it does nothing when it runs.

ghost use Rattle.std.specs.Prelude.{ℕ, List};
ghost use Rattle.dsmcc_messages.specs.declared.dii.Dii.{Dii};
ghost use Rattle.carousel_blocks.specs.Message.{Message};
ghost use Rattle.carousel_laws.specs.Freedom.{Repeats};
ghost use Rattle.receiver_core.specs.State.{State};
ghost use Rattle.block_order_laws.specs.FirstLoads.{AwaitsDocument, ComeToTheSame};

use carousel_laws::{law_of_same_services, law_of_settled_paths};
use psi_tables::law_of_unread_sections;

/// The order of blocks never reaches a load. Let a receiver have no document, and let a turn make no
/// dispatch. Let sections of a component repeat the DII in force or bring blocks, in two lists that
/// bring the same blocks, with one reading. Then both lists have a section whose turn makes a
/// dispatch, or neither has. Where both have, the first dispatch is the same load. Where neither
/// has, the states after them agree in all but the packets and sections that came and the numbers
/// of deliveries. Until then lines `module` are printed, and nothing else.
pub fn law_of_first_loads()
    ensures { (s : State) (pid tag : ℕ) (messages : List Message) (dii : Dii)
        (first second : List (List ℕ)) → AwaitsDocument s pid tag messages
        → Repeats messages dii first second → ComeToTheSame pid tag first second s }
{
    law_of_settled_paths();
    law_of_same_services();
    law_of_unread_sections();
}

//! What holds of carousels. Each function is a law: its contract is what it is for, and it does
//! nothing when it runs.

ghost use Rattle.std.specs.Prelude.{◌≡◌, ◌≢◌, ◌++◌, [], ◌∷◌, ℕ, All, List, None, Some, is_some, true};
ghost use Rattle.dsmcc_messages.specs.Ddb.{DataBlock};
ghost use Rattle.dsmcc_messages.specs.declared.dii.Dii.{Dii};
ghost use Rattle.carousel_blocks.specs.Carousel.{put_after};
ghost use Rattle.carousel_blocks.specs.Held.{bytes_held};
ghost use Rattle.carousel_blocks.specs.InForce.{in_force};
ghost use Rattle.carousel_blocks.specs.Message.{Message, Data, messages_of};
ghost use Rattle.multipart_entities.specs.declared.paths.Path.{Path};
ghost use Rattle.module_store.specs.Resources.{Waiting, look, presence, start_path};
ghost use Rattle.module_store.specs.Store.{Stored, held_in, messages_of_component};
ghost use Rattle.module_locks.specs.Locks.{Modules, changes_by, look_up, with_section};
ghost use Rattle.module_locks.specs.Locks as modules_of;
ghost use Rattle.carousel_laws.specs.Freedom.{OnlyRepeat, Repeats};
ghost use Rattle.carousel_laws.specs.Services.{IsDelivery, KeepTheSame, modules_after};
ghost use Rattle.carousel_laws.specs.Stores.{stored_after};

use carousel_blocks::{
    Put, law_of_block_change, law_of_block_order, law_of_completed_modules, law_of_messages,
    law_of_no_change, law_of_same_modules,
};

/// Neither the order of sections nor their repetition changes which modules are held. Let a DII be
/// in force after the sections before, and let two lists of sections bring the same blocks and no
/// DII with another transactionId. Let no two blocks that entries of the DII ask for have one
/// module and number and different bytes. Then each module is held after both lists with the same
/// bytes, or after neither, and the DII stays in force.
pub fn law_of_carousel_freedom()
    ensures held { (before first second : List (List ℕ)) (dii : Dii) (number : ℕ)
        → Repeats (messages_of before) dii first second
        → bytes_held (messages_of (before ++ first)) number
        ≡ bytes_held (messages_of (before ++ second)) number }
    ensures force { (before sections : List (List ℕ)) (dii : Dii)
        → in_force (messages_of before) ≡ Some dii → OnlyRepeat dii.transaction sections
        → in_force (messages_of (before ++ sections)) ≡ Some dii }
{
    law_of_messages();
    law_of_block_order();
}

/// Where a block is answered as one that completes a module, this is the block's own, it wasn't
/// held before, and it is held at once.
pub fn law_of_completing_blocks()
    ensures module_is { (messages : List Message) (block : DataBlock) (number : ℕ)
        → put_after messages block ≡ Put.Completed number → number ≡ block.«module» }
    ensures before { (messages : List Message) (block : DataBlock) (number : ℕ)
        → put_after messages block ≡ Put.Completed number → bytes_held messages number ≡ None }
    ensures held { (messages : List Message) (block : DataBlock) (number : ℕ)
        → put_after messages block ≡ Put.Completed number
        → is_some (bytes_held (messages ++ Data block ∷ []) number) ≡ true }
{
    law_of_completed_modules();
}

/// The same of a store, where the two lists are sections of one of its components: after both, each
/// module of each component is held with the same bytes, or after neither; under each path the same
/// is found, waited for or missing; and the start document has the same path.
pub fn law_of_same_stores()
    ensures held { (stored : Stored) (tag : ℕ) (messages : List Message) (dii : Dii)
        (first second : List (List ℕ)) (component number : ℕ)
        → messages_of_component stored tag ≡ Some messages → Repeats messages dii first second
        → held_in (stored_after stored tag first) component number
        ≡ held_in (stored_after stored tag second) component number }
    ensures looks { (stored : Stored) (tag : ℕ) (messages : List Message) (dii : Dii)
        (first second : List (List ℕ)) (path : Path)
        → messages_of_component stored tag ≡ Some messages → Repeats messages dii first second
        → look (stored_after stored tag first) path ≡ look (stored_after stored tag second) path }
    ensures start { (stored : Stored) (tag : ℕ) (messages : List Message) (dii : Dii)
        (first second : List (List ℕ))
        → messages_of_component stored tag ≡ Some messages → Repeats messages dii first second
        → start_path (stored_after stored tag first)
        ≡ start_path (stored_after stored tag second) }
{
    law_of_messages();
    law_of_block_order();
}

/// As long as a DII in force is only repeated, one more section of its component brings a module or
/// nothing. All that is told are deliveries. What is found under a path, or is missing there, stays
/// so, whatever locks get their bytes, and the start document has the same path.
pub fn law_of_settled_paths()
    ensures told { (modules : Modules) (tag : ℕ) (messages : List Message) (dii : Dii)
        (section : List ℕ) → messages_of_component modules.stored tag ≡ Some messages
        → in_force messages ≡ Some dii → OnlyRepeat dii.transaction (section ∷ [])
        → All IsDelivery (changes_by tag section modules) }
    ensures looks { (modules : Modules) (tag : ℕ) (messages : List Message) (dii : Dii)
        (section : List ℕ) (path : Path)
        → messages_of_component modules.stored tag ≡ Some messages
        → in_force messages ≡ Some dii → OnlyRepeat dii.transaction (section ∷ [])
        → look_up modules path ≢ Waiting
        → look_up (with_section tag section modules) path ≡ look_up modules path }
    ensures start { (modules : Modules) (tag : ℕ) (messages : List Message) (dii : Dii)
        (section : List ℕ) → messages_of_component modules.stored tag ≡ Some messages
        → in_force messages ≡ Some dii → OnlyRepeat dii.transaction (section ∷ [])
        → modules_of.start_path (with_section tag section modules)
        ≡ modules_of.start_path modules }
    ensures messages { (modules : Modules) (tag : ℕ) (messages : List Message)
        (section : List ℕ) → messages_of_component modules.stored tag ≡ Some messages
        → messages_of_component (with_section tag section modules).stored tag
        ≡ Some (messages ++ messages_of (section ∷ [])) }
    ensures force { (messages : List Message) (dii : Dii) (sections : List (List ℕ))
        → in_force messages ≡ Some dii → OnlyRepeat dii.transaction sections
        → in_force (messages ++ messages_of sections) ≡ Some dii }
{
    law_of_messages();
    law_of_no_change();
    law_of_block_change();
    law_of_same_modules();
    law_of_completed_modules();
}

/// The law of same stores with the locks on modules: after both lists the same locks stand, and
/// keep the same but for the numbers of the deliveries that brought it; under each path a look-up
/// finds the same; the start document has the same path; and each module is absent, announced or
/// held alike.
pub fn law_of_same_services()
    ensures locks { (modules : Modules) (tag : ℕ) (messages : List Message) (dii : Dii)
        (first second : List (List ℕ))
        → messages_of_component modules.stored tag ≡ Some messages
        → Repeats messages dii first second
        → KeepTheSame (modules_after modules tag first).locks
        (modules_after modules tag second).locks }
    ensures looks { (modules : Modules) (tag : ℕ) (messages : List Message) (dii : Dii)
        (first second : List (List ℕ)) (path : Path)
        → messages_of_component modules.stored tag ≡ Some messages
        → Repeats messages dii first second
        → look_up (modules_after modules tag first) path
        ≡ look_up (modules_after modules tag second) path }
    ensures start { (modules : Modules) (tag : ℕ) (messages : List Message) (dii : Dii)
        (first second : List (List ℕ))
        → messages_of_component modules.stored tag ≡ Some messages
        → Repeats messages dii first second
        → modules_of.start_path (modules_after modules tag first)
        ≡ modules_of.start_path (modules_after modules tag second) }
    ensures presence { (modules : Modules) (tag : ℕ) (messages : List Message) (dii : Dii)
        (first second : List (List ℕ)) (component number : ℕ)
        → messages_of_component modules.stored tag ≡ Some messages
        → Repeats messages dii first second
        → presence (modules_after modules tag first).stored component number
        ≡ presence (modules_after modules tag second).stored component number }
    ensures held { (modules : Modules) (tag : ℕ) (messages : List Message) (dii : Dii)
        (first second : List (List ℕ)) (component number : ℕ)
        → messages_of_component modules.stored tag ≡ Some messages
        → Repeats messages dii first second
        → held_in (modules_after modules tag first).stored component number
        ≡ held_in (modules_after modules tag second).stored component number }
{
    law_of_messages();
    law_of_block_order();
    law_of_no_change();
    law_of_block_change();
    law_of_same_modules();
    law_of_completed_modules();
}

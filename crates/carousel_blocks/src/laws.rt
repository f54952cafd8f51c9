//! What the definitions say, as laws.

ghost use Rattle.std.specs.Prelude.{◌≡◌, ◌↔◌, ◌<◌, ◌≤◌, ◌^◌, ◌*◌, ◌==◌, ℕ, true, List, [], ◌∷◌, ◌++◌, length, Contains};
ghost use Rattle.std.specs.Prelude.{None, Some, is_some, option_map, option_to_list, map};
ghost use Rattle.std.specs.List.Sorted.{IsStrictlyIncreasing};
ghost use Rattle.dsmcc_messages.specs.declared.dii.Dii.{Dii};
ghost use Rattle.dsmcc_messages.specs.Ddb.{DataBlock};
ghost use Rattle.carousel_blocks.specs.Message.{Message, Indication, Data, CarriesMessage, message_of};
ghost use Rattle.carousel_blocks.specs.InForce.{in_force, standing_of, block_count, size_limit, is_compressed};
ghost use Rattle.carousel_blocks.specs.Entries.{CountsAsEntry, IsLargeAt, skip_in};
ghost use Rattle.dsmcc_messages.specs.declared.entry.Entry.{Entry};
ghost use Rattle.std.specs.List.{list_any};
ghost use Rattle.carousel_blocks.specs.Held.{CountsAt, counting_blocks, bytes_held, first_of};
ghost use Rattle.carousel_blocks.specs.Places.{IsFirstBlock, IsHeld};
ghost use Rattle.carousel_blocks.specs.declared.changes.Change.{Change};
ghost use Rattle.carousel_blocks.specs.Carousel.{put_after, entry_in_force};
ghost use Rattle.carousel_blocks.specs.Changes.{change_at, changes};
ghost use Rattle.carousel_blocks.specs.Order.{AreConsistent, OnlyRepeats, SameBlocks};
ghost use Rattle.carousel_blocks.specs.Staging.{IsSameModule, whole_with};

use crate::put::Put;
use crate::standing::SkipCause;
use dsmcc_messages::{law_of_ddb, law_of_dii};

/// The message of a section is the one that the relation between its bytes and the message's fields tells.
pub fn law_of_messages()
    ensures { (section : List ℕ) (message : Message)
        → CarriesMessage section message ↔ (message_of section ≡ Some message) }
{
    law_of_dii();
    law_of_ddb();
}

/// The blocks that count are those that stand at a place of the messages where they are asked for by an entry that
/// stays unchanged from there on.
pub fn law_of_counting()
    ensures { (messages : List Message) (number : ℕ) (block : DataBlock)
        → Contains (counting_blocks None number messages) block
        ↔ ((place : ℕ) × CountsAt messages number block place) }
{}

/// Of the blocks that count with one number the first counts: the one at the least place.
pub fn law_of_first_blocks()
    ensures { (messages : List Message) (number block_number : ℕ) (bytes : List ℕ)
        → (first_of (counting_blocks None number messages) block_number ≡ Some bytes)
        ↔ IsFirstBlock messages number block_number bytes }
{}

/// A module is held with the bytes that the places of the list of messages tell.
pub fn law_of_held_modules()
    ensures { (messages : List Message) (number : ℕ) (bytes : List ℕ)
        → (bytes_held messages number ≡ Some bytes) ↔ IsHeld messages number bytes }
{}

/// A module has the fewest blocks of the DII's blockSize that make it up: its size by blockSize, rounded up.
pub fn law_of_block_counts()
    ensures { (block_size size count : ℕ) → 0 < block_size
        → (size ≤ count * block_size) ↔ (block_count block_size size ≤ count) }
{}

/// Of the entries of a DII with one number the first counts, and why it is skipped is told by the entries before it.
pub fn law_of_entries()
    ensures entry { (dii : Dii) (place : ℕ) (entry : Entry) → CountsAsEntry dii place entry
        → option_map (λ standing. standing.entry) (standing_of (Some dii) entry.id) ≡ Some entry }
    ensures absent { (dii : Dii) (number : ℕ) → is_some (standing_of (Some dii) number)
        ≡ list_any (λ entry. entry.id == number) dii.entries }
    ensures compressed { (dii : Dii) (place : ℕ) (entry : Entry) → CountsAsEntry dii place entry
        → (skip_in dii entry.id ≡ Some SkipCause.Compressed) ↔ (is_compressed entry ≡ true) }
    ensures large { (dii : Dii) (place : ℕ) (entry : Entry) → CountsAsEntry dii place entry
        → (skip_in dii entry.id ≡ Some SkipCause.Large) ↔ IsLargeAt dii place entry }
{}

/// Neither the order of blocks nor their repeats change what is held. Behind messages with a DII in force, let two
/// lists of messages have DDBs, and no DII but those with the transactionId in force, with the same blocks in both;
/// and let no two blocks that the module's entry asks for have one number and different bytes. Then the module is
/// held behind both with the same bytes, or behind neither.
pub fn law_of_block_order()
    ensures { (messages first second : List Message) (dii : Dii) (number : ℕ)
        → in_force messages ≡ Some dii → OnlyRepeats dii.transaction first
        → OnlyRepeats dii.transaction second → SameBlocks first second
        → AreConsistent (standing_of (Some dii) number) first
        → bytes_held (messages ++ first) number ≡ bytes_held (messages ++ second) number }
{}

/// What stays isn't told: the DII in force once more changes nothing, and neither does a block that is held or isn't
/// asked for.
pub fn law_of_no_change()
    ensures same { (messages : List Message) → changes messages messages ≡ [] }
    ensures repeated { (messages : List Message) (dii other : Dii) → in_force messages ≡ Some dii
        → other.transaction ≡ dii.transaction
        → changes messages (messages ++ Indication other ∷ []) ≡ [] }
    ensures ignored { (messages : List Message) (block : DataBlock)
        → put_after messages block ≡ Put.Ignored
        → changes messages (messages ++ Data block ∷ []) ≡ [] }
{}

/// Where a block comes, all changes are the one of its module.
pub fn law_of_block_change()
    ensures { (messages : List Message) (block : DataBlock) → block.«module» < 2 ^ 16
        → changes messages (messages ++ Data block ∷ [])
        ≡ option_to_list (change_at messages (messages ++ Data block ∷ []) block.«module») }
{}

/// Changes come in ascending module number, at most one a module.
pub fn law_of_change_order()
    ensures { (before now : List Message)
        → IsStrictlyIncreasing (map (λ change. change.«module») (changes before now)) }
{}

/// A module of which no change is told when a message comes is the same as before.
pub fn law_of_same_modules()
    ensures { (messages : List Message) (message : Message) (number : ℕ)
        → change_at messages (messages ++ message ∷ []) number ≡ None
        → IsSameModule messages (messages ++ message ∷ []) number }
{}

/// A module whose entry is new or another one, and that is held at once, has no bytes.
pub fn law_of_new_entries()
    ensures { (messages : List Message) (message : Message) (number : ℕ) (change : Change)
        (bytes : List ℕ)
        → change_at messages (messages ++ message ∷ []) number ≡ Some change
        → is_some change.status ≡ true
        → bytes_held (messages ++ message ∷ []) number ≡ Some bytes → bytes ≡ [] }
{}

/// A module of which a change without status is told is the one that the message's block makes whole: it was announced
/// with the same info, and wasn't held.
pub fn law_of_completed_modules()
    ensures whole { (messages : List Message) (message : Message) (number : ℕ) (change : Change)
        → change_at messages (messages ++ message ∷ []) number ≡ Some change → change.status ≡ None
        → (bytes : List ℕ) × (bytes_held (messages ++ message ∷ []) number ≡ Some bytes)
        × (whole_with messages (Some message) ≡ Some (number, bytes)) }
    ensures info { (messages : List Message) (message : Message) (number : ℕ) (change : Change)
        → change_at messages (messages ++ message ∷ []) number ≡ Some change → change.status ≡ None
        → option_map (λ entry. entry.info) (entry_in_force (messages ++ message ∷ []) number)
        ≡ option_map (λ entry. entry.info) (entry_in_force messages number) }
    ensures before { (messages : List Message) (message : Message) (number : ℕ) (change : Change)
        → change_at messages (messages ++ message ∷ []) number ≡ Some change → change.status ≡ None
        → bytes_held messages number ≡ None }
    ensures change { (messages : List Message) (message : Message) (number : ℕ) (bytes : List ℕ)
        → whole_with messages (Some message) ≡ Some (number, bytes)
        → (change : Change) × (change_at messages (messages ++ message ∷ []) number ≡ Some change)
        × (change.status ≡ None) }
{}

/// The bytes of a module that is held are as many as its entry says, and at most 1,048,576.
pub fn law_of_held_sizes()
    ensures size { (messages : List Message) (number : ℕ) (bytes : List ℕ)
        → bytes_held messages number ≡ Some bytes
        → option_map (λ entry. entry.size) (entry_in_force messages number) ≡ Some (length bytes) }
    ensures limit { (messages : List Message) (number : ℕ) (bytes : List ℕ)
        → bytes_held messages number ≡ Some bytes
        → length bytes ≤ size_limit }
{}

/// The DII in force stays the same DII as long as its transactionId does.
pub fn law_of_transactions()
    ensures { (messages : List Message) (message : Message)
        → option_map (λ dii. dii.transaction) (in_force (messages ++ message ∷ []))
        ≡ option_map (λ dii. dii.transaction) (in_force messages)
        → in_force (messages ++ message ∷ []) ≡ in_force messages }
{}

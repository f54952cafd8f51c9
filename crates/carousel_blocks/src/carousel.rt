//! The carousel of one component.

ghost use Rattle.std.specs.Prelude.{◌≡◌, ◌<◌, ◌≤◌, ◌^◌, ◌++◌, [], ◌∷◌, ℕ, List, length, Option, Some, option_copied, option_map};
ghost use Rattle.std.specs.Prelude.{IfOk, IfSome, OnOk, OnErr};
ghost use Rattle.dsmcc_messages.specs.Ddb.{fields_of};
ghost use Rattle.dsmcc_messages.specs.Reading.{ddb_in};

use crate::buffer::Buffer;
use crate::changes::{Change, changes_between, next_modules};
use crate::modules::{
    Module, Modules, give_back_unused, put_block, standing_at, take_back, whole_of,
};
use crate::put::Put;
use crate::standing::SkipCause;
use bml_bytes::{NoMemory, TableRefusal};
use dsmcc_messages::{Ddb, Dii, Entry, read_ddb, read_dii};
use slab::Slab;
use std::alloc::Global;
use std::collections::HashMap;
use std::marker::Model;

/// The data_event_id is a downloadId divided by this: its top four bits.
const EVENT_ID_UNIT: u32 = 1 << 28;

/// The data carousel of one component: the DII in force, and the blocks that came for its modules.
///
/// It is told the component's messages in their order: each intact section by `take`, which says what changed; or each
/// readable DII by `set_dii` and each DDB by `put`. Of two DIIs with the same transactionId, one behind the other, the
/// second counts as absent.
#[derive(Drop)]
pub struct Carousel {
    alloc: Global,
    /// The transactionId of the DII in force.
    transaction: Option<u32>,
    /// The downloadId of the DII in force.
    download: Option<u32>,
    modules: Modules,
    buffers: Slab<Buffer>,
}

impl Model for Carousel {
    ghost use Rattle.carousel_blocks.specs.Carousel.{CarouselState};
    ghost use Rattle.carousel_blocks.specs.Modules.{AreModules, entries_kept};

    ghost Value = { CarouselState };

    ghost view = { λ c. record {
      transaction = c.transaction;
      download = c.download;
      modules = entries_kept c.modules c.buffers;
    } };

    ghost invariant = { λ c. AreModules c.modules c.buffers };
}

impl Carousel {
    ghost use Rattle.carousel_blocks.specs.Message.{Message, Indication, Data, data_in, messages_of};
    ghost use Rattle.carousel_blocks.specs.InForce.{in_force, standing_of};
    ghost use Rattle.carousel_blocks.specs.Held.{bytes_held};
    ghost use Rattle.carousel_blocks.specs.Carousel.{CarouselState, ForMessages, StandsFor, KeepsSame, kept_in};
    ghost use Rattle.carousel_blocks.specs.Carousel.{entry_in_force, skip_in_force, put_after};
    ghost use Rattle.carousel_blocks.specs.Changes.{changes, departures, number_bound};
    ghost use Rattle.carousel_blocks.specs.Steps.{TakesDii, TakesBlock, is_in_force, TakesBack, TakesBackBy, entry_changes, block_change};
    ghost use Rattle.carousel_blocks.specs.Staging.{made_whole};
    ghost use Rattle.carousel_blocks.specs.DataEvents.{data_event_id};

    /// A carousel of which no message came.
    pub fn new(alloc: Global) -> Carousel
        ensures { StandsFor result [] }
    {
        Carousel {
            alloc,
            transaction: None,
            download: None,
            modules: HashMap::new(alloc),
            buffers: Slab::new(alloc),
        }
    }

    /// Takes the next intact section of the component, and tells what it changed, in ascending module number. A
    /// section that carries no readable DII or DDB changes nothing, and neither does the DII in force once more, nor a
    /// block that is held or isn't asked for.
    ///
    /// After `NoMemory` the carousel is as before, and may be told the section once more.
    pub fn take(&mut self, section: &[u8]) -> Result<Vec<Change>, NoMemory>
        requires { 12 ≤ length section.now }
        ensures stands { OnOk result (ForMessages self.old
            (λ messages. StandsFor self.new (messages ++ messages_of (section.now ∷ [])))) }
        ensures changes { IfOk result (λ found. ForMessages self.old (λ messages. found.items
            ≡ changes messages (messages ++ messages_of (section.now ∷ [])))) }
        // The module that the section makes whole has a number of two bytes.
        ensures number { OnOk result ((messages : List Message) (number : ℕ) (bytes : List ℕ)
            → made_whole messages section.now ≡ Some (number, bytes) → number < number_bound) }
        ensures same { OnErr result (KeepsSame self.old self.new) }
        ensures before { OnErr result (ForMessages self.old
            (λ messages. StandsFor self.new messages)) }
    {
        match read_dii(self.alloc, section) {
            Ok(dii) => self.take_dii(dii),
            Err(TableRefusal::NoMemory) => Err(NoMemory),
            Err(TableRefusal::Fault(_)) => self.take_data(section),
        }
    }

    /// Takes the section back that was taken last, where its block made a module whole: the carousel is as if it hadn't
    /// come. So a caller that finds no memory for what it has to keep of that module leaves everything as before.
    ///
    /// Of any other section the block that it carries is given up, where the DII in force asks for it, and nothing else
    /// changes.
    pub fn take_back(&mut self, section: &[u8])
        requires { 12 ≤ length section.now }
        ensures block { TakesBackBy (ddb_in section.now) self.old self.new }
        ensures before { (messages : List Message) (number : ℕ) (bytes : List ℕ)
            → made_whole messages section.now ≡ Some (number, bytes)
            → StandsFor self.old (messages ++ messages_of (section.now ∷ []))
            → StandsFor self.new messages }
    {
        match read_ddb(section) {
            Ok(ddb) => self.take_block_back(&ddb),
            Err(_) => {}
        }
    }

    /// What goes where the component leaves: each module of the DII in force, in ascending number.
    pub fn departures(&self) -> Result<Vec<Change>, NoMemory>
        ensures { IfOk result (λ found. ForMessages self.now (λ messages. found.items
            ≡ departures messages)) }
    {
        let none = HashMap::new(self.alloc);
        changes_between(self.alloc, &self.modules, &none, &self.buffers)
    }

    /// Takes the next DII. Modules whose entries are unchanged keep their blocks, and what the others had is given back.
    ///
    /// After `NoMemory` everything is as before.
    pub fn set_dii(&mut self, dii: Dii) -> Result<(), NoMemory>
        ensures stands { OnOk result (ForMessages self.old
            (λ messages. StandsFor self.new (messages ++ Indication dii ∷ []))) }
        ensures same { OnErr result (KeepsSame self.old self.new) }
        ensures before { OnErr result (ForMessages self.old
            (λ messages. StandsFor self.new messages)) }
    {
        let _changes = self.take_dii(dii)?;
        Ok(())
    }

    /// Takes the next DDB, and says what became of its block. Memory is taken for a module with the first of its blocks
    /// that is kept.
    ///
    /// After `NoMemory` everything is as before.
    pub fn put(&mut self, ddb: &Ddb<'_>) -> Result<Put, NoMemory>
        ensures stands { OnOk result (ForMessages self.old
            (λ messages. StandsFor self.new (messages ++ Data (fields_of ddb.now) ∷ []))) }
        ensures answer { IfOk result (λ put. ForMessages self.old (λ messages. put
            ≡ put_after messages (fields_of ddb.now))) }
        ensures same { OnErr result (KeepsSame self.old self.new) }
        ensures before { OnErr result (ForMessages self.old
            (λ messages. StandsFor self.new messages)) }
    {
        self.put_block(ddb)
    }

    /// The transactionId of the DII in force; None where no DII came.
    pub fn transaction(&self) -> Option<u32>
        ensures { ForMessages self.now (λ messages. result
            ≡ option_map (λ dii. dii.transaction) (in_force messages)) }
    {
        self.transaction
    }

    /// The data_event_id of the DII in force, 0 to 15: the top four bits of its downloadId; None where no DII came.
    pub fn data_event_id(&self) -> Option<u8>
        ensures { ForMessages self.now (λ messages. result
            ≡ option_map data_event_id (in_force messages)) }
    {
        let download = self.download?;
        Some((download / EVENT_ID_UNIT) as u8)
    }

    /// The entry of a module in the DII in force; None where there is none.
    pub fn entry(&self, module: u16) -> Option<&Entry>
        ensures { ForMessages self.now (λ messages. option_copied result
            ≡ entry_in_force messages «module») }
    {
        let module = self.modules.get(&module)?;
        Some(&module.standing.entry)
    }

    /// Why a module is skipped; None where it isn't, or where the DII in force has no such module.
    pub fn skip_of(&self, module: u16) -> Option<SkipCause>
        ensures { ForMessages self.now (λ messages. result ≡ skip_in_force messages «module») }
    {
        let module = self.modules.get(&module)?;
        module.standing.skip
    }

    /// The bytes of a module; None where it isn't held.
    pub fn bytes_of(&self, module: u16) -> Option<&[u8]>
        ensures { ForMessages self.now (λ messages. option_copied result
            ≡ bytes_held messages «module») }
    {
        whole_of(&self.modules, &self.buffers, module)
    }

    // Takes a section that carries no readable DII.
    fn take_data(&mut self, section: &[u8]) -> Result<Vec<Change>, NoMemory>
        requires { 12 ≤ length section.now }
        ensures stands { OnOk result (ForMessages self.old
            (λ messages. StandsFor self.new (messages ++ data_in section.now))) }
        ensures changes { IfOk result (λ found. ForMessages self.old (λ messages. found.items
            ≡ changes messages (messages ++ data_in section.now))) }
        ensures number { (messages : List Message) (number : ℕ) (bytes : List ℕ)
            → made_whole messages section.now ≡ Some (number, bytes) → number < number_bound }
        ensures same { OnErr result (KeepsSame self.old self.new) }
    {
        match read_ddb(section) {
            Ok(ddb) => self.take_ddb(ddb),
            Err(_) => Ok(Vec::new(self.alloc)),
        }
    }

    fn take_dii(&mut self, dii: Dii) -> Result<Vec<Change>, NoMemory>
        ensures stands { OnOk result (ForMessages self.old
            (λ messages. StandsFor self.new (messages ++ Indication dii ∷ []))) }
        ensures changes { IfOk result (λ found. ForMessages self.old (λ messages. found.items
            ≡ changes messages (messages ++ Indication dii ∷ []))) }
        ensures same { OnErr result (KeepsSame self.old self.new) }
    {
        if self.is_in_force(dii.transaction) {
            return Ok(Vec::new(self.alloc));
        }
        self.replace(dii)
    }

    // A block is kept only where its change is told: where there is no memory for this, it is taken back.
    fn take_ddb(&mut self, ddb: Ddb<'_>) -> Result<Vec<Change>, NoMemory>
        ensures stands { OnOk result (ForMessages self.old
            (λ messages. StandsFor self.new (messages ++ Data (fields_of ddb.entry) ∷ []))) }
        ensures changes { IfOk result (λ found. ForMessages self.old (λ messages. found.items
            ≡ changes messages (messages ++ Data (fields_of ddb.entry) ∷ []))) }
        ensures low { ddb.entry.«module» < 2 ^ 16 }
        ensures same { OnErr result (KeepsSame self.old self.new) }
    {
        let put = self.put_block(&ddb)?;
        let Some(change) = self.change_by(put) else {
            return Ok(Vec::new(self.alloc));
        };
        match list_of(self.alloc, change) {
            Ok(changes) => Ok(changes),
            Err(error) => {
                self.take_block_back(&ddb);
                Err(error)
            }
        }
    }

    // What is told of a block, by what became of it.
    fn change_by(&self, put: Put) -> Option<Change>
        ensures told { ForMessages self.now (λ messages. result
            ≡ block_change (standing_of (in_force messages)) put) }
        ensures completed { IfSome result (λ change. put ≡ Put.Completed change.«module») }
    {
        let Put::Completed(number) = put else {
            return None;
        };
        let standing = standing_at(&self.modules, number)?;
        Some(Change::completed(number, &standing.entry))
    }

    fn is_in_force(&self, transaction: u32) -> bool
        ensures { result ≡ is_in_force self.now transaction }
    {
        self.transaction == Some(transaction)
    }

    // Puts the modules of another DII in place of those of the one in force, and tells what changed.
    fn replace(&mut self, dii: Dii) -> Result<Vec<Change>, NoMemory>
        ensures taken { OnOk result (TakesDii self.old self.new dii) }
        ensures changes { IfOk result (λ found. found.items
            ≡ entry_changes (kept_in self.old) (kept_in self.new)) }
        ensures same { OnErr result (KeepsSame self.old self.new) }
    {
        let transaction = dii.transaction;
        let download = dii.download;
        match next_modules(self.alloc, &self.modules, &mut self.buffers, dii) {
            Err(error) => {
                give_back_unused(&self.modules, &mut self.buffers);
                Err(error)
            }
            Ok((modules, changes)) => {
                self.modules = modules;
                self.transaction = Some(transaction);
                self.download = Some(download);
                give_back_unused(&self.modules, &mut self.buffers);
                Ok(changes)
            }
        }
    }

    // Puts the block of a DDB. It can be taken back where it completed its module.
    fn put_block(&mut self, ddb: &Ddb<'_>) -> Result<Put, NoMemory>
        ensures taken { IfOk result (λ put. TakesBlock self.old self.new (fields_of ddb.now) put) }
        ensures same { OnErr result (KeepsSame self.old self.new) }
        ensures back { IfOk result (λ put. (number : ℕ) (later : CarouselState)
            → put ≡ Put.Completed number
            → TakesBack self.new later (fields_of ddb.now) → KeepsSame self.old later) }
    {
        put_block(self.alloc, &self.modules, &mut self.buffers, ddb)
    }

    fn take_block_back(&mut self, ddb: &Ddb<'_>)
        ensures { TakesBack self.old self.new (fields_of ddb.now) }
    {
        take_back(&self.modules, &mut self.buffers, ddb);
    }
}

fn list_of(alloc: Global, change: Change) -> Result<Vec<Change>, NoMemory>
    ensures { IfOk result (λ list. list.items ≡ change ∷ []) }
{
    let mut list = Vec::new(alloc);
    list.push(change)?;
    Ok(list)
}

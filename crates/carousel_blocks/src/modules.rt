//! The modules of a DII, each with the key of its buffer.

ghost use Rattle.std.specs.Prelude.{◌≡◌, ◌≤◌, ◌<◌, ℕ, List, Some, None, Option, IfOk, OnOk, OnErr, nat_eq, option_copied, option_map, option_and_then, if◌then◌else◌, ◌==◌, length};
ghost use Rattle.std.specs.HashMap.{get as value_at};
ghost use Rattle.carousel_blocks.specs.Held.{Kept, unchanged};
ghost use Rattle.carousel_blocks.specs.InForce.{with_entry, standings, sum_limit};
ghost use Rattle.carousel_blocks.specs.Modules.{AreModules, Covers, Grows, KeepModules, IsBacked, blocks_at, blocks_for, kept_at, shape_of};
ghost use Rattle.carousel_blocks.specs.Drafts.{IsDraft, AreModulesOf, carried_of};
ghost use Rattle.carousel_blocks.specs.Drafts.{key_of, is_key};
ghost use Rattle.dsmcc_messages.specs.Ddb.{fields_of};
ghost use Rattle.carousel_blocks.specs.Drafts.{asked_key_of};
ghost use Rattle.carousel_blocks.specs.Held.{bytes_kept};
ghost use Rattle.carousel_blocks.specs.Buffers.{shape_length};
ghost use Rattle.carousel_blocks.specs.Steps.{answer_in, answer_to, with_block, with_block_in, without_block};

use crate::buffer::{Buffer, Shape};
use crate::put::Put;
use crate::standing::{SkipCause, Standing};
use bml_bytes::NoMemory;
use dsmcc_messages::{Ddb, Dii, Entry};
use slab::Slab;
use std::alloc::Global;
use std::collections::HashMap;

/// A module of the DII in force.
#[derive(Drop)]
pub struct Module {
    /// What the DII says of it.
    pub standing: Standing,
    /// The key of its buffer, where it isn't skipped.
    pub key: Option<usize>,
}

/// The modules of a DII by their numbers.
pub type Modules = HashMap<u16, Module>;

/// The modules of a DII, as far as its entries are read.
#[derive(Drop)]
pub struct Draft {
    download: u32,
    block_size: u16,
    /// The bytes of the modules that aren't skipped.
    size: u64,
    modules: Modules,
}

/// The modules of a DII. Those whose entries are unchanged keep their buffers, others get new ones.
pub fn modules_of(
    alloc: Global,
    old: &Modules,
    buffers: &mut Slab<Buffer>,
    dii: Dii,
) -> Result<Modules, NoMemory>
    requires { AreModules old.now buffers.old }
    ensures keeps { KeepModules old.now buffers.old buffers.new }
    ensures modules { IfOk result
        (λ modules. AreModulesOf dii (kept_at old.now buffers.old) modules buffers.new) }
{
    let mut draft = Draft {
        download: dii.download,
        block_size: dii.block_size,
        size: 0,
        modules: HashMap::new(alloc),
    };
    'entries: for entry in dii.entries.into_vec() {
        draft.add(old, buffers, entry)?;
    }
    let Draft { modules, .. } = draft;
    Ok(modules)
}

impl Draft {
    // Adds the module of the next entry. Of two entries with one number the first counts.
    fn add(
        &mut self,
        old: &Modules,
        buffers: &mut Slab<Buffer>,
        entry: Entry,
    ) -> Result<(), NoMemory>
        requires modules { AreModules old.now buffers.old }
        requires size { self.old.size ≤ sum_limit }
        ensures keeps { KeepModules old.now buffers.old buffers.new }
        ensures size { OnOk result (self.new.size ≤ sum_limit) }
        ensures added { OnOk result ((dii : Dii) (kept : ℕ
            → Option Kept) (before : List Standing) → ((number : ℕ)
            → kept_at old.now buffers.old number ≡ kept number)
            → IsDraft dii kept before self.old buffers.old
            → IsDraft dii kept (with_entry dii before entry) self.new buffers.new) }
    {
        if self.modules.contains_key(&entry.id) {
            return Ok(());
        }
        let standing = Standing::of(self.download, self.block_size, self.size, entry);
        let key = key_for(old, buffers, &standing)?;
        self.size += standing.counted_size();
        self.modules
            .insert(standing.entry.id, Module { standing, key })?;
        Ok(())
    }
}

// The key of a module's buffer: the one that it has where its entry is unchanged, else that of a new one.
fn key_for(
    old: &Modules,
    buffers: &mut Slab<Buffer>,
    standing: &Standing,
) -> Result<Option<usize>, NoMemory>
    requires modules { AreModules old.now buffers.old }
    requires covers { Covers standing.now }
    ensures grows { Grows buffers.old buffers.new }
    ensures backed { IfOk result (IsBacked buffers.new standing.now) }
    ensures kept { IfOk result (λ key. blocks_at buffers.new key
        ≡ blocks_for (kept_at old.now buffers.old standing.now.entry.id) standing.now) }
{
    if let Some(module) = carried(old, standing) {
        return Ok(module.key);
    }
    let Some(shape) = shape_of(standing) else {
        return Ok(None);
    };
    let key = buffers.insert(Buffer::new(shape))?;
    Ok(Some(key))
}

// The module that keeps its buffer, where its entry is unchanged.
fn carried<'a>(old: &'a Modules, standing: &Standing) -> Option<&'a Module>
    ensures { option_copied result
        ≡ carried_of (value_at nat_eq old.now standing.now.entry.id) standing.now }
{
    let module = old.get(&standing.entry.id)?;
    if !module.standing.is_same(standing) {
        return None;
    }
    Some(module)
}

fn shape_of(standing: &Standing) -> Option<Shape>
    ensures { result ≡ shape_of standing.now }
{
    match standing.skip {
        Some(_) => None,
        None => Some(Shape {
            number: standing.entry.id,
            block_size: standing.block_size,
            size: standing.entry.size,
        }),
    }
}

/// Gives the buffers back that no module has.
pub fn give_back_unused(modules: &Modules, buffers: &mut Slab<Buffer>)
    requires { AreModules modules.now buffers.old }
    ensures { KeepModules modules.now buffers.old buffers.new }
{
    let bound = buffers.capacity();
    'keys: for key in 0..bound {
        give_back(modules, buffers, key);
    }
}

// Gives the buffer with that key back, where no module has it.
fn give_back(modules: &Modules, buffers: &mut Slab<Buffer>, key: usize)
    requires { AreModules modules.now buffers.old }
    ensures { KeepModules modules.now buffers.old buffers.new }
{
    let Some(buffer) = buffers.get(key) else {
        return;
    };
    if !has_key(modules, buffer.number(), key) {
        let _unused = buffers.try_remove(key);
    }
}

fn has_key(modules: &Modules, number: u16, key: usize) -> bool
    ensures { result ≡ is_key key (key_of (value_at nat_eq modules.now number)) }
{
    match modules.get(&number) {
        None => false,
        Some(module) => module.key == Some(key),
    }
}

/// Puts a block into the buffer of the module that asks for it, where one does. After `NoMemory` the modules have what
/// they had.
pub fn put_block(
    alloc: Global,
    modules: &Modules,
    buffers: &mut Slab<Buffer>,
    ddb: &Ddb<'_>,
) -> Result<Put, NoMemory>
    requires { AreModules modules.now buffers.old }
    ensures are { AreModules modules.now buffers.new }
    ensures kept { OnOk result ((number : ℕ) → kept_at modules.now buffers.new number
        ≡ option_map (with_block (fields_of ddb.now)) (kept_at modules.now buffers.old number)) }
    ensures answer { IfOk result (λ put.
        put ≡ answer_to (kept_at modules.now buffers.old ddb.now.«module») (fields_of ddb.now)) }
    ensures same { OnErr result ((number : ℕ)
        → kept_at modules.now buffers.new number ≡ kept_at modules.now buffers.old number) }
{
    let Some(key) = asked_key(modules, ddb) else {
        return Ok(Put::Ignored);
    };
    match buffers.get_mut(key) {
        None => Ok(Put::Ignored),
        Some(buffer) => put_in(alloc, buffer, ddb.number, ddb.block),
    }
}

/// Takes a block back from the module that asks for it, where one does.
pub fn take_back(modules: &Modules, buffers: &mut Slab<Buffer>, ddb: &Ddb<'_>)
    requires { AreModules modules.now buffers.old }
    ensures are { AreModules modules.now buffers.new }
    ensures kept { (number : ℕ) → kept_at modules.now buffers.new number
        ≡ option_map (without_block (fields_of ddb.now)) (kept_at modules.now buffers.old number) }
{
    let Some(key) = asked_key(modules, ddb) else {
        return;
    };
    match buffers.get_mut(key) {
        None => {}
        Some(buffer) => buffer.take_back(ddb.number),
    }
}

// The key of the buffer of the module that asks for a block, where one does.
fn asked_key(modules: &Modules, ddb: &Ddb<'_>) -> Option<usize>
    ensures { result
        ≡ asked_key_of (value_at nat_eq modules.now ddb.now.«module») (fields_of ddb.now) }
{
    let module = modules.get(&ddb.module)?;
    if !module.standing.asks_for(ddb) {
        return None;
    }
    module.key
}

// Puts a block into the buffer, where none came for its number.
fn put_in(alloc: Global, buffer: &mut Buffer, number: u16, block: &[u8]) -> Result<Put, NoMemory>
    requires { length block.now ≡ shape_length buffer.old.shape number }
    ensures block { OnOk result (buffer.new ≡ with_block_in number block.now buffer.old) }
    ensures answer { IfOk result (λ put. put ≡ answer_in number block.now buffer.old) }
    ensures same { OnErr result (buffer.new ≡ buffer.old) }
{
    if !buffer.lacks(number) {
        return Ok(Put::Ignored);
    }
    buffer.put(alloc, number, block)?;
    if buffer.is_complete() {
        Ok(Put::Completed(buffer.number()))
    } else {
        Ok(Put::Kept)
    }
}

/// What the DII says of a module, where it has it.
pub fn standing_at(modules: &Modules, number: u16) -> Option<&Standing>
    ensures { option_copied result
        ≡ option_map (λ m. m.standing) (value_at nat_eq modules.now number) }
{
    let module = modules.get(&number)?;
    Some(&module.standing)
}

/// The bytes of a module, where it isn't skipped and each block came.
pub fn whole_of<'a>(modules: &Modules, buffers: &'a Slab<Buffer>, number: u16) -> Option<&'a [u8]>
    requires { AreModules modules.now buffers.now }
    ensures { option_copied result
        ≡ option_and_then bytes_kept (kept_at modules.now buffers.now number) }
{
    let module = modules.get(&number)?;
    let buffer = buffers.get(module.key?)?;
    buffer.whole()
}

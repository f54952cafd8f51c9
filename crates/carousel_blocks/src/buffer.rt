//! The bytes of one module, as its blocks come.

ghost use Rattle.std.specs.Prelude.{◌≡◌, ◌≤◌, ◌+◌, ◌*◌, true, IfOk, OnOk, OnErr, length, slice_get, option_copied, replicate, None};
ghost use Rattle.carousel_blocks.specs.Held.{joined_bytes};
ghost use Rattle.carousel_blocks.specs.Buffers.{is_marked, is_unmarked, overwritten};
ghost use Rattle.carousel_blocks.specs.Buffers.{shape_count, shape_length, without_blocks, with_block_at, without_block_at, is_missing, all_came};

use crate::standing::block_count;
use bml_bytes::NoMemory;
use std::alloc::Global;
use std::marker::Model;

/// A module's number, and of how many bytes its blocks and the module are.
#[derive(Clone, Copy, Debug, PartialEq, Eq)]
pub struct Shape {
    pub number: u16,
    /// The bytes of each block but the last.
    pub block_size: u16,
    /// The module's length in bytes.
    pub size: u32,
}

impl Shape {
    // The place of a block's first byte.
    fn start_of(&self, number: u16) -> usize
        ensures { result ≡ number * self.now.block_size }
    {
        usize::from(number) * usize::from(self.block_size)
    }

    // The number of the module's blocks.
    fn count(&self) -> usize
        ensures { result ≡ shape_count self.now }
    {
        block_count(self.block_size, self.size)
    }
}

/// A module with the blocks that came for it so far. It takes memory with the first.
#[derive(Drop)]
pub struct Buffer {
    shape: Shape,
    /// The blocks, once one came.
    blocks: Option<Blocks>,
}

impl Model for Buffer {
    ghost use Rattle.carousel_blocks.specs.Buffers.{BufferState, buffer_of, IsBuffer};

    ghost Value = { BufferState };

    ghost view = { λ b. buffer_of b.shape b.blocks };

    ghost invariant = { λ b. IsBuffer b.shape b.blocks };
}

impl Buffer {
    /// A buffer for a module, to which no block came. This takes no memory.
    pub fn new(shape: Shape) -> Buffer
        requires { shape.size ≤ shape_count shape * shape.block_size }
        ensures { result ≡ without_blocks shape }
    {
        Buffer {
            shape,
            blocks: None,
        }
    }

    /// The module's number.
    pub fn number(&self) -> u16
        ensures { result ≡ self.now.shape.number }
    {
        self.shape.number
    }

    /// Whether no block with that number came yet.
    pub fn lacks(&self, number: u16) -> bool
        ensures { result ≡ is_missing (slice_get self.now.blocks number) }
    {
        match &self.blocks {
            None => usize::from(number) < self.shape.count(),
            Some(blocks) => blocks.lacks(number),
        }
    }

    /// Whether each block came.
    pub fn is_complete(&self) -> bool
        ensures { result ≡ all_came self.now.blocks }
    {
        match &self.blocks {
            None => self.shape.count() == 0,
            Some(blocks) => blocks.is_complete(),
        }
    }

    /// Takes a block that didn't come yet. After `NoMemory` everything is as before.
    pub fn put(&mut self, alloc: Global, number: u16, block: &[u8]) -> Result<(), NoMemory>
        requires missing { is_missing (slice_get self.old.blocks number) ≡ true }
        requires length { length block.now ≡ shape_length self.old.shape number }
        ensures ok { OnOk result (self.new ≡ with_block_at number block.now self.old) }
        ensures err { OnErr result (self.new ≡ self.old) }
    {
        if let Some(blocks) = &mut self.blocks {
            blocks.put(number, block);
            return Ok(());
        }
        let mut blocks = Blocks::new(alloc, self.shape)?;
        blocks.put(number, block);
        self.blocks = Some(blocks);
        Ok(())
    }

    /// Takes a block back, as if it hadn't come.
    pub fn take_back(&mut self, number: u16)
        ensures { self.new ≡ without_block_at number self.old }
    {
        if let Some(blocks) = &mut self.blocks {
            blocks.take_back(number);
            return;
        }
    }

    /// The module's bytes, once each block came.
    pub fn whole(&self) -> Option<&[u8]>
        ensures { option_copied result ≡ joined_bytes self.now.blocks }
    {
        match &self.blocks {
            None => nothing(self.shape.count()),
            Some(blocks) => blocks.whole(),
        }
    }
}

// The bytes of no blocks, where there are to be none.
fn nothing(count: usize) -> Option<&'static [u8]>
    ensures { option_copied result ≡ joined_bytes (replicate count None) }
{
    if count > 0 {
        return None;
    }
    Some(&[])
}

// The blocks of a module, once one came. The module's bytes lie in one piece.
#[derive(Drop)]
struct Blocks {
    shape: Shape,
    /// The blocks, each at its place.
    bytes: Vec<u8>,
    // Which of them came.
    marks: Vec<bool>,
    // How many of them didn't come yet.
    missing: usize,
}

impl Model for Blocks {
    ghost use Rattle.carousel_blocks.specs.Buffers.{BufferState, blocks_in, IsSound};

    ghost Value = { BufferState };

    ghost view = { λ b. record {
      shape = b.shape;
      blocks = blocks_in b.shape.block_size b.marks.items b.bytes.items;
    } };

    ghost invariant = { λ b.
        IsSound b.shape.block_size b.shape.size b.bytes.items b.marks.items b.missing };
}

impl Blocks {
    // Room for a module's blocks, of which none came. All of its memory is taken here.
    fn new(alloc: Global, shape: Shape) -> Result<Blocks, NoMemory>
        requires { shape.size ≤ shape_count shape * shape.block_size }
        ensures { IfOk result (λ buffer. buffer ≡ without_blocks shape) }
    {
        let count = block_count(shape.block_size, shape.size);
        Ok(Blocks {
            shape,
            bytes: vec![in alloc; 0; shape.size as usize]?,
            marks: vec![in alloc; false; count]?,
            missing: count,
        })
    }

    // Whether no block with that number came yet.
    fn lacks(&self, number: u16) -> bool
        ensures { result ≡ is_missing (slice_get self.now.blocks number) }
    {
        is_unmarked(&self.marks, usize::from(number))
    }

    // Whether each block came.
    fn is_complete(&self) -> bool
        ensures { result ≡ all_came self.now.blocks }
    {
        self.missing == 0
    }

    // Takes a block that didn't come yet.
    fn put(&mut self, number: u16, block: &[u8])
        requires missing { is_missing (slice_get self.old.blocks number) ≡ true }
        requires length { length block.now ≡ shape_length self.old.shape number }
        ensures { self.new ≡ with_block_at number block.now self.old }
    {
        let start = self.shape.start_of(number);
        let place = usize::from(number);
        write_block(&mut self.bytes, start, block);
        self.marks[place] = true;
        self.missing -= 1;
    }

    // Takes a block back, as if it hadn't come.
    fn take_back(&mut self, number: u16)
        ensures { self.new ≡ without_block_at number self.old }
    {
        let place = usize::from(number);
        if is_marked(&self.marks, place) {
            self.marks[place] = false;
            self.missing += 1;
        }
    }

    // The module's bytes, once each block came.
    fn whole(&self) -> Option<&[u8]>
        ensures { option_copied result ≡ joined_bytes self.now.blocks }
    {
        if self.missing > 0 {
            return None;
        }
        Some(self.bytes.as_slice())
    }
}

// Whether there is a block of that place, and it came.
fn is_marked(marks: &[bool], place: usize) -> bool
    ensures { result ≡ is_marked (slice_get marks.now place) }
{
    match marks.get(place) {
        None => false,
        Some(mark) => *mark,
    }
}

// Whether there is a block of that place, and it didn't come yet.
fn is_unmarked(marks: &[bool], place: usize) -> bool
    ensures { result ≡ is_unmarked (slice_get marks.now place) }
{
    match marks.get(place) {
        None => false,
        Some(mark) => !*mark,
    }
}

fn write_block(bytes: &mut Vec<u8>, start: usize, block: &[u8])
    requires { start + length block.now ≤ length bytes.old.items }
    ensures { bytes.new.items ≡ overwritten start block.now bytes.old.items }
{
    bytes[start..start + block.len()].copy_from_slice(block);
}

//! What a DII says of a module, and whether the module is skipped.

ghost use Rattle.std.specs.Prelude.{◌≡◌, ◌≤◌, ◌+◌, ◌*◌, ◌||◌, if◌then◌else◌, nat_lt, bytes_eq};
ghost use Rattle.dsmcc_messages.specs.Ddb.{fields_of};

use dsmcc_messages::{COMPRESSION_TYPE, Ddb, Entry, find_descriptor};

/// The most bytes of a module that isn't skipped.
const SIZE_LIMIT: u32 = 1_048_576;

/// The most blocks of a module that isn't skipped.
const BLOCK_LIMIT: usize = 65_536;

/// The most bytes of all modules of a DII that aren't skipped.
const SUM_LIMIT: u64 = 33_554_432;

/// Why a module is skipped: none of its blocks is kept.
#[derive(Clone, Copy, Debug, PartialEq, Eq)]
pub enum SkipCause {
    /// It is compressed: its info has a CompressionType descriptor (after ARIB STD-B24, volume 3).
    Compressed,
    /// It has more than 1,048,576 bytes or more than 65,536 blocks, or bytes but blocks of none, or together with
    /// the unskipped modules before it in the DII more than 33,554,432 bytes.
    Large,
}

/// What a DII says of a module.
#[derive(Debug, Drop)]
pub struct Standing {
    /// The downloadId, which the module's DDBs have too.
    pub download: u32,
    /// The length in bytes of each block but the last.
    pub block_size: u16,
    /// The module's entry.
    pub entry: Entry,
    /// Why the module is skipped, where it is.
    pub skip: Option<SkipCause>,
}

impl Standing {
    ghost use Rattle.carousel_blocks.specs.InForce.{skip_standing, counted_size, sum_limit};
    ghost use Rattle.carousel_blocks.specs.Held.{block_length, count_of, is_asked, same_standing};

    /// The standing of an entry, behind unskipped entries of its DII with `before` bytes together.
    pub fn of(download: u32, block_size: u16, before: u64, entry: Entry) -> Standing
        requires { before ≤ sum_limit }
        ensures { result ≡ record {
          download = download;
          block_size = block_size;
          entry = entry;
          skip = skip_standing block_size before entry;
        } }
    {
        let skip = skip_of(block_size, before, &entry);
        Standing {
            download,
            block_size,
            entry,
            skip,
        }
    }

    /// The bytes that count against the limit on a DII's modules: none where the module is skipped.
    pub fn counted_size(&self) -> u64
        ensures { result ≡ counted_size self.now.skip self.now.entry.size }
    {
        if self.skip.is_some() {
            return 0;
        }
        u64::from(self.entry.size)
    }

    /// Whether a later DII says the same of the module.
    pub fn is_same(&self, new: &Standing) -> bool
        ensures { result ≡ same_standing self.now new.now }
    {
        new.download == self.download
            && new.block_size == self.block_size
            && new.entry.id == self.entry.id
            && new.entry.size == self.entry.size
            && new.entry.version == self.entry.version
            && same_bytes(new.entry.info.as_slice(), self.entry.info.as_slice())
            && same_skip(new.skip, self.skip)
    }

    /// Whether the module's entry asks for the block.
    pub fn asks_for(&self, ddb: &Ddb<'_>) -> bool
        ensures { result ≡ is_asked self.now (fields_of ddb.now) }
    {
        usize::from(ddb.number) < self.count()
            && ddb.download == self.download
            && ddb.module == self.entry.id
            && ddb.version == self.entry.version
            && ddb.block.len() == self.block_length(ddb.number)
    }

    // The number of blocks that the entry asks for.
    fn count(&self) -> usize
        ensures { result ≡ count_of self.now }
    {
        match self.skip {
            None => block_count(self.block_size, self.entry.size),
            Some(_) => 0,
        }
    }

    // The length of a block.
    fn block_length(&self, number: u16) -> usize
        ensures { result ≡ block_length self.now number }
    {
        let start = usize::from(number) * usize::from(self.block_size);
        let behind = (self.entry.size as usize).saturating_sub(start);
        behind.min(usize::from(self.block_size))
    }
}

fn same_bytes(a: &[u8], b: &[u8]) -> bool
    ensures { result ≡ bytes_eq a.now b.now }
{
    a == b
}

ghost use Rattle.carousel_blocks.specs.Held.{same_skip};

fn same_skip(new: Option<SkipCause>, old: Option<SkipCause>) -> bool
    ensures { result ≡ same_skip new old }
{
    new == old
}

ghost use Rattle.carousel_blocks.specs.InForce.{block_count, sum_limit, is_compressed, is_large, skip_standing};

fn skip_of(block_size: u16, before: u64, entry: &Entry) -> Option<SkipCause>
    requires { before ≤ sum_limit }
    ensures { result ≡ skip_standing block_size before entry.now }
{
    if is_compressed(entry) {
        return Some(SkipCause::Compressed);
    }
    if is_large(block_size, entry.size) || passes_sum(before, entry.size) {
        return Some(SkipCause::Large);
    }
    None
}

// Whether the module's info has a CompressionType descriptor. Info of another form has none.
fn is_compressed(entry: &Entry) -> bool
    ensures { result ≡ is_compressed entry.now }
{
    match find_descriptor(entry.info.as_slice(), COMPRESSION_TYPE) {
        Ok(found) => found.is_some(),
        Err(_) => false,
    }
}

// Whether a module is large by itself.
fn is_large(block_size: u16, size: u32) -> bool
    ensures { result ≡ is_large block_size size }
{
    if block_size == 0 {
        return size > 0;
    }
    size > SIZE_LIMIT || block_count(block_size, size) > BLOCK_LIMIT
}

fn passes_sum(before: u64, size: u32) -> bool
    requires { before ≤ sum_limit }
    ensures { result ≡ nat_lt sum_limit (before + size) }
{
    before + u64::from(size) > SUM_LIMIT
}

/// The number of a module's blocks.
pub fn block_count(block_size: u16, size: u32) -> usize
    ensures { result ≡ block_count block_size size }
{
    if block_size == 0 {
        return 0;
    }
    let block_size = usize::from(block_size);
    (size as usize + (block_size - 1)) / block_size
}

//! A disk in memory.

ghost use Rattle.std.specs.Prelude.{◌≡◌, false, ◌+◌, ◌<◌, ◌≤◌, ◌↔◌, [], ◌∷◌, ◌++◌, ◌⊎◌, ◌-◌, length, take, drop, min, vec_len, vec_capacity, slice_index, IfOk, IsErr, IsTrue, OnErr, is_err};
ghost use Rattle.bml_ports.specs.Counters.{Counts, Rose};
ghost use Rattle.nv_journal.specs.Disks.{Told, WhereTold, Reads, Writes, Syncs, IsImage, IsIn, furthest, only, after_write, overwritten};
ghost use Rattle.nv_journal.specs.Slots.{journal_length};
ghost use Rattle.bml_ports.specs.MemoryCalls.{no_calls, after_call, FailsNext};
ghost use Rattle.nv_journal.specs.MemoryDisks.{IsRefused, told_by_disk, new_content, moved, with_reads};

use crate::disks::{Disk, Extent};
use crate::slots::JOURNAL_LENGTH;
use bml_bytes::NoMemory;
use bml_ports::{Calls, Failed, is_listed};
use std::alloc::Global;
use std::marker::Model;

/// What a call left in the past of a disk in memory.
#[derive(Clone, Copy)]
pub enum Mark {
    Wrote(Extent),
    Synced([u8; JOURNAL_LENGTH], usize),
}

/// A disk that keeps some bytes and its whole past, and fails at given calls.
#[derive(Drop)]
pub struct MemoryDisk {
    first: Vec<u8>,
    bytes: Vec<u8>,
    settled: Vec<u8>,
    written: Vec<Extent>,
    marks: Vec<Mark>,
    failing: Vec<u64>,
    calls: Calls,
    most: usize,
}

impl Model for MemoryDisk {
    ghost use Rattle.std.specs.Prelude.{vec_capacity};
    ghost use Rattle.nv_journal.specs.Disks.{only};
    ghost use Rattle.nv_journal.specs.MemoryDisks.{MemoryDiskState};
    ghost use Rattle.nv_journal.specs.devices.MemoryMarks.{images_before, IsKept};

    ghost Value = { MemoryDiskState };

    ghost view = { λ disk. record {
      content = record {
        reads = disk.bytes.items;
        images = record { settled = disk.settled.items; written = disk.written.items };
        past = images_before (only disk.first.items) disk.marks.items;
      };
      failing = disk.failing.items;
      calls = disk.calls;
      most = disk.most;
    } };

    ghost invariant = { λ disk. IsKept disk.first.items disk.bytes.items disk.settled.items
        disk.written.items disk.marks.items (vec_capacity disk.bytes) (vec_capacity disk.settled)
        (vec_capacity disk.written) (vec_capacity disk.marks) disk.most disk.calls.made };
}

impl MemoryDisk {
    /// A disk of these bytes, whose calls of the given numbers fail, and each call past so many. It
    /// takes the memory for all of them at once.
    pub fn new(
        alloc: Global,
        bytes: Vec<u8>,
        failing: Vec<u64>,
        calls: usize,
    ) -> Result<MemoryDisk, NoMemory>
        requires { length bytes.items ≤ journal_length }
        ensures { IfOk result (λ disk. disk ≡ record {
          content = new_content bytes.items;
          failing = failing.items;
          calls = no_calls;
          most = calls;
        }) }
    {
        let kept = with_room(alloc, &bytes)?;
        let settled = with_room(alloc, &bytes)?;
        MemoryDisk::of_copies(alloc, bytes, kept, settled, failing, calls)
    }

    // The same, with two copies of the bytes that have room for as many as a disk has.
    fn of_copies(
        alloc: Global,
        first: Vec<u8>,
        bytes: Vec<u8>,
        settled: Vec<u8>,
        failing: Vec<u64>,
        calls: usize,
    ) -> Result<MemoryDisk, NoMemory>
        requires fits { length first.items ≤ journal_length }
        requires bytes { (bytes.items ≡ first.items) × (journal_length ≤ vec_capacity bytes) }
        requires settled { (settled.items ≡ first.items)
            × (journal_length ≤ vec_capacity settled) }
        ensures { IfOk result (λ disk. disk ≡ record {
          content = new_content first.items;
          failing = failing.items;
          calls = no_calls;
          most = calls;
        }) }
    {
        let written = Vec::with_capacity(alloc, calls)?;
        let marks = Vec::with_capacity(alloc, calls)?;
        Ok(MemoryDisk {
            first,
            bytes,
            settled,
            written,
            marks,
            failing,
            calls: Calls::none(),
            most: calls,
        })
    }

    /// What reads give.
    pub fn bytes(&self) -> &[u8]
        ensures { result.now ≡ self.now.content.reads }
    {
        self.bytes.as_slice()
    }

    /// One of the byte lists that a stop may leave now.
    ///
    /// An even pick gives the greatest length as far as 6,148, less `pick / 16`, and an odd one the
    /// least. What a byte is that was written since the last sync, or stands past the end that it
    /// left, the number `pick / 2 % 8` says: 0 the one that is read, 1 the one before, 2 to 4 the
    /// numbers 0, 1 and 2, 5 the last 8 bits of its place, 6 and 7 in turn the one that is read and
    /// the one before.
    pub fn crashed(&self, alloc: Global, pick: u64) -> Result<Vec<u8>, NoMemory>
        ensures image { IfOk result (λ image. IsImage self.now.content.images image.items) }
        ensures fits { IfOk result (λ image. length image.items ≤ journal_length) }
    {
        let image = image_of(
            alloc,
            self.bytes.as_slice(),
            self.settled.as_slice(),
            self.written.as_slice(),
            pick,
        )?;
        Ok(image)
    }

    // Whether there is memory for one more call.
    fn has_room(&self) -> bool
        ensures { IsTrue result ↔ (self.now.calls.made < self.now.most) }
    {
        self.calls.made < self.most as u64
    }

    fn is_listed_next(&self) -> bool
        ensures { IsTrue result ↔ FailsNext self.now.failing self.now.calls }
    {
        is_listed(self.failing.as_slice(), self.calls.next_number())
    }

    // Whether the next call fails, of whatever kind it is.
    fn is_refused(&self) -> bool
        ensures { IsTrue result ↔ IsRefused self.now }
    {
        !self.has_room() || self.is_listed_next()
    }

    // A call that leaves the past.
    fn count(&mut self, failed: bool)
        ensures after { self.new ≡ record self.old { calls = after_call self.old.calls failed } }
        ensures later { self.old.calls.faults ≤ self.new.calls.faults }
        ensures rose { IsTrue failed → Rose self.old.calls.faults self.new.calls.faults }
        ensures read { IsImage self.old.content.images self.old.content.reads }
    {
        self.calls.count(failed);
    }

    // A write as far as the images go.
    fn note_write(&mut self, place: u64, size: usize, failed: bool)
        requires { self.old.calls.made < self.old.most }
        ensures after { self.new ≡ record self.old {
          content = moved self.old.content (after_write self.old.content.images place size);
          calls = after_call self.old.calls failed;
        } }
        ensures later { self.old.calls.faults ≤ self.new.calls.faults }
        ensures rose { IsTrue failed → Rose self.old.calls.faults self.new.calls.faults }
        ensures read { IsImage self.old.content.images self.old.content.reads }
    {
        let extent = Extent { place, size };
        self.written.push(extent).unwrap();
        self.marks.push(Mark::Wrote(extent)).unwrap();
        self.calls.count(failed);
    }

    // A write as far as what is read goes.
    fn put(&mut self, place: usize, bytes: &[u8])
        requires within { place ≤ length self.old.content.reads }
        requires fits { place + length bytes.now ≤ journal_length }
        requires image { IsImage self.old.content.images
            (overwritten self.old.content.reads place bytes.now) }
        ensures { self.new ≡ record self.old {
          content = with_reads self.old.content
              (overwritten self.old.content.reads place bytes.now);
        } }
    {
        overwrite(&mut self.bytes, place, bytes);
    }

    // A sync that succeeds.
    fn settle(&mut self)
        requires { self.old.calls.made < self.old.most }
        ensures after { self.new ≡ record self.old {
          content = moved self.old.content (only self.old.content.reads);
          calls = after_call self.old.calls false;
        } }
        ensures later { self.old.calls.faults ≤ self.new.calls.faults }
        ensures read { IsImage self.old.content.images self.old.content.reads }
    {
        let size = self.bytes.len();
        let snapshot = snapshot(self.bytes.as_slice());
        self.settled.clear();
        self.settled
            .extend_from_slice(self.bytes.as_slice())
            .unwrap();
        self.written.clear();
        self.marks.push(Mark::Synced(snapshot, size)).unwrap();
        self.calls.count(false);
    }
}

impl Disk for MemoryDisk {
    ghost told = { told_by_disk };

    /// Fails exactly where the number of the call is listed or past those that there is memory for.
    fn read_at(&mut self, place: u64, into: &mut [u8]) -> Result<usize, Failed>
        ensures count { IfOk result (λ count. count ≤ length into.new) }
        ensures content { Told (Reads place (length into.old) into.new result)
            (told_by_disk self.old).content (told_by_disk self.new).content }
        ensures counted { Counts (told_by_disk self.old).faults
            (told_by_disk self.new).faults result }

        ensures fails { IsErr result ↔ IsRefused self.old }
        ensures after { self.new ≡ record self.old {
          calls = after_call self.old.calls (is_err result);
        } }
    {
        let fails = self.is_refused();
        self.count(fails);
        if fails {
            return Err(Failed);
        }
        Ok(read_from(self.bytes.as_slice(), place, into))
    }

    /// Fails exactly where the number of the call is listed or past those that there is memory for,
    /// or where the write ends past byte 6,148.
    fn write_at(&mut self, place: u64, bytes: &[u8]) -> Result<(), Failed>
        requires place { WhereTold (λ disk. place ≤ length disk.reads)
            (told_by_disk self.old).content }
        ensures content { Told (Writes place bytes.now result)
            (told_by_disk self.old).content (told_by_disk self.new).content }
        ensures counted { Counts (told_by_disk self.old).faults
            (told_by_disk self.new).faults result }

        ensures fails { IsErr result
            ↔ (IsRefused self.old ⊎ (journal_length < place + length bytes.now)) }
        ensures after { self.new.calls ≡ after_call self.old.calls (is_err result) }
    {
        if !self.has_room() {
            self.count(true);
            return Err(Failed);
        }
        let fails = self.is_listed_next() || !ends_within(place, bytes.len());
        self.note_write(place, bytes.len(), fails);
        if fails {
            return Err(Failed);
        }
        self.put(place as usize, bytes);
        Ok(())
    }

    /// Fails exactly where the number of the call is listed or past those that there is memory for.
    fn sync(&mut self) -> Result<(), Failed>
        ensures content { Told (Syncs result)
            (told_by_disk self.old).content (told_by_disk self.new).content }
        ensures counted { Counts (told_by_disk self.old).faults
            (told_by_disk self.new).faults result }

        ensures fails { IsErr result ↔ IsRefused self.old }
        ensures after { self.new.calls ≡ after_call self.old.calls (is_err result) }
    {
        let fails = self.is_refused();
        if fails {
            self.count(true);
            return Err(Failed);
        }
        self.settle();
        Ok(())
    }
}

// Whether a place lies in one of the extents.
fn is_in(extents: &[Extent], place: usize) -> bool
    ensures { IsTrue result ↔ IsIn extents.now place }
{
    for extent in extents {
        if extent.place <= place as u64 && place as u64 - extent.place < extent.size as u64 {
            return true;
        }
    }
    false
}

// The byte at a place, or 0 where there is none.
fn byte_at(bytes: &[u8], place: usize) -> u8 {
    if place < bytes.len() { bytes[place] } else { 0 }
}

// A byte that a stop may leave where one was written, or past the old end.
fn any_byte(now: u8, before: u8, pick: u64, place: usize) -> u8 {
    let is_even = place % 2 == 0;
    match pick / 2 % 8 {
        0 => now,
        1 => before,
        2 => 0,
        3 => 1,
        4 => 2,
        5 => (place % 256) as u8,
        6 => if is_even { now } else { before },
        _ => if is_even { before } else { now },
    }
}

// The byte of an image at a place.
fn byte_of(bytes: &[u8], settled: &[u8], written: &[Extent], pick: u64, place: usize) -> u8
    ensures { place < length settled.now → (IsIn written.now place → ⊥)
        → result ≡ slice_index settled.now place }
{
    if place < settled.len() && !is_in(written, place) {
        return settled[place];
    }
    any_byte(byte_at(bytes, place), byte_at(settled, place), pick, place)
}

// The greatest length of an image, as far as a disk in memory goes.
fn greatest_length(settled: &[u8], written: &[Extent]) -> usize
    requires { length settled.now ≤ journal_length }
    ensures least { length settled.now ≤ result }
    ensures most { result ≤ furthest (length settled.now) written.now }
    ensures fits { result ≤ journal_length }
{
    let mut greatest = settled.len();
    for extent in written {
        let end = extent.place.saturating_add(extent.size as u64);
        greatest = greatest.max(end.min(JOURNAL_LENGTH as u64) as usize);
    }
    greatest
}

// The length that a pick gives.
fn length_of(settled: &[u8], written: &[Extent], pick: u64) -> usize
    requires { length settled.now ≤ journal_length }
    ensures least { length settled.now ≤ result }
    ensures most { result ≤ furthest (length settled.now) written.now }
    ensures fits { result ≤ journal_length }
{
    let least = settled.len();
    if pick % 2 == 1 {
        return least;
    }
    let greatest = greatest_length(settled, written);
    let less = (pick / 16).min((greatest - least) as u64);
    greatest - less as usize
}

// An image.
fn image_of(
    alloc: Global,
    bytes: &[u8],
    settled: &[u8],
    written: &[Extent],
    pick: u64,
) -> Result<Vec<u8>, NoMemory>
    requires { length settled.now ≤ journal_length }
    ensures image { IfOk result (λ image. IsImage
        (record { settled = settled.now; written = written.now }) image.items) }
    ensures fits { IfOk result (λ image. length image.items ≤ journal_length) }
{
    let size = length_of(settled, written, pick);
    let mut image = Vec::new(alloc);
    for place in 0..size {
        image.push(byte_of(bytes, settled, written, pick, place))?;
    }
    Ok(image)
}

// A copy with room for as many bytes as a disk in memory has.
fn with_room(alloc: Global, bytes: &[u8]) -> Result<Vec<u8>, NoMemory>
    requires { length bytes.now ≤ journal_length }
    ensures { IfOk result (λ copy. (copy.items ≡ bytes.now)
        × (journal_length ≤ vec_capacity copy)) }
{
    let mut copy = Vec::with_capacity(alloc, JOURNAL_LENGTH)?;
    copy.extend_from_slice(bytes).unwrap();
    Ok(copy)
}

// Whether so many bytes from a place on end within the disk.
fn ends_within(place: u64, size: usize) -> bool
    ensures { IsTrue result ↔ (place + size ≤ journal_length) }
{
    place <= JOURNAL_LENGTH as u64 && size as u64 <= JOURNAL_LENGTH as u64 - place
}

// The bytes from a place on, as far as a buffer goes.
fn read_from(bytes: &[u8], place: u64, into: &mut [u8]) -> usize
    ensures count { result ≡ min (length into.old) (length bytes.now - place) }
    ensures bytes { take result into.new ≡ take result (drop place bytes.now) }
{
    if place >= bytes.len() as u64 {
        return 0;
    }
    let rest = &bytes[place as usize..];
    let count = rest.len().min(into.len());
    into[..count].copy_from_slice(&rest[..count]);
    count
}

// Bytes at the front of an array.
fn snapshot(bytes: &[u8]) -> [u8; JOURNAL_LENGTH]
    requires { length bytes.now ≤ journal_length }
    ensures { take (length bytes.now) result ≡ bytes.now }
{
    let mut all = [0; JOURNAL_LENGTH];
    all[..bytes.len()].copy_from_slice(bytes);
    all
}

// Writes bytes over others.
fn overwrite(old: &mut Vec<u8>, place: usize, bytes: &[u8])
    requires within { place ≤ length old.old.items }
    requires fits { place + length bytes.now ≤ vec_capacity old.old }
    ensures items { old.new.items ≡ overwritten old.old.items place bytes.now }
    ensures room { vec_capacity old.old ≤ vec_capacity old.new }
{
    let end = place + bytes.len();
    if end < old.len() {
        old[place..end].copy_from_slice(bytes);
    } else {
        old.truncate(place);
        old.extend_from_slice(bytes).unwrap();
    }
}

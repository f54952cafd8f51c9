//! Reading the fields of a table or a message from the front of its bytes.

ghost use Rattle.std.specs.Prelude.{◌≡◌, ◌<◌, ◌≤◌, ◌^◌, ◌∷◌, ◌++◌, [], length, take, drop, slice_get, IfSome, MatchOption};
ghost use Rattle.bml_bytes.specs.Codes.{AreBytes};
ghost use Rattle.bml_bytes.specs.Fields.{byte_at, bytes_at, number_at, with_left};
ghost use Rattle.bml_bytes.specs.Numbers.{big_bytes, big_number};

use byteorder::{BigEndian, ByteOrder};
use std::marker::Model;

/// Reads from the front of some bytes. Contracts see the list of the bytes that are left. A call for
/// more bytes than are left answers None and takes nothing. Numbers are big-endian, "uimsbf" of
/// ISO/IEC 13818-1.
#[derive(Debug, Drop)]
pub struct Cursor<'a> {
    left: &'a [u8],
}

impl<'a> Model for Cursor<'a> {
    ghost use Rattle.std.specs.Prelude.{List, ℕ};

    ghost Value = { List ℕ };

    ghost use Rattle.bml_bytes.specs.Codes.{AreBytes};

    ghost view = { λ cursor. cursor.left.now };

    ghost invariant = { λ cursor. AreBytes cursor.left.now };
}

impl<'a> Cursor<'a> {
    /// A cursor in front of the first byte.
    pub fn new(bytes: &'a [u8]) -> Cursor<'a>
        ensures left { result ≡ bytes.now }
        ensures bytes { AreBytes bytes.now }
    {
        Cursor { left: bytes }
    }

    /// The bytes that are left, which stay left.
    pub fn left(&self) -> &'a [u8]
        ensures left { result.now ≡ self.now }
        ensures bytes { AreBytes result.now }
    {
        self.left
    }

    /// The next byte.
    pub fn u8(&mut self) -> Option<u8>
        ensures enough { MatchOption result (self.old ≡ []) (λ _. 1 ≤ length self.old) }
        ensures number { result ≡ slice_get self.old 0 }
        ensures left { MatchOption result (self.new ≡ self.old) (λ _. self.new ≡ drop 1 self.old) }
        ensures read { IfSome result (λ byte. self.old ≡ byte ∷ self.new) }
        ensures field { with_left (λ byte. byte) result self.new ≡ byte_at self.old }
    {
        let (byte, left) = self.left.split_first()?;
        self.left = left;
        Some(*byte)
    }

    /// The number in the next two bytes.
    pub fn u16(&mut self) -> Option<u16>
        ensures enough { MatchOption result (length self.old < 2) (λ _. 2 ≤ length self.old) }
        ensures number { IfSome result (λ number. number ≡ big_number (take 2 self.old)) }
        ensures left { MatchOption result (self.new ≡ self.old) (λ _. self.new ≡ drop 2 self.old) }
        ensures read { IfSome result (λ number. self.old ≡ big_bytes 2 number ++ self.new) }
        ensures field { with_left (λ number. number) result self.new ≡ number_at 2 self.old }
    {
        let bytes = self.take(2)?;
        Some(BigEndian::read_u16(bytes))
    }

    /// The number in the next three bytes.
    pub fn u24(&mut self) -> Option<u32>
        ensures enough { MatchOption result (length self.old < 3) (λ _. 3 ≤ length self.old) }
        ensures number { IfSome result (λ number. number ≡ big_number (take 3 self.old)) }
        ensures fits { IfSome result (λ number. number < 2 ^ 24) }
        ensures left { MatchOption result (self.new ≡ self.old) (λ _. self.new ≡ drop 3 self.old) }
        ensures read { IfSome result (λ number. self.old ≡ big_bytes 3 number ++ self.new) }
        ensures field { with_left (λ number. number) result self.new ≡ number_at 3 self.old }
    {
        let bytes = self.take(3)?;
        Some(BigEndian::read_u24(bytes))
    }

    /// The number in the next four bytes.
    pub fn u32(&mut self) -> Option<u32>
        ensures enough { MatchOption result (length self.old < 4) (λ _. 4 ≤ length self.old) }
        ensures number { IfSome result (λ number. number ≡ big_number (take 4 self.old)) }
        ensures left { MatchOption result (self.new ≡ self.old) (λ _. self.new ≡ drop 4 self.old) }
        ensures read { IfSome result (λ number. self.old ≡ big_bytes 4 number ++ self.new) }
        ensures field { with_left (λ number. number) result self.new ≡ number_at 4 self.old }
    {
        let bytes = self.take(4)?;
        Some(BigEndian::read_u32(bytes))
    }

    /// The next bytes, which stay a part of those that the cursor was made of.
    pub fn take(&mut self, count: usize) -> Option<&'a [u8]>
        ensures enough { MatchOption result (length self.old < count)
            (λ _. count ≤ length self.old) }
        ensures part { IfSome result (λ part. part.now ≡ take count self.old) }
        ensures left { MatchOption result (self.new ≡ self.old)
            (λ _. self.new ≡ drop count self.old) }
        ensures read { IfSome result (λ part. self.old ≡ part.now ++ self.new) }
        ensures field { with_left (λ part. part.now) result self.new ≡ bytes_at count self.old }
        ensures bytes { IfSome result (λ part. AreBytes part.now) }
    {
        if self.left.len() < count {
            return None;
        }
        let (part, left) = self.left.split_at(count);
        self.left = left;
        Some(part)
    }
}

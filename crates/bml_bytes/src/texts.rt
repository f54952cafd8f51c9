//! A text as a list of codes.

ghost use Rattle.std.specs.Prelude.{◌≡◌, ◌<◌, [], ◌∷◌, length, slice_get, IfOk, IfSome, MatchOption, OnOk, ◌++◌};
ghost use Rattle.std.specs.Io.{StartsWith};
ghost use Rattle.bml_bytes.specs.Codes.{bytes_of, code_bytes, codes, is_high as spec_is_high, is_pair as spec_is_pair};
ghost use Rattle.bml_bytes.specs.Words.{is_same, is_same_in_any_case};
ghost use Rattle.std.specs.Cmp.Lexicographic.{slice_cmp};
ghost use Rattle.std.specs.Ordering.{nat_cmp};

use crate::hashes::hash_of;
use crate::refusals::NoMemory;
use crate::words::{is_word, is_word_in_any_case};
use std::alloc::Global;
use std::cmp::Ordering;
use std::hash::{Hash, Hasher};
use std::marker::Model;
use std::rc::Rc;

// How many codes of two texts that are put in order are compared at once.
const BLOCK: usize = 64;

// The codes of a text, and their hash.
#[derive(Debug, Drop)]
struct TextBody {
    codes: Vec<u16>,
    hash: u64,
}

/// A text of a document, a script or a stream: a list of codes, which copies share. Contracts see the
/// list of its codes. A code above 255 is a character of EUC-JP that takes two bytes, and every other
/// code is a byte that stands for itself. A text keeps a hash of its codes, so that to look it up in a
/// map doesn't read them.
#[derive(Debug, Drop)]
pub struct Text {
    body: Rc<TextBody>,
}

impl Model for Text {
    ghost use Rattle.std.specs.Prelude.{List, ℕ, ◌≡◌};
    ghost use Rattle.bml_bytes.specs.devices.Hashes.{text_hash};

    ghost Value = { List ℕ };

    ghost view = { λ text. text.body.value.codes.items };

    ghost invariant = { λ text. text.body.value.hash ≡ text_hash text.body.value.codes.items };
}

impl Text {
    /// The text of some bytes in EUC-JP. Any bytes are a text.
    pub fn of_bytes(alloc: Global, bytes: &[u8]) -> Result<Text, NoMemory>
        ensures { IfOk result (λ text. text ≡ codes bytes.now) }
    {
        let mut found: Vec<u16> = Vec::with_capacity(alloc, bytes.len())?;
        let mut rest = bytes;
        while let Some((code, behind)) = next_code(rest) {
            found.push(code)?;
            rest = behind;
        }
        Text::of_vec(found)
    }

    /// The text that has just these codes.
    pub fn of_codes(alloc: Global, codes: &[u16]) -> Result<Text, NoMemory>
        ensures { IfOk result (λ text. text ≡ codes.now) }
    {
        let mut own = Vec::with_capacity(alloc, codes.len())?;
        own.extend_from_slice(codes)?;
        Text::of_vec(own)
    }

    /// The text that has just these codes, which aren't copied.
    pub fn of_vec(codes: Vec<u16>) -> Result<Text, NoMemory>
        ensures { IfOk result (λ text. text ≡ codes.items) }
    {
        let alloc = *codes.allocator();
        let hash = hash_of(&codes);
        let body = Rc::new(alloc, TextBody { codes, hash })?;
        Ok(Text { body })
    }

    /// The number of its codes.
    pub fn len(&self) -> usize
        ensures { result ≡ length self.now }
    {
        self.codes().len()
    }

    /// The code at a place, counted from 0, and None past the last one.
    pub fn code(&self, place: usize) -> Option<u16>
        ensures { result ≡ slice_get self.now place }
    {
        self.codes().get(place).copied()
    }

    /// Whether it is this word of ASCII.
    pub fn is_word(&self, word: &str) -> bool
        ensures { result ≡ is_same self.now word.now }
    {
        is_word(self.codes(), word)
    }

    /// Whether it is this word of ASCII, where `A` to `Z` count as `a` to `z`.
    pub fn is_word_in_any_case(&self, word: &str) -> bool
        ensures { result ≡ is_same_in_any_case self.now word.now }
    {
        is_word_in_any_case(self.codes(), word)
    }

    /// All of its codes.
    pub fn codes(&self) -> &[u16]
        ensures { result.now ≡ self.now }
    {
        self.body.codes.as_slice()
    }

    /// How the codes of two texts stand to each other: by the first place at which they differ, and
    /// where one of them ends before that, it is less.
    pub fn order(&self, other: &Text) -> Ordering
        ensures { result ≡ slice_cmp nat_cmp self.now other.now }
    {
        order_of(self.codes(), other.codes())
    }

    /// Appends the bytes of the text: two for a code above 255, and one for every other. Where it finds no
    /// memory, `out` begins with what it held, and what may stand behind that isn't to be written.
    pub fn push_bytes(&self, out: &mut Vec<u8>) -> Result<(), NoMemory>
        ensures ok { OnOk result (out.new.items ≡ out.old.items ++ bytes_of self.now) }
        ensures grows { StartsWith out.new.items out.old.items }
    {
        for code in self.codes() {
            push_code(*code, out)?;
        }
        Ok(())
    }

    /// The same text again. Both share the codes, so this copies nothing and takes no memory.
    pub fn share(&self) -> Result<Text, NoMemory>
        ensures { IfOk result (λ text. text ≡ self.now) }
    {
        let body = self.body.clone()?;
        Ok(Text { body })
    }
}

impl PartialEq for Text {
    ghost use Rattle.std.specs.Prelude.{nat_eq};
    ghost use Rattle.std.specs.Cmp.Lexicographic.{pointwise};
    ghost use Rattle.std.specs.Cmp.Rules.{comparing};
    ghost use Rattle.std.proofs.Common.{rules};

    ghost eq = { pointwise nat_eq };

    ghost laws = { Prim.search (comparing, rules) };

    fn eq(&self, other: &Text) -> bool {
        self.body.hash == other.body.hash && self.codes() == other.codes()
    }
}

impl Eq for Text {
    ghost use Rattle.std.specs.Cmp.Rules.{comparing};
    ghost use Rattle.std.proofs.Common.{rules};

    ghost laws = { Prim.search (comparing, rules) };
}

impl Hash for Text {
    ghost use Rattle.std.specs.Hash as fed;
    ghost use Rattle.std.specs.Cmp.Rules.{hashing};
    ghost use Rattle.std.proofs.Common.{rules};
    ghost use Rattle.bml_bytes.specs.devices.Hashes.{text_hash};

    ghost hash_input = { λ codes. fed.u64 (text_hash codes) };

    ghost respects_eq = { Prim.search (hashing, rules) };

    fn hash<H: Hasher>(&self, state: &mut H) {
        self.body.hash.hash(state);
    }
}

// How two lists of codes stand to each other. Blocks that are the same at their fronts are passed.
#[tactic(auto, using(crate::proofs::OrderLemmas::behind_block))]
fn order_of(codes: &[u16], others: &[u16]) -> Ordering
    ensures { result ≡ slice_cmp nat_cmp codes.now others.now }
{
    let mut left = codes;
    let mut right = others;
    'blocks: while left.len() > BLOCK {
        let (block, behind) = left.split_at(BLOCK);
        match right.strip_prefix(block) {
            Some(rest) => {
                left = behind;
                right = rest;
            }
            None => return left.cmp(right),
        }
    }
    left.cmp(right)
}

// Appends the bytes of one code.
fn push_code(code: u16, out: &mut Vec<u8>) -> Result<(), NoMemory>
    ensures ok { OnOk result (out.new.items ≡ out.old.items ++ code_bytes code) }
    ensures grows { StartsWith out.new.items out.old.items }
{
    match u8::try_from(code) {
        Ok(byte) => out.push(byte)?,
        Err(_) => out.extend_from_slice(&code.to_be_bytes())?,
    }
    Ok(())
}

// The first code of some bytes and the bytes behind it, and None where there are no bytes.
#[tactic(auto, unfolding(crate::specs::Codes::codes))]
fn next_code(bytes: &[u8]) -> Option<(u16, &[u8])>
    ensures first { MatchOption result (codes bytes.now ≡ [])
        (λ found. codes bytes.now ≡ found.0 ∷ codes found.1.now) }
    ensures shorter { IfSome result (λ found. length found.1.now < length bytes.now) }
{
    let (first, rest) = bytes.split_first()?;
    if let Some((second, behind)) = rest.split_first() {
        if is_pair(*first, *second) {
            return Some((u16::from_be_bytes([*first, *second]), behind));
        }
    }
    Some((u16::from(*first), rest))
}

fn is_pair(first: u8, second: u8) -> bool
    ensures { result ≡ spec_is_pair first second }
{
    (is_high(first) || first == 0x8E) && is_high(second)
}

fn is_high(byte: u8) -> bool
    ensures { result ≡ spec_is_high byte }
{
    (0xA1..=0xFE).contains(&byte)
}

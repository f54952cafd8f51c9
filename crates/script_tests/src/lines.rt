//! The line that is told of a row, piece by piece.

use bml_bytes::{NoMemory, Text, push_count, push_decimal};
use std::alloc::Global;

/// What is told so far, and whether memory was wanting for a piece of it.
#[derive(Drop)]
pub struct Line {
    bytes: Vec<u8>,
    is_short: bool,
}

impl Line {
    /// Nothing is told.
    pub fn new(alloc: Global) -> Line {
        Line {
            bytes: Vec::new(alloc),
            is_short: false,
        }
    }

    /// Appends a byte.
    pub fn byte(&mut self, byte: u8) {
        if self.bytes.push(byte).is_err() {
            self.is_short = true;
        }
    }

    /// Appends a word.
    pub fn word(&mut self, word: &[u8]) {
        if self.bytes.extend_from_slice(word).is_err() {
            self.is_short = true;
        }
    }

    /// Appends a count, in base ten.
    pub fn count(&mut self, count: u64) {
        if push_count(count, &mut self.bytes).is_err() {
            self.is_short = true;
        }
    }

    /// Appends a number, in base ten.
    pub fn number(&mut self, number: i64) {
        if push_decimal(number, &mut self.bytes).is_err() {
            self.is_short = true;
        }
    }

    /// Appends the bytes of a text.
    pub fn text(&mut self, text: &Text) {
        if text.push_bytes(&mut self.bytes).is_err() {
            self.is_short = true;
        }
    }

    /// Notes that memory was wanting.
    pub fn fail(&mut self) {
        self.is_short = true;
    }

    /// Takes the last byte away.
    pub fn shorten(&mut self) {
        let _ = self.bytes.pop();
    }

    /// What is told so far.
    pub fn told(&self) -> &[u8] {
        &self.bytes
    }

    /// Whether memory was wanting for none of it.
    pub fn is_whole(&self) -> bool {
        !self.is_short
    }
}

//! The words of a row.

ghost use Rattle.std.specs.Prelude.{◌<◌};

use bml_bytes::NoMemory;
use std::alloc::Global;

/// The words of a line, which have a tab between them.
pub fn words_of(alloc: Global, line: &[u8]) -> Result<Vec<Vec<u8>>, NoMemory> {
    let mut words = Vec::new(alloc);
    push_words(alloc, line, &mut words)?;
    Ok(words)
}

fn push_words(alloc: Global, line: &[u8], words: &mut Vec<Vec<u8>>) -> Result<(), NoMemory> {
    for written in line.split(|byte| *byte == b'\t') {
        words.push(word_of(alloc, written)?)?;
    }
    Ok(())
}

// The bytes that are written so.
fn word_of(alloc: Global, written: &[u8]) -> Result<Vec<u8>, NoMemory> {
    let mut word = Vec::new(alloc);
    push_bytes(written, &mut word)?;
    Ok(word)
}

fn push_bytes(written: &[u8], word: &mut Vec<u8>) -> Result<(), NoMemory> {
    let mut rest = written;
    for _ in 0..written.len() {
        let Some((byte, behind)) = split_byte(rest) else {
            break;
        };
        word.push(byte)?;
        rest = behind;
    }
    Ok(())
}

// The byte that is written at the front, and what is written behind it; none where nothing but a
// `\` is left.
fn split_byte(written: &[u8]) -> Option<(u8, &[u8])> {
    match written {
        [] | [b'\\'] => None,
        [b'\\', b'x', high, low, rest @ ..] => {
            Some((hex_digit(*high) * 16 + hex_digit(*low), rest))
        }
        [b'\\', letter, rest @ ..] => Some((escaped(*letter), rest)),
        [byte, rest @ ..] => Some((*byte, rest)),
    }
}

// The number of a digit, and 0 where it is none.
fn hex_digit(digit: u8) -> u8
    ensures { result < 16 }
{
    match digit {
        b'0'..=b'9' => digit - b'0',
        b'A'..=b'F' => digit - b'A' + 10,
        _ => 0,
    }
}

// The byte that a letter behind `\` stands for.
fn escaped(letter: u8) -> u8 {
    match letter {
        b'n' => b'\n',
        b'r' => b'\r',
        b't' => b'\t',
        _ => letter,
    }
}

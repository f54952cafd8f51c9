//! The words of the command line.

ghost use Rattle.std.specs.Prelude.{◌≡◌, None, option_map, MatchOption};
ghost use Rattle.replay_run.specs.Words.{command, data_pid, is_file_name as is_file_name_of};
ghost use Rattle.replay_run.specs.Words.{generation_of as spec_generation_of, module_count};
ghost use Rattle.replay_run.specs.Words.{selection_of as selected_by};
ghost use Rattle.replay_run.specs.Words.{replay_of as replay_by, service};
ghost use Rattle.bml_bytes.specs.Numerals.{decimal_field};
ghost use Rattle.replay_run.specs.CommandSeen.{command_seen};

use arrayvec::ArrayVec;
use bml_bytes::{Text, read_decimal};
use psi_tables::Selection;

// The most digits of a number.
const MOST_DIGITS: usize = 10;

/// What the words of the command line ask for.
#[derive(Drop)]
pub enum Command<'a> {
    /// A recorded stream is replayed.
    Replay(Replay<'a>),
    /// The files that a seed gives, with 1 to 100 modules of random bytes, are written as a stream,
    /// which is replayed.
    Gen { seed: u32, count: u32 },
}

/// What is replayed.
#[derive(Drop)]
pub struct Replay<'a> {
    /// The service that is received, or the PID of the packets that carry the data.
    pub selection: Selection,
    /// The name of the stream's file.
    pub stream: &'a Text,
    /// The name of the record's file.
    pub notes: &'a Text,
}

/// The command that the words behind the program's name are, and None where they are none. It takes
/// no memory.
pub fn read_command(words: &[Text]) -> Option<Command<'_>>
    ensures { option_map command_seen result ≡ command words.now }
{
    match words {
        [name, first, second] => {
            let replay = replay_of(name, Some(Selection::First), first, second);
            replay.or(generation_of(name, first, second))
        }
        [name, option, number, stream, notes] => {
            replay_of(name, selection_of(option, number), stream, notes)
        }
        _ => None,
    }
}

// The replay of these files, where the first word says so and something is asked for.
fn replay_of<'a>(
    name: &Text,
    selection: Option<Selection>,
    stream: &'a Text,
    notes: &'a Text,
) -> Option<Command<'a>>
    ensures { option_map command_seen result ≡ replay_by name.now selection stream.now notes.now }
{
    if !name.is_word("replay") {
        return None;
    }
    if !is_file_name(stream) {
        return None;
    }
    if !is_file_name(notes) {
        return None;
    }
    Some(Command::Replay(Replay {
        selection: selection?,
        stream,
        notes,
    }))
}

// The files of a seed and so many modules, where the first word says so.
fn generation_of<'a>(name: &Text, seed: &Text, count: &Text) -> Option<Command<'a>>
    ensures { option_map command_seen result
        ≡ spec_generation_of name.now (decimal_field seed.now) (module_count count.now) }
{
    if !name.is_word("gen") {
        return None;
    }
    let seed = read_number(seed)?;
    match read_number(count)? {
        count @ 1..=100 => Some(Command::Gen { seed, count }),
        _ => None,
    }
}

// What an option and its number ask for.
fn selection_of(option: &Text, number: &Text) -> Option<Selection>
    ensures { result ≡ selected_by option.now number.now }
{
    if option.is_word("--service") {
        return read_service(number);
    }
    if option.is_word("--data-pid") {
        return read_data_pid(number);
    }
    None
}

fn is_file_name(word: &Text) -> bool
    ensures { result ≡ is_file_name_of word.now }
{
    match word.codes() {
        [] => false,
        [first, ..] => *first != u16::from(b'-'),
    }
}

fn read_service(word: &Text) -> Option<Selection>
    ensures { result ≡ service word.now }
{
    match read_number(word)? {
        number @ 1..=65535 => Some(Selection::Service(number as u16)),
        _ => None,
    }
}

fn read_data_pid(word: &Text) -> Option<Selection>
    ensures { result ≡ data_pid word.now }
{
    match read_number(word)? {
        pid @ 16..=8190 => Some(Selection::Pid(pid as u16)),
        _ => None,
    }
}

// The number of a word of decimal digits.
fn read_number(word: &Text) -> Option<u32>
    ensures { result ≡ decimal_field word.now }
{
    match digits_of(word.codes()) {
        Some(digits) => read_decimal(digits.as_slice()),
        None => None,
    }
}

// The codes as bytes, where they can be the digits of a number.
fn digits_of(codes: &[u16]) -> Option<ArrayVec<u8, MOST_DIGITS>>
    ensures { MatchOption result (decimal_field codes.now ≡ None)
        (λ digits. digits.items ≡ codes.now) }
{
    if codes.len() > MOST_DIGITS {
        return None;
    }
    let mut digits = ArrayVec::new();
    for code in codes {
        match u8::try_from(*code) {
            Ok(digit) => digits.push(digit),
            Err(_) => return None,
        }
    }
    Some(digits)
}

//! The lines of the record, read from pieces.

ghost use Rattle.std.specs.Prelude.{◌≡◌, ◌≢◌, ◌+◌, ◌-◌, ◌<◌, ◌≤◌, ◌↔◌, ◌⊎◌, true, false, []};
ghost use Rattle.std.specs.Prelude.{◌∷◌, ◌++◌, All, length, take, drop, min, not, position};
ghost use Rattle.std.specs.Prelude.{slice_index, ◌==◌, MatchOption, IfSome, is_some};
ghost use Rattle.std.specs.Str.Lines.{strip_carriage_return};
ghost use Rattle.replay_run.specs.Reading.{IsFirstCut};
ghost use Rattle.replay_run.specs.RecordReader.{capacity, longest_line, Gives, BeginsBad};
ghost use Rattle.replay_run.specs.RecordReader.{IsUnfinished, IsOver, DropsFront};
ghost use Rattle.replay_run.specs.Record.{align_of as align_of_word, date_item as date_item_of};
ghost use Rattle.replay_run.specs.Record.{fields, longer_item as longer_item_of};
ghost use Rattle.replay_run.specs.Record.{line_feed, is_blank as is_blank_of};
ghost use Rattle.replay_run.specs.Record.{is_comment as is_comment_of, is_key, item_of};
ghost use Rattle.replay_run.specs.Record.{line_of as line_of_bytes, line_with};
ghost use Rattle.replay_run.specs.Record.{numbered_input as numbered_input_of};
ghost use Rattle.replay_run.specs.Record.{numbered_item as numbered_item_of, numbered_value};
ghost use Rattle.replay_run.specs.Record.{plain_item as plain_item_of, rows_item as rows_item_of};
ghost use Rattle.replay_run.specs.Record.{worded_item as worded_item_of};

use arrayvec::ArrayVec;
use bml_bytes::read_decimal;
use receiver_core::Input;
use std::marker::Model;
use text_lines::Align;

/// The most bytes that a [`RecordReader`] holds.
pub const CAPACITY: usize = 4096;

// The most bytes of a line without its end.
const LINE_LIMIT: usize = 128;

// The bytes of the longest good line with its end.
const LONGEST_LINE: usize = LINE_LIMIT + 2;

// The most milliseconds that one item lets pass: an hour.
const TICK_LIMIT: u32 = 3_600_000;

// The most space between two codes of a row, in pixels.
const SPACING_LIMIT: u32 = 64;

// The last day that a record may tell, 2399-12-31, counted from 1970-01-01; and the seconds of a day.
const LAST_DAY: u32 = 157_053;

const DAY_LENGTH: u32 = 86_400;

/// What a line of the record asks for.
#[derive(Clone, Copy, Debug, PartialEq, Eq)]
pub enum RecordItem {
    /// Take all packets that are left.
    All,
    /// Take so many packets, 1 to 4,294,967,295, or all that are left.
    Packets(u32),
    /// Let so many milliseconds pass, 1 to 3,600,000.
    Tick(u32),
    /// Hand in another input: a key, a random word, a date, or the wish to see the display list, as
    /// it is or with its rows.
    Input(Input),
}

/// A line of the record.
#[derive(Clone, Copy, Debug, PartialEq, Eq)]
pub enum Line {
    /// It is an item.
    Item(RecordItem),
    /// It asks for nothing: it is empty or blank, or a comment.
    Nothing,
    /// It is none of these, or too long.
    Bad,
}

/// What [`RecordReader::next`] answers.
#[derive(Clone, Copy, Debug, PartialEq, Eq)]
pub enum NextLine {
    /// The record's next line.
    Line(Line),
    /// More bytes are needed to tell what the next line is.
    NeedMore,
    /// The record's end was told, and no line is left.
    End,
}

/// Reads the lines of a record that comes in pieces. It holds up to 4,096 bytes in itself.
///
/// A line is ended by a line feed, and one carriage return before that belongs to its end. The last
/// line may lack its end, and then keeps a carriage return. A line of more than 128 bytes without
/// its end is bad, and is known to be so before its end comes.
#[derive(Drop)]
pub struct RecordReader {
    bytes: ArrayVec<u8, CAPACITY>,
    start: usize,
    ended: bool,
}

impl Model for RecordReader {
    ghost use Rattle.std.specs.Prelude.{◌≤◌, drop, length};
    ghost use Rattle.replay_run.specs.RecordReader.{ReaderState, capacity};

    ghost Value = { ReaderState };

    ghost view = { λ r. record { held = drop r.start r.bytes.items; ended = r.ended } };

    ghost invariant = { λ r. (r.start ≤ length r.bytes.items) × (length r.bytes.items ≤ capacity) };
}

impl RecordReader {
    /// A reader that holds nothing, at the start of a record.
    pub fn new() -> RecordReader
        ensures held { result.held ≡ [] }
        ensures ended { result.ended ≡ false }
    {
        RecordReader {
            bytes: ArrayVec::new(),
            start: 0,
            ended: false,
        }
    }

    /// Whether the record's end was told.
    pub fn is_finished(&self) -> bool
        ensures { result ≡ self.now.ended }
    {
        self.ended
    }

    /// The number of bytes held, at most 4,096.
    pub fn held_len(&self) -> usize
        ensures len { result ≡ length self.now.held }
        ensures most { result ≤ capacity }
    {
        self.bytes.len() - self.start
    }

    /// Takes as many of the bytes as there is room for, from the front, and answers their number.
    pub fn feed(&mut self, bytes: &[u8]) -> usize
        requires open_end { self.old.ended ≡ false }
        ensures count { result ≡ min (length bytes.now) (capacity - length self.old.held) }
        ensures held { self.new.held ≡ self.old.held ++ take result bytes.now }
        ensures ended { self.new.ended ≡ self.old.ended }
        ensures nothing { (result ≡ 0) ↔ ((length self.old.held ≡ capacity) ⊎ (bytes.now ≡ [])) }
    {
        let count = bytes.len().min(CAPACITY - self.held_len());
        if count > self.bytes.remaining_capacity() {
            drop_front(&mut self.bytes, self.start);
            self.start = 0;
        }
        append(&mut self.bytes, &bytes[..count]);
        count
    }

    /// Tells that the record ends behind what was fed. A second call changes nothing.
    pub fn finish(&mut self)
        ensures held { self.new.held ≡ self.old.held }
        ensures ended { self.new.ended ≡ true }
    {
        self.ended = true;
    }

    /// The next line of the record, if what is held tells it. An item and a line that asks for
    /// nothing are taken away. A bad line is left, so each later call answers it again.
    pub fn next(&mut self) -> NextLine
        ensures good { (line : Line) → line ≢ Line.Bad → result ≡ NextLine.Line line
            → Gives self.old line self.new }
        ensures bad { result ≡ NextLine.Line Line.Bad → BeginsBad self.old }
        ensures need_more { (result ≡ NextLine.NeedMore) ↔ IsUnfinished self.old }
        ensures end { (result ≡ NextLine.End) ↔ IsOver self.old }

        ensures drops { DropsFront self.old self.new }
        ensures takes { (line : Line) → line ≢ Line.Bad → result ≡ NextLine.Line line
            → length self.new.held < length self.old.held }
        ensures stays { ((line : Line) → line ≢ Line.Bad → result ≢ NextLine.Line line)
            → self.new ≡ self.old }
    {
        let cut = cut_line(&self.bytes.as_slice()[self.start..], self.ended);
        self.start += cut.length;
        cut.noted
    }
}

// What a reader's first line comes to: the answer, and the bytes that are taken with it.
#[derive(Drop)]
struct LineCut {
    noted: NextLine,
    length: usize,
}

impl LineCut {
    fn leaving(noted: NextLine) -> LineCut
        ensures noted { result.noted ≡ noted }
        ensures length { result.length ≡ 0 }
    {
        LineCut { noted, length: 0 }
    }

    // A good line is taken with its end, and a bad one is left.
    fn of_line(line: Line, length: usize) -> LineCut
        ensures noted { result.noted ≡ NextLine.Line line }
        ensures good { line ≢ Line.Bad → result.length ≡ length }
        ensures bad { line ≡ Line.Bad → result.length ≡ 0 }
    {
        let length = match line {
            Line::Item(_) | Line::Nothing => length,
            Line::Bad => 0,
        };
        LineCut {
            noted: NextLine::Line(line),
            length,
        }
    }
}

// The first line of what is held of a record.
fn cut_line(held: &[u8], ended: bool) -> LineCut
    ensures { IsFirstCut held.now ended result.noted result.length }
{
    match find_line_feed(&held[..held.len().min(LONGEST_LINE)]) {
        Some(place) => LineCut::of_line(line_of(without_return(&held[..place])), place + 1),
        None => cut_open(held, ended),
    }
}

// The first line where no line feed is among the bytes that a good line can have.
fn cut_open(held: &[u8], ended: bool) -> LineCut
    requires { All (λ byte. (byte == line_feed) ≡ false) (take longest_line held.now) }
    ensures { IsFirstCut held.now ended result.noted result.length }
{
    if held.len() >= LONGEST_LINE {
        return LineCut::leaving(NextLine::Line(Line::Bad));
    }
    if !ended {
        return LineCut::leaving(NextLine::NeedMore);
    }
    if held.is_empty() {
        return LineCut::leaving(NextLine::End);
    }
    LineCut::of_line(line_of(held), held.len())
}

// The place of the first line feed.
fn find_line_feed(bytes: &[u8]) -> Option<usize>
    ensures { result ≡ position (λ byte. byte == line_feed) bytes.now }
{
    bytes.iter().position(|byte| *byte == b'\n')
}

// A line without the carriage return at its end, if it has one.
fn without_return(line: &[u8]) -> &[u8]
    ensures { result.now ≡ strip_carriage_return line.now }
{
    match line {
        [front @ .., b'\r'] => front,
        _ => line,
    }
}

// What a line is, which is given without its end.
#[tactic(auto, unfolding(crate::specs::Record::line_of))]
fn line_of(bytes: &[u8]) -> Line
    ensures { result ≡ line_of_bytes bytes.now }
{
    if bytes.len() > LINE_LIMIT {
        return Line::Bad;
    }
    match next_field(bytes) {
        None => Line::Nothing,
        Some((name, rest)) => named_line(name, rest),
    }
}

// What a line with this first field is, and these bytes behind it.
fn named_line(name: &[u8], rest: &[u8]) -> Line
    ensures { result ≡ line_with (name.now ∷ fields rest.now) }
{
    if is_comment(name) {
        return Line::Nothing;
    }
    match read_item(name, rest) {
        Some(item) => Line::Item(item),
        None => Line::Bad,
    }
}

// Whether a first field begins a comment.
fn is_comment(name: &[u8]) -> bool
    ensures { result ≡ is_comment_of name.now }
{
    match name {
        [first, ..] => *first == b'#',
        [] => false,
    }
}

// The item with this name, and these bytes behind that.
fn read_item(name: &[u8], rest: &[u8]) -> Option<RecordItem>
    ensures { result ≡ item_of (name.now ∷ fields rest.now) }
{
    let Some((number, behind)) = next_field(rest) else {
        return plain_item(name);
    };
    let Some((last, behind)) = next_field(behind) else {
        return numbered_item(name, number);
    };
    match next_field(behind) {
        None => longer_item(name, number, last),
        Some(_) => None,
    }
}

// The item that is its name alone.
fn plain_item(name: &[u8]) -> Option<RecordItem>
    ensures { result ≡ plain_item_of name.now }
{
    let all: &[u8] = b"all";
    let show: &[u8] = b"show";
    if name == all {
        Some(RecordItem::All)
    } else if name == show {
        Some(RecordItem::Input(Input::Show))
    } else {
        None
    }
}

// The item that is its name and a number.
fn numbered_item(name: &[u8], number: &[u8]) -> Option<RecordItem>
    ensures { result ≡ item_of (name.now ∷ number.now ∷ []) }
{
    let number = read_decimal(number)?;
    item_by_number(name, number)
}

// The item of this name with a number.
fn item_by_number(name: &[u8], number: u32) -> Option<RecordItem>
    ensures { result ≡ numbered_item_of name.now number }
{
    let packets: &[u8] = b"packets";
    if name == packets {
        (number >= 1).then_some(RecordItem::Packets(number))
    } else {
        input_by_number(name, number)
    }
}

// The input of this name with a number.
fn input_by_number(name: &[u8], number: u32) -> Option<RecordItem>
    ensures { result ≡ numbered_input_of name.now number }
{
    let key: &[u8] = b"key";
    let release: &[u8] = b"release";
    if name == key {
        key_of(number).map(|key| RecordItem::Input(Input::Key(key)))
    } else if name == release {
        key_of(number).map(|key| RecordItem::Input(Input::Release(key)))
    } else {
        value_by_number(name, number)
    }
}

// The input of this name whose number is no key.
fn value_by_number(name: &[u8], number: u32) -> Option<RecordItem>
    ensures { result ≡ numbered_value name.now number }
{
    let tick: &[u8] = b"tick";
    let random: &[u8] = b"random";
    if name == tick {
        (1 <= number && number <= TICK_LIMIT).then_some(RecordItem::Tick(number))
    } else if name == random {
        Some(RecordItem::Input(Input::Random(number)))
    } else {
        None
    }
}

// The item that is its name, a number and one field more.
fn longer_item(name: &[u8], number: &[u8], last: &[u8]) -> Option<RecordItem>
    ensures { result ≡ item_of (name.now ∷ number.now ∷ last.now ∷ []) }
{
    let number = read_decimal(number)?;
    item_by_fields(name, number, last)
}

// The item of this name with a number and one field more.
fn item_by_fields(name: &[u8], number: u32, last: &[u8]) -> Option<RecordItem>
    ensures { result ≡ longer_item_of name.now number last.now }
{
    let date: &[u8] = b"date";
    if name == date {
        date_item(number, read_decimal(last)?)
    } else {
        item_by_word(name, number, last)
    }
}

// A second of a day.
fn date_item(day: u32, second: u32) -> Option<RecordItem>
    ensures { result ≡ date_item_of day second }
{
    if day <= LAST_DAY && second < DAY_LENGTH {
        Some(RecordItem::Input(Input::Date(day as i32, second)))
    } else {
        None
    }
}

// The item of this name with a number and a word.
fn item_by_word(name: &[u8], number: u32, word: &[u8]) -> Option<RecordItem>
    ensures { result ≡ worded_item_of name.now number word.now }
{
    let rows: &[u8] = b"rows";
    if name == rows {
        rows_item(number, align_of(word)?)
    } else {
        None
    }
}

// The display list with its rows.
fn rows_item(spacing: u32, align: Align) -> Option<RecordItem>
    ensures { result ≡ rows_item_of spacing align }
{
    (spacing <= SPACING_LIMIT).then_some(RecordItem::Input(Input::Rows(spacing, align)))
}

// Where rows stand, by its word.
fn align_of(word: &[u8]) -> Option<Align>
    ensures { result ≡ align_of_word word.now }
{
    let left: &[u8] = b"left";
    let center: &[u8] = b"center";
    let right: &[u8] = b"right";
    if word == left {
        Some(Align::Left)
    } else if word == center {
        Some(Align::Center)
    } else if word == right {
        Some(Align::Right)
    } else {
        None
    }
}

// The key of a number, where there is one.
fn key_of(number: u32) -> Option<u8>
    ensures some { is_some result ≡ is_key number }
    ensures same { IfSome result (λ key. key ≡ number) }
{
    match number {
        1..=14 | 18..=24 => u8::try_from(number).ok(),
        _ => None,
    }
}

// The first field of a line, and the bytes behind it.
fn next_field(line: &[u8]) -> Option<(&[u8], &[u8])>
    ensures { MatchOption result (fields line.now ≡ [])
        (λ found. fields line.now ≡ found.0.now ∷ fields found.1.now) }
{
    match find_field(line) {
        None => None,
        Some(start) => Some(cut_field(&line[start..])),
    }
}

// The field at the front of some bytes, and the bytes behind it.
fn cut_field(bytes: &[u8]) -> (&[u8], &[u8])
    requires some { 0 < length bytes.now }
    requires field { is_blank_of (slice_index bytes.now 0) ≡ false }
    ensures { fields bytes.now ≡ result.0.now ∷ fields result.1.now }
{
    match find_blank(bytes) {
        None => (bytes, &[]),
        Some(end) => bytes.split_at(end),
    }
}

// The place of the first byte that isn't blank.
fn find_field(line: &[u8]) -> Option<usize>
    ensures { result ≡ position (λ byte. not (is_blank_of byte)) line.now }
{
    line.iter().position(|byte| !is_blank(*byte))
}

// The place of the first blank.
fn find_blank(bytes: &[u8]) -> Option<usize>
    ensures { result ≡ position is_blank_of bytes.now }
{
    bytes.iter().position(|byte| is_blank(*byte))
}

fn is_blank(byte: u8) -> bool
    ensures { result ≡ is_blank_of byte }
{
    byte == b' ' || byte == b'\t'
}

fn drop_front(bytes: &mut ArrayVec<u8, CAPACITY>, count: usize)
    requires { count ≤ length bytes.old.items }
    ensures { bytes.new.items ≡ drop count bytes.old.items }
{
    bytes.drain(..count);
}

fn append(bytes: &mut ArrayVec<u8, CAPACITY>, more: &[u8])
    requires { length bytes.old.items + length more.now ≤ capacity }
    ensures { bytes.new.items ≡ bytes.old.items ++ more.now }
{
    let _ = bytes.try_extend_from_slice(more);
}

//! What stands at the front of some bytes.

ghost use Rattle.std.specs.Prelude.{◌≡◌, ◌≤◌, length, option_map, option_copied};
ghost use Rattle.bml_reader.specs.Bytes.{front, behind, behind_mark as spec_behind_mark, is_letter as spec_is_letter, is_digit as spec_is_digit, is_name_start as spec_is_name_start};
ghost use Rattle.bml_reader.specs.devices.Lexing.{up_to};
ghost use Rattle.bml_reader.specs.devices.Views.{in_class, found_bytes};

/// Classes of bytes that stand one behind the other in a document.
#[derive(Clone, Copy)]
pub enum ByteClass {
    /// Space, tab, line feed, carriage return.
    White,
    /// What a name goes on with.
    NameByte,
    /// All but `<`.
    TextByte,
    /// All but `<` and this quote.
    ValueByte(u8),
    /// All but `<`, `>` and `[`.
    DoctypeByte,
    Digit,
    HexDigit,
}

impl ByteClass {
    ghost use Rattle.std.specs.Prelude.{◌≡◌};
    ghost use Rattle.bml_reader.specs.devices.Views.{in_class};

    /// Whether the byte is of the class.
    #[tactic(auto, unfolding(crate::specs::Bytes::is_text_byte, crate::specs::Bytes::is_value_byte, crate::specs::Bytes::is_doctype_byte))]
    pub fn has(self, byte: u8) -> bool
        ensures { result ≡ in_class self byte }
    {
        match self {
            ByteClass::White => is_white(byte),
            ByteClass::NameByte => is_name_byte(byte),
            ByteClass::TextByte => byte != b'<',
            ByteClass::ValueByte(quote) => byte != quote && byte != b'<',
            ByteClass::DoctypeByte => byte != b'<' && byte != b'>' && byte != b'[',
            ByteClass::Digit => is_digit(byte),
            ByteClass::HexDigit => is_hex_digit(byte),
        }
    }
}

/// What stands behind the bytes of the class at the front.
pub fn behind_run(class: ByteClass, bytes: &[u8]) -> &[u8]
    ensures rest { result.now ≡ behind (in_class class) bytes.now }
    ensures shorter { length result.now ≤ length bytes.now }
{
    let mut rest = bytes;
    'run: while let Some((byte, more)) = rest.split_first() {
        if !class.has(*byte) {
            return rest;
        }
        rest = more;
    }
    rest
}

/// The bytes of the class at the front, and those behind them.
pub fn split_run(class: ByteClass, bytes: &[u8]) -> (&[u8], &[u8])
    ensures run { result.0.now ≡ front (in_class class) bytes.now }
    ensures rest { result.1.now ≡ behind (in_class class) bytes.now }
{
    let rest = behind_run(class, bytes);
    (&bytes[..bytes.len() - rest.len()], rest)
}

/// What stands behind the mark at the front, and None where it isn't there.
pub fn behind_mark<'a>(bytes: &'a [u8], mark: &[u8]) -> Option<&'a [u8]>
    ensures { option_copied result ≡ spec_behind_mark mark.now bytes.now }
{
    let mut rest = bytes;
    let mut left = mark;
    'mark: while let Some((expected, more)) = left.split_first() {
        let (byte, behind) = rest.split_first()?;
        if *byte != *expected {
            return None;
        }
        rest = behind;
        left = more;
    }
    Some(rest)
}

/// The bytes in front of the first place where the mark stands, and those behind the mark.
pub fn split_at_mark<'a>(bytes: &'a [u8], mark: &[u8]) -> Option<(&'a [u8], &'a [u8])>
    ensures { option_map found_bytes result ≡ up_to mark.now bytes.now }
{
    let mut rest = bytes;
    'places: loop {
        if let Some(behind) = behind_mark(rest, mark) {
            return Some((&bytes[..bytes.len() - rest.len()], behind));
        }
        match rest.split_first() {
            Some((_, more)) => rest = more,
            None => return None,
        }
    }
}

#[tactic(auto, unfolding(crate::specs::Bytes::is_white))]
fn is_white(byte: u8) -> bool
    ensures { result ≡ in_class ByteClass.White byte }
{
    byte == b' ' || byte == b'\t' || byte == b'\n' || byte == b'\r'
}

#[tactic(auto, unfolding(crate::specs::Bytes::is_name_byte))]
fn is_name_byte(byte: u8) -> bool
    ensures { result ≡ in_class ByteClass.NameByte byte }
{
    is_name_start(byte) || is_digit(byte) || byte == b'-' || byte == b'.' || byte == b':'
}

/// Whether a name begins with the byte.
#[tactic(auto, unfolding(crate::specs::Bytes::is_name_start))]
pub fn is_name_start(byte: u8) -> bool
    ensures { result ≡ spec_is_name_start byte }
{
    is_letter(byte) || byte == b'_'
}

#[tactic(auto, unfolding(crate::specs::Bytes::is_letter))]
fn is_letter(byte: u8) -> bool
    ensures { result ≡ spec_is_letter byte }
{
    (b'A' <= byte && byte <= b'Z') || (b'a' <= byte && byte <= b'z')
}

#[tactic(auto, unfolding(crate::specs::Bytes::is_digit))]
fn is_digit(byte: u8) -> bool
    ensures { result ≡ spec_is_digit byte }
{
    b'0' <= byte && byte <= b'9'
}

#[tactic(auto, unfolding(crate::specs::Bytes::is_hex_digit))]
fn is_hex_digit(byte: u8) -> bool
    ensures { result ≡ in_class ByteClass.HexDigit byte }
{
    is_digit(byte) || (b'A' <= byte && byte <= b'F') || (b'a' <= byte && byte <= b'f')
}

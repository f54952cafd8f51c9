//! What stands at the front of some codes.

ghost use Rattle.std.specs.Prelude.{◌≡◌, ◌≤◌, ◌<◌, true, length, option_map, option_copied, nat_le, ◌&&◌};
ghost use Rattle.es_lexer.specs.Scanning.{front, behind, stripped as spec_stripped, up_to};
ghost use Rattle.es_lexer.specs.Codes.{is_white as spec_is_white, is_line_terminator as spec_is_line_terminator, is_letter as spec_is_letter, is_decimal_digit as spec_is_decimal_digit, is_octal_digit as spec_is_octal_digit, is_hex_digit as spec_is_hex_digit, is_identifier_start as spec_is_identifier_start, is_identifier_part as spec_is_identifier_part, is_quote as spec_is_quote, digit_value as spec_digit_value};
ghost use Rattle.es_lexer.specs.Views.{in_class, found_codes};

/// Classes of codes that stand one behind the other in a script.
#[derive(Clone, Copy, Debug, PartialEq, Eq)]
pub enum CodeClass {
    /// What an identifier goes on with.
    IdentifierPart,
    DecimalDigit,
    OctalDigit,
    HexDigit,
    /// All but line terminators.
    InLine,
}

impl CodeClass {
    ghost use Rattle.std.specs.Prelude.{◌≡◌};
    ghost use Rattle.es_lexer.specs.Views.{in_class};

    /// Whether the code is of the class.
    #[tactic(auto, unfolding(crate::specs::ScannedElements::is_in_line))]
    pub fn has(self, code: u16) -> bool
        ensures { result ≡ in_class self code }
    {
        match self {
            CodeClass::IdentifierPart => is_identifier_part(code),
            CodeClass::DecimalDigit => is_decimal_digit(code),
            CodeClass::OctalDigit => is_octal_digit(code),
            CodeClass::HexDigit => is_hex_digit(code),
            CodeClass::InLine => !is_line_terminator(code),
        }
    }
}

/// What stands behind the codes of the class at the front.
pub fn behind_run(class: CodeClass, codes: &[u16]) -> &[u16]
    ensures rest { result.now ≡ behind (in_class class) codes.now }
    ensures shorter { length result.now ≤ length codes.now }
{
    let mut rest = codes;
    'run: while let Some((code, more)) = rest.split_first() {
        if !class.has(*code) {
            return rest;
        }
        rest = more;
    }
    rest
}

/// The codes of the class at the front, and those behind them.
pub fn split_run(class: CodeClass, codes: &[u16]) -> (&[u16], &[u16])
    ensures run { result.0.now ≡ front (in_class class) codes.now }
    ensures rest { result.1.now ≡ behind (in_class class) codes.now }
{
    let rest = behind_run(class, codes);
    (&codes[..codes.len() - rest.len()], rest)
}

/// What stands behind the mark at the front, and None where it isn't there.
pub fn stripped<'a>(codes: &'a [u16], mark: &[u8]) -> Option<&'a [u16]>
    ensures { option_copied result ≡ spec_stripped mark.now codes.now }
{
    let mut rest = codes;
    let mut left = mark;
    'mark: while let Some((expected, more)) = left.split_first() {
        let (code, behind) = rest.split_first()?;
        if *code != u16::from(*expected) {
            return None;
        }
        rest = behind;
        left = more;
    }
    Some(rest)
}

/// The codes in front of the first place where the mark stands, and those behind the mark.
pub fn split_at_mark<'a>(codes: &'a [u16], mark: &[u8]) -> Option<(&'a [u16], &'a [u16])>
    ensures { option_map found_codes result ≡ up_to mark.now codes.now }
{
    let mut rest = codes;
    'places: loop {
        if let Some(behind) = stripped(rest, mark) {
            return Some((&codes[..codes.len() - rest.len()], behind));
        }
        match rest.split_first() {
            Some((_, more)) => rest = more,
            None => return None,
        }
    }
}

/// Space, tab, vertical tab, form feed.
#[tactic(auto, unfolding(crate::specs::Codes::is_white))]
pub fn is_white(code: u16) -> bool
    ensures { result ≡ spec_is_white code }
{
    code == u16::from(b' ') || code == u16::from(b'\t') || code == 0x0B || code == 0x0C
}

/// Line feed, carriage return.
#[tactic(auto, unfolding(crate::specs::Codes::is_line_terminator))]
pub fn is_line_terminator(code: u16) -> bool
    ensures { result ≡ spec_is_line_terminator code }
{
    code == u16::from(b'\n') || code == u16::from(b'\r')
}

/// What an identifier begins with.
#[tactic(auto, unfolding(crate::specs::Codes::is_identifier_start))]
pub fn is_identifier_start(code: u16) -> bool
    ensures { result ≡ spec_is_identifier_start code }
{
    is_letter(code) || code == u16::from(b'$') || code == u16::from(b'_')
}

/// What an identifier goes on with.
#[tactic(auto, unfolding(crate::specs::Codes::is_identifier_part))]
pub fn is_identifier_part(code: u16) -> bool
    ensures { result ≡ spec_is_identifier_part code }
{
    is_identifier_start(code) || is_decimal_digit(code)
}

#[tactic(auto, unfolding(crate::specs::Codes::is_letter))]
fn is_letter(code: u16) -> bool
    ensures { result ≡ spec_is_letter code }
{
    is_between(b'A', code, b'Z') || is_between(b'a', code, b'z')
}

#[tactic(auto, unfolding(crate::specs::Codes::is_decimal_digit))]
pub fn is_decimal_digit(code: u16) -> bool
    ensures { result ≡ spec_is_decimal_digit code }
{
    is_between(b'0', code, b'9')
}

#[tactic(auto, unfolding(crate::specs::Codes::is_octal_digit))]
pub fn is_octal_digit(code: u16) -> bool
    ensures { result ≡ spec_is_octal_digit code }
{
    is_between(b'0', code, b'7')
}

#[tactic(auto, unfolding(crate::specs::Codes::is_hex_digit))]
pub fn is_hex_digit(code: u16) -> bool
    ensures { result ≡ spec_is_hex_digit code }
{
    is_decimal_digit(code) || is_between(b'A', code, b'F') || is_between(b'a', code, b'f')
}

/// `"` or `'`.
#[tactic(auto, unfolding(crate::specs::Codes::is_quote))]
pub fn is_quote(code: u16) -> bool
    ensures { result ≡ spec_is_quote code }
{
    code == u16::from(b'"') || code == u16::from(b'\'')
}

/// The number that a digit of any base writes.
#[tactic(auto, unfolding(crate::specs::Codes::digit_value))]
pub fn digit_value(code: u16) -> u16
    ensures { result ≡ spec_digit_value code }
{
    if code <= u16::from(b'9') {
        code.saturating_sub(48)
    } else if code <= u16::from(b'F') {
        code.saturating_sub(55)
    } else {
        code.saturating_sub(87)
    }
}

/// The number that an octal digit writes.
#[tactic(auto, unfolding(crate::specs::Codes::digit_value, crate::specs::Codes::is_octal_digit))]
pub fn octal_value(digit: u16) -> u16
    requires { spec_is_octal_digit digit ≡ true }
    ensures value { result ≡ spec_digit_value digit }
    ensures small { result < 8 }
{
    digit_value(digit)
}

/// The number that a hexadecimal digit writes.
#[tactic(auto, unfolding(crate::specs::Codes::digit_value, crate::specs::Codes::is_hex_digit, crate::specs::Codes::is_decimal_digit))]
pub fn hex_value(digit: u16) -> u16
    requires { spec_is_hex_digit digit ≡ true }
    ensures value { result ≡ spec_digit_value digit }
    ensures small { result < 16 }
{
    digit_value(digit)
}

fn is_between(first: u8, code: u16, last: u8) -> bool
    ensures { result ≡ (nat_le first code && nat_le code last) }
{
    u16::from(first) <= code && code <= u16::from(last)
}

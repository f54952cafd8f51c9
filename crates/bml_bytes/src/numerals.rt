//! Numbers printed in ASCII, and read back.

ghost use Rattle.std.specs.Prelude.{◌≡◌, ◌<◌, ◌≤◌, ◌^◌, ◌++◌, ◌-◌, ◌/◌, ◌%◌, length, is_some, IfSome, OnOk};
ghost use Rattle.std.specs.Io.{StartsWith};
ghost use Rattle.std.specs.List.{list_all};
ghost use Rattle.bml_bytes.specs.Numerals.{decimal_field, decimal_number, digit_character, is_decimal_digit, hex_digits, signed_decimal_digits};

use crate::refusals::NoMemory;

/// How many decimal digits a field has at most, zeros in front included.
const MOST_DIGITS: usize = 10;

/// Appends a number in base ten, with a minus sign before a negative one and no zero in front.
pub fn push_decimal(value: i64, out: &mut Vec<u8>) -> Result<(), NoMemory>
    ensures ok { OnOk result (out.new.items ≡ out.old.items ++ signed_decimal_digits value) }
    ensures grows { StartsWith out.new.items out.old.items }
{
    let mut buffer = itoa::Buffer::new();
    out.extend_from_slice(buffer.format(value).as_bytes())?;
    Ok(())
}

/// Appends a number in base sixteen, in lower case, with just so many digits: 1 to 8, into which the
/// number has to fit.
pub fn push_hex(value: u32, digits: u8, out: &mut Vec<u8>) -> Result<(), NoMemory>
    requires some { 1 ≤ digits }
    requires most { digits ≤ 8 }
    requires fits { value < 16 ^ digits }
    ensures ok { OnOk result (out.new.items ≡ out.old.items ++ hex_digits digits value) }
    ensures grows { StartsWith out.new.items out.old.items }
{
    let all = eight_hex_digits(value);
    out.extend_from_slice(&all[8 - usize::from(digits)..])?;
    Ok(())
}

/// The number of a field of 1 to 10 decimal digits, and None exactly where the bytes aren't such digits
/// or their number passes 4,294,967,295.
pub fn read_decimal(bytes: &[u8]) -> Option<u32>
    ensures { result ≡ decimal_field bytes.now }
{
    if bytes.is_empty() || bytes.len() > MOST_DIGITS {
        return None;
    }
    let number = number_of_digits(bytes)?;
    u32::try_from(number).ok()
}

// The number of up to ten decimal digits, and None where there is another byte.
fn number_of_digits(bytes: &[u8]) -> Option<u64>
    requires { length bytes.now ≤ 10 }
    ensures digits { is_some result ≡ list_all is_decimal_digit bytes.now }
    ensures number { IfSome result (λ number. number ≡ decimal_number bytes.now) }
{
    let mut number: u64 = 0;
    for byte in bytes {
        number = number * 10 + decimal_digit(*byte)?;
    }
    Some(number)
}

fn decimal_digit(byte: u8) -> Option<u64>
    ensures digit { is_some result ≡ is_decimal_digit byte }
    ensures value { IfSome result (λ value. value ≡ byte - 48) }
    ensures small { IfSome result (λ value. value < 10) }
{
    match byte {
        b'0'..=b'9' => Some(u64::from(byte - b'0')),
        _ => None,
    }
}

#[tactic(auto, unfolding(crate::specs::Numbers::digits_in))]
fn eight_hex_digits(value: u32) -> [u8; 8]
    ensures { result ≡ hex_digits 8 value }
{
    [
        hex_digit(value, 0x1000_0000),
        hex_digit(value, 0x100_0000),
        hex_digit(value, 0x10_0000),
        hex_digit(value, 0x1_0000),
        hex_digit(value, 0x1000),
        hex_digit(value, 0x100),
        hex_digit(value, 0x10),
        hex_digit(value, 1),
    ]
}

// The hexadecimal digit at a place, which is a power of sixteen.
fn hex_digit(value: u32, place: u32) -> u8
    requires { 0 < place }
    ensures { result ≡ digit_character (value / place % 16) }
{
    let digit = (value / place % 16) as u8;
    if digit < 10 {
        b'0' + digit
    } else {
        b'a' + (digit - 10)
    }
}

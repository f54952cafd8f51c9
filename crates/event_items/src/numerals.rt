//! Numbers in texts.

ghost use Rattle.std.specs.Prelude.{◌≡◌, ◌<◌, ◌≤◌, ◌-◌, length, is_some, IfSome};
ghost use Rattle.std.specs.List.{list_all};
ghost use Rattle.bml_bytes.specs.Numerals.{decimal_field, decimal_number, is_decimal_digit};

use bml_bytes::law_of_decimals;

/// How many decimal digits a number has at most, zeros in front included.
const MOST_DIGITS: usize = 10;

/// The number of 1 to 10 codes that are decimal digits, and None exactly where the codes aren't such digits or their
/// number passes 4,294,967,295.
pub fn read_decimal(codes: &[u16]) -> Option<u32>
    ensures { result ≡ decimal_field codes.now }
{
    if codes.is_empty() || codes.len() > MOST_DIGITS {
        return None;
    }
    let number = number_of_digits(codes)?;
    u32::try_from(number).ok()
}

// The number of up to ten decimal digits, and None where there is another code.
fn number_of_digits(codes: &[u16]) -> Option<u64>
    requires { length codes.now ≤ 10 }
    ensures digits { is_some result ≡ list_all is_decimal_digit codes.now }
    ensures number { IfSome result (λ number. number ≡ decimal_number codes.now) }
{
    law_of_decimals();
    let mut number: u64 = 0;
    'digits: for code in codes {
        number = number * 10 + decimal_digit(*code)?;
    }
    Some(number)
}

fn decimal_digit(code: u16) -> Option<u64>
    ensures digit { is_some result ≡ is_decimal_digit code }
    ensures value { IfSome result (λ value. value ≡ code - 48) }
    ensures small { IfSome result (λ value. value < 10) }
{
    match code {
        0x30..=0x39 => Some(u64::from(code - 0x30)),
        _ => None,
    }
}

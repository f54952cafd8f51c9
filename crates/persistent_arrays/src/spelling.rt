//! The parts of a spelled field, read from the front of a text.

ghost use Rattle.std.specs.Prelude.{◌≡◌, ◌<◌, ◌-◌, IfSome, is_some, option_map};
ghost use Rattle.bml_bytes.specs.Fields.{byte_at};
ghost use Rattle.bml_bytes.specs.Numerals.{is_decimal_digit};
ghost use Rattle.persistent_arrays.specs.devices.Spelling.{numeral_at as numeral_in, numeral_behind};

// The next code and those behind it.
pub(crate) fn next_code(codes: &[u16]) -> Option<(u16, &[u16])>
    ensures { option_map (λ found. (found.0, found.1.now)) result ≡ byte_at codes.now }
{
    let (code, behind) = codes.split_first()?;
    Some((*code, behind))
}

// The number of one or two digits in front of the codes, with no zero in front of another digit, and the codes behind it.
#[tactic(auto, unfolding(crate::specs::devices::Spelling::numeral_at))]
pub(crate) fn numeral_at(codes: &[u16]) -> Option<(u8, &[u16])>
    ensures { option_map (λ found. (found.0, found.1.now)) result ≡ numeral_in codes.now }
{
    let (first, behind) = codes.split_first()?;
    let digit = decimal_digit(*first)?;
    if digit == 0 {
        return Some((0, behind));
    }
    Some(numeral_of(digit, behind))
}

// The number with this first digit, and the codes behind it.
#[tactic(auto, unfolding(crate::specs::devices::Spelling::numeral_behind))]
fn numeral_of(first: u8, codes: &[u16]) -> (u8, &[u16])
    requires { first < 10 }
    ensures number { result.0 ≡ (numeral_behind first codes.now).0 }
    ensures behind { result.1.now ≡ (numeral_behind first codes.now).1 }
{
    if let Some((next, behind)) = codes.split_first() {
        if let Some(digit) = decimal_digit(*next) {
            return (first * 10 + digit, behind);
        }
    }
    (first, codes)
}

fn decimal_digit(code: u16) -> Option<u8>
    ensures digit { is_some result ≡ is_decimal_digit code }
    ensures value { IfSome result (λ value. value ≡ code - 48) }
    ensures small { IfSome result (λ value. value < 10) }
{
    match code {
        0x30..=0x39 => Some((code - 0x30) as u8),
        _ => None,
    }
}

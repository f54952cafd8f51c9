//! Words of ASCII in texts.

ghost use Rattle.std.specs.Prelude.{◌≡◌, nat_eq};
ghost use Rattle.std.specs.List.{list_all, zip};
ghost use Rattle.std.specs.Char.{to_ascii_lowercase};
ghost use Rattle.bml_bytes.specs.Words.{is_same, is_same_in_any_case};

/// Whether the codes are those of a word of ASCII.
pub fn is_word(codes: &[u16], word: &str) -> bool
    ensures { result ≡ is_same codes.now word.now }
{
    codes.len() == word.len() && agree(codes, word.as_bytes())
}

/// Whether the codes are those of a word of ASCII, where `A` to `Z` count as `a` to `z`.
pub fn is_word_in_any_case(codes: &[u16], word: &str) -> bool
    ensures { result ≡ is_same_in_any_case codes.now word.now }
{
    codes.len() == word.len() && agree_in_any_case(codes, word.as_bytes())
}

// Whether codes and bytes are the same as far as both go.
fn agree(codes: &[u16], bytes: &[u8]) -> bool
    ensures { result ≡ list_all (λ pair. nat_eq pair.0 pair.1) (zip codes.now bytes.now) }
{
    codes
        .iter()
        .zip(bytes)
        .all(|(code, byte)| *code == u16::from(*byte))
}

fn agree_in_any_case(codes: &[u16], bytes: &[u8]) -> bool
    ensures { result ≡ list_all
        (λ pair. nat_eq (to_ascii_lowercase pair.0) (to_ascii_lowercase pair.1))
        (zip codes.now bytes.now) }
{
    codes.iter().zip(bytes).all(|(code, byte)| lower_case(*code) == lower_case(u16::from(*byte)))
}

fn lower_case(code: u16) -> u16
    ensures { result ≡ to_ascii_lowercase code }
{
    match code {
        0x41..=0x5A => code + 0x20,
        _ => code,
    }
}

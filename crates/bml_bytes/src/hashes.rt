//! The hash that a text keeps of its codes.

ghost use Rattle.std.specs.Prelude.{◌≡◌};
ghost use Rattle.bml_bytes.specs.devices.Hashes.{mixed as spec_mixed, text_hash, word_of as spec_word_of};

/// An odd number whose bits look like chance: 2^64 by the golden ratio.
const FACTOR: u64 = 0x9E37_79B9_7F4A_7C15;

/// A hash of codes, four at a time.
#[tactic(auto, using(crate::proofs::HashLemmas::four_more, crate::proofs::HashLemmas::one_more, crate::proofs::HashLemmas::none_left))]
pub fn hash_of(codes: &[u16]) -> u64
    ensures { result ≡ text_hash codes.now }
{
    let mut hash = 0;
    let mut rest = codes;
    'fours: while let Some((four, more)) = rest.split_first_chunk::<4>() {
        hash = mixed(hash, word_of(four));
        rest = more;
    }
    'ones: while let Some((code, more)) = rest.split_first() {
        hash = mixed(hash, u64::from(*code));
        rest = more;
    }
    hash
}

// A hash with one word more.
fn mixed(hash: u64, word: u64) -> u64
    ensures { result ≡ spec_mixed hash word }
{
    hash.wrapping_add(word).wrapping_mul(FACTOR)
}

// Four codes as one word.
fn word_of(four: &[u16; 4]) -> u64
    ensures { result ≡ spec_word_of four.now }
{
    let [a, b, c, d] = *four;
    let last = u64::from(c) + 65536 * u64::from(d);
    u64::from(a) + 65536 * (u64::from(b) + 65536 * last)
}

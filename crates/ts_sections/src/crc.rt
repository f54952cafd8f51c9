//! The CRC_32 of a section, and whether a section is intact.

ghost use Rattle.std.specs.Prelude.{◌≡◌, ℕ, ◌^◌, ◌<◌, ◌≤◌, ◌↔◌, ◌++◌, List, true, false, length, replicate, IsTrue};
ghost use Rattle.std.specs.Int.{w32, to_be_bytes};
ghost use Rattle.ts_sections.specs.Crc.{bits_of, number_of, remainder_of, register_behind, bits_of_number};
ghost use Rattle.ts_sections.specs.Intact.{IsIntact, is_intact, section_length};

/// Eight bytes of header in the long form and four of CRC_32.
const SHORTEST_SECTION: usize = 12;

/// The bytes up to the end of section_length, which it doesn't count.
const BYTES_UP_TO_LENGTH: usize = 3;

/// The value that the register starts with.
const START: u32 = u32::MAX;

/// All sums modulo 2 of some of the words. A sum's place has the bits of its words set, that of the
/// first word the lowest.
macro_rules! sums {
    ([$($sum:expr),*]) => {
        [$($sum),*]
    };
    ([$($sum:expr),*] $word:literal $($more:literal)*) => {
        sums!([$($sum,)* $($sum ^ $word),*] $($more)*)
    };
}

/// What a byte that leaves the register adds to what follows it: table 0 as it leaves, and table k
/// when k bytes more have left. A row has what a byte's single bits add, the least significant
/// first, and the table all sums of these.
static TABLES: [[u32; 256]; 8] = [
    sums!([0] 0x04C11DB7 0x09823B6E 0x130476DC 0x2608EDB8
        0x4C11DB70 0x9823B6E0 0x34867077 0x690CE0EE),
    sums!([0] 0xD219C1DC 0xA0F29E0F 0x452421A9 0x8A484352
        0x10519B13 0x20A33626 0x41466C4C 0x828CD898),
    sums!([0] 0x01D8AC87 0x03B1590E 0x0762B21C 0x0EC56438
        0x1D8AC870 0x3B1590E0 0x762B21C0 0xEC564380),
    sums!([0] 0xDC6D9AB7 0xBC1A28D9 0x7CF54C05 0xF9EA980A
        0xF7142DA3 0xEAE946F1 0xD1139055 0xA6E63D1D),
    sums!([0] 0x490D678D 0x921ACF1A 0x20F48383 0x41E90706
        0x83D20E0C 0x036501AF 0x06CA035E 0x0D9406BC),
    sums!([0] 0x1B280D78 0x36501AF0 0x6CA035E0 0xD9406BC0
        0xB641CA37 0x684289D9 0xD08513B2 0xA5CB3AD3),
    sums!([0] 0x4F576811 0x9EAED022 0x399CBDF3 0x73397BE6
        0xE672F7CC 0xC824F22F 0x9488F9E9 0x2DD0EE65),
    sums!([0] 0x5BA1DCCA 0xB743B994 0x6A466E9F 0xD48CDD3E
        0xADD8A7CB 0x5F705221 0xBEE0A442 0x79005533),
];

/// Whether a section came whole and undamaged: it has the long form (section_syntax_indicator 1, so
/// at least 12 bytes), the length that its section_length says, and the remainder 0 (ISO/IEC
/// 13818-1, 2.4.4 and annex A).
pub fn is_intact(section: &[u8]) -> bool
    ensures test { result ≡ is_intact section.now }
    ensures fact { IsTrue result ↔ IsIntact section.now }
{
    section.len() >= SHORTEST_SECTION
        && section[1] >> 7 == 1
        && length_field(section) + BYTES_UP_TO_LENGTH == section.len()
        && crc_of(section) == 0
}

/// The field section_length.
fn length_field(section: &[u8]) -> usize
    requires { SHORTEST_SECTION ≤ length section.now }
    ensures { result ≡ section_length section.now }
{
    usize::from(u16::from_be_bytes([section[1] & 0x0F, section[2]]))
}

/// The CRC of bytes: the remainder of their division by the polynomial 0x04C11DB7, with all ones at
/// the start, the most significant bit of each byte first, and nothing added at the end (ISO/IEC
/// 13818-1, annex A). It is what stands as CRC_32 behind the bytes of a section; over a section
/// with its CRC_32 it is 0.
pub fn crc_of(bytes: &[u8]) -> u32
    ensures { result ≡ remainder_of bytes.now }
{
    let mut register = START;
    let mut rest = bytes;
    while let Some((eight, behind)) = rest.split_first_chunk() {
        register = shift_in_eight(register, eight);
        rest = behind;
    }
    shift_in_each(register, rest)
}

/// The register when the bits of eight bytes came in. It is as if it had held zeros, and its bits
/// had been added to those of the first four bytes.
fn shift_in_eight(register: u32, bytes: &[u8; 8]) -> u32
    ensures { bits_of_number 32 result
        ≡ register_behind (bits_of_number 32 register) (bits_of bytes.now) }
{
    shift_into_zeros(u64::from_be_bytes(*bytes) ^ (u64::from(register) << 32))
}

/// The register when it held zeros and the 64 bits of a number came in.
fn shift_into_zeros(number: u64) -> u32
    ensures { bits_of_number 32 result
        ≡ register_behind (replicate 32 false) (bits_of_number 64 number) }
{
    let [first, second, third, fourth, fifth, sixth, seventh, eighth] = number.to_be_bytes();
    TABLES[7][first as usize]
        ^ TABLES[6][second as usize]
        ^ TABLES[5][third as usize]
        ^ TABLES[4][fourth as usize]
        ^ TABLES[3][fifth as usize]
        ^ TABLES[2][sixth as usize]
        ^ TABLES[1][seventh as usize]
        ^ TABLES[0][eighth as usize]
}

/// The register when the bits of each byte came in.
fn shift_in_each(mut register: u32, bytes: &[u8]) -> u32
    ensures { bits_of_number 32 result
        ≡ register_behind (bits_of_number 32 register) (bits_of bytes.now) }
{
    for byte in bytes {
        register = shift_in(register, *byte);
    }
    register
}

/// The register when the eight bits of a byte came in.
fn shift_in(register: u32, byte: u8) -> u32
    ensures { bits_of_number 32 result
        ≡ register_behind (bits_of_number 32 register) (bits_of_number 8 byte) }
{
    let leaving = (register >> 24) as u8 ^ byte;
    (register << 8) ^ TABLES[0][leaving as usize]
}

/// The remainder of the long division is what the decoder of ISO/IEC 13818-1, annex A, a shift
/// register of 32 bits, holds behind the message. This is a law of the definitions, and has no
/// code.
pub fn remainder_by_register()
    ensures { (bytes : List ℕ)
        → remainder_of bytes ≡ number_of (register_behind (replicate 32 true) (bits_of bytes)) }
{}

/// A message leaves the remainder 0 with its own CRC behind it, the most significant byte first,
/// and with no other four bytes. This is a law of the definitions, and has no code.
pub fn crc_behind_its_message()
    ensures own { (bytes : List ℕ)
        → remainder_of (bytes ++ to_be_bytes w32 (remainder_of bytes)) ≡ 0 }
    ensures only { (bytes : List ℕ) (crc : ℕ) → crc < 2 ^ 32
        → remainder_of (bytes ++ to_be_bytes w32 crc) ≡ 0 → crc ≡ remainder_of bytes }
{}

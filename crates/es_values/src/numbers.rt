//! Numbers of scripts, and the operators on them.

ghost use Rattle.std.specs.Prelude.{◌≡◌, ◌+ℤ◌, ◌-ℤ◌, ◌*ℤ◌, neg_ℤ};
ghost use Rattle.es_values.specs.Numbers.{bits_of, bitwise_and_of, bitwise_not_of, bitwise_or_of, bitwise_xor_of, difference_of, is_equal_number, is_less_number, is_not_a_number, left_shift_of, negation_of, number_of_count, of_bits as spec_of_bits, product_of, quotient_of, remainder_of, signed_right_shift_of, sum_of, unsigned_right_shift_of, whole_or_zero, wrapped};

/// A number of a script: NaN, or a whole number of 32 bits with a sign. (ECMA-262 second edition, 8.5,
/// in this profile, where there are no other numbers.)
#[derive(Clone, Copy, Debug)]
pub enum Num {
    NotANumber,
    Whole(i32),
}

impl Num {
    /// A count as a number: NaN where it passes 2,147,483,647.
    pub fn of_count(count: usize) -> Num
        ensures { result ≡ number_of_count count }
    {
        match i32::try_from(count) {
            Ok(count) => Num::Whole(count),
            Err(_) => Num::NotANumber,
        }
    }

    /// Whether it is NaN.
    pub fn is_not_a_number(self) -> bool
        ensures { result ≡ is_not_a_number self }
    {
        match self {
            Num::NotANumber => true,
            Num::Whole(_) => false,
        }
    }

    /// The operator `+` of two numbers.
    pub fn add(self, other: Num) -> Num
        ensures { result ≡ sum_of self other }
    {
        match (self, other) {
            (Num::Whole(left), Num::Whole(right)) => Num::Whole(sum(left, right)),
            _ => Num::NotANumber,
        }
    }

    /// The binary operator `-`.
    pub fn subtract(self, other: Num) -> Num
        ensures { result ≡ difference_of self other }
    {
        match (self, other) {
            (Num::Whole(left), Num::Whole(right)) => Num::Whole(difference(left, right)),
            _ => Num::NotANumber,
        }
    }

    /// The operator `*`.
    pub fn multiply(self, other: Num) -> Num
        ensures { result ≡ product_of self other }
    {
        match (self, other) {
            (Num::Whole(left), Num::Whole(right)) => Num::Whole(product(left, right)),
            _ => Num::NotANumber,
        }
    }

    /// The operator `/`, which cuts towards zero. By 0 it gives NaN.
    pub fn divide(self, other: Num) -> Num
        ensures { result ≡ quotient_of self other }
    {
        match (self, other) {
            (Num::Whole(left), Num::Whole(right)) => quotient(left, right),
            _ => Num::NotANumber,
        }
    }

    /// The operator `%`, which has the dividend's sign. By 0 it gives NaN.
    pub fn remainder(self, other: Num) -> Num
        ensures { result ≡ remainder_of self other }
    {
        match (self, other) {
            (Num::Whole(left), Num::Whole(right)) => remainder(left, right),
            _ => Num::NotANumber,
        }
    }

    /// The unary operator `-`.
    pub fn negate(self) -> Num
        ensures { result ≡ negation_of self }
    {
        match self {
            Num::Whole(whole) => Num::Whole(negation(whole)),
            Num::NotANumber => Num::NotANumber,
        }
    }

    /// The operator `&`.
    pub fn bitwise_and(self, other: Num) -> Num
        ensures { result ≡ bitwise_and_of self other }
    {
        of_bits(self.bits() & other.bits())
    }

    /// The operator `|`.
    pub fn bitwise_or(self, other: Num) -> Num
        ensures { result ≡ bitwise_or_of self other }
    {
        of_bits(self.bits() | other.bits())
    }

    /// The operator `^`.
    pub fn bitwise_xor(self, other: Num) -> Num
        ensures { result ≡ bitwise_xor_of self other }
    {
        of_bits(self.bits() ^ other.bits())
    }

    /// The operator `~`.
    pub fn bitwise_not(self) -> Num
        ensures { result ≡ bitwise_not_of self }
    {
        of_bits(!self.bits())
    }

    /// The operator `<<`. A shift counts modulo 32.
    pub fn left_shift(self, count: Num) -> Num
        ensures { result ≡ left_shift_of self count }
    {
        of_bits(self.bits().wrapping_shl(count.bits()))
    }

    /// The operator `>>`, which shifts the sign in.
    pub fn signed_right_shift(self, count: Num) -> Num
        ensures { result ≡ signed_right_shift_of self count }
    {
        Num::Whole(self.whole_or_zero().wrapping_shr(count.bits()))
    }

    /// The operator `>>>`, which shifts zeros in. What is above 2,147,483,647 wraps.
    pub fn unsigned_right_shift(self, count: Num) -> Num
        ensures { result ≡ unsigned_right_shift_of self count }
    {
        of_bits(self.bits().wrapping_shr(count.bits()))
    }

    /// Whether two numbers are equal, which NaN is to nothing.
    pub fn equals(self, other: Num) -> bool
        ensures { result ≡ is_equal_number self other }
    {
        match (self, other) {
            (Num::Whole(left), Num::Whole(right)) => !(left < right || right < left),
            _ => false,
        }
    }

    /// Whether it is below the other number, which NaN never is.
    pub fn is_less_than(self, other: Num) -> bool
        ensures { result ≡ is_less_number self other }
    {
        match (self, other) {
            (Num::Whole(left), Num::Whole(right)) => left < right,
            _ => false,
        }
    }

    fn whole_or_zero(self) -> i32
        ensures { result ≡ whole_or_zero self }
    {
        match self {
            Num::Whole(whole) => whole,
            Num::NotANumber => 0,
        }
    }

    fn bits(self) -> u32
        ensures { result ≡ bits_of self }
    {
        self.whole_or_zero().cast_unsigned()
    }
}

fn sum(left: i32, right: i32) -> i32
    ensures { result ≡ wrapped (left +ℤ right) }
{
    left.wrapping_add(right)
}

fn difference(left: i32, right: i32) -> i32
    ensures { result ≡ wrapped (left -ℤ right) }
{
    left.wrapping_sub(right)
}

fn product(left: i32, right: i32) -> i32
    ensures { result ≡ wrapped (left *ℤ right) }
{
    left.wrapping_mul(right)
}

fn negation(whole: i32) -> i32
    ensures { result ≡ wrapped (neg_ℤ whole) }
{
    whole.wrapping_neg()
}

fn quotient(left: i32, right: i32) -> Num
    ensures { result ≡ quotient_of (Num.Whole left) (Num.Whole right) }
{
    if right == 0 {
        return Num::NotANumber;
    }
    Num::Whole(left.wrapping_div(right))
}

fn remainder(left: i32, right: i32) -> Num
    ensures { result ≡ remainder_of (Num.Whole left) (Num.Whole right) }
{
    if right == 0 {
        return Num::NotANumber;
    }
    Num::Whole(left.wrapping_rem(right))
}

fn of_bits(bits: u32) -> Num
    ensures { result ≡ spec_of_bits bits }
{
    Num::Whole(bits.cast_signed())
}

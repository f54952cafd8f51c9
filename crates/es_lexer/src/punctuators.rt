//! Brackets, operators and other marks.

ghost use Rattle.std.specs.Prelude.{◌≡◌, ◌≢◌, ◌<◌, MatchOption, option_map, length};
ghost use Rattle.es_lexer.specs.Spellings.{mark_spelling};
ghost use Rattle.es_lexer.specs.Munching.{mark_of as spec_mark_of, longer as spec_longer, made_by, made_by_either, grown, mark_at};
ghost use Rattle.es_lexer.specs.Views.{found_mark};
ghost use Rattle.es_lexer.specs.declared.punctuators.Punctuator.{Punctuator};

/// A punctuator (ECMA-262 second edition, 7.6, in this profile; `===` and `!==` are the third
/// edition's, 7.7).
#[derive(Clone, Copy, Debug, PartialEq, Eq)]
pub enum Punctuator {
    /// `{`
    OpenBrace,
    /// `}`
    CloseBrace,
    /// `(`
    OpenParenthesis,
    /// `)`
    CloseParenthesis,
    /// `[`
    OpenBracket,
    /// `]`
    CloseBracket,
    /// `;`
    Semicolon,
    /// `,`
    Comma,
    /// `.`
    Dot,
    /// `?`
    Question,
    /// `:`
    Colon,
    /// `~`
    Complement,
    /// `!`
    Not,
    /// `++`
    Increment,
    /// `--`
    Decrement,
    /// `=`
    Assign,
    /// `*=`
    TimesAssign,
    /// `/=`
    DivideAssign,
    /// `%=`
    RemainderAssign,
    /// `+=`
    PlusAssign,
    /// `-=`
    MinusAssign,
    /// `<<=`
    ShiftLeftAssign,
    /// `>>=`
    ShiftRightAssign,
    /// `>>>=`
    UnsignedShiftRightAssign,
    /// `&=`
    AndAssign,
    /// `^=`
    XorAssign,
    /// `|=`
    OrAssign,
    /// `||`
    LogicalOr,
    /// `&&`
    LogicalAnd,
    /// `|`
    BitOr,
    /// `^`
    BitXor,
    /// `&`
    BitAnd,
    /// `==`
    Equal,
    /// `!=`
    NotEqual,
    /// `===`
    StrictEqual,
    /// `!==`
    StrictNotEqual,
    /// `<`
    Less,
    /// `>`
    Greater,
    /// `<=`
    LessOrEqual,
    /// `>=`
    GreaterOrEqual,
    /// `<<`
    ShiftLeft,
    /// `>>`
    ShiftRight,
    /// `>>>`
    UnsignedShiftRight,
    /// `+`
    Plus,
    /// `-`
    Minus,
    /// `*`
    Times,
    /// `/`
    Divide,
    /// `%`
    Remainder,
}

/// The punctuator that is spelled so, and None where none is.
pub fn punctuator_of(spelling: &[u16]) -> Option<Punctuator>
    ensures { MatchOption result ((mark : Punctuator) → spelling.now ≢ mark_spelling mark)
        (λ mark. spelling.now ≡ mark_spelling mark) }
{
    match mark_at_front(spelling) {
        Some((mark, rest)) if rest.is_empty() => Some(mark),
        _ => None,
    }
}

/// The longest punctuator at the front, and what stands behind it.
#[tactic(auto, unfolding(crate::specs::Munching::mark_at))]
pub fn mark_at_front(codes: &[u16]) -> Option<(Punctuator, &[u16])>
    ensures { option_map found_mark result ≡ mark_at codes.now }
{
    let (code, rest) = codes.split_first()?;
    let mark = mark_of(*code)?;
    Some(grown_mark(mark, rest))
}

// The longest punctuator that begins with this one, and what it leaves.
#[tactic(auto, unfolding(crate::specs::Munching::grown))]
fn grown_mark(mark: Punctuator, codes: &[u16]) -> (Punctuator, &[u16])
    ensures { found_mark result ≡ grown mark codes.now }
{
    let mut mark = mark;
    let mut rest = codes;
    'codes: while let Some((code, behind)) = rest.split_first() {
        match longer(mark, *code) {
            Some(more) => mark = more,
            None => return (mark, rest),
        }
        rest = behind;
    }
    (mark, rest)
}

// The punctuator of one code.
#[tactic(auto, unfolding(crate::specs::Munching::mark_of))]
fn mark_of(code: u16) -> Option<Punctuator>
    ensures { result ≡ spec_mark_of code }
{
    match u8::try_from(code).ok()? {
        b'{' => Some(Punctuator::OpenBrace),
        b'}' => Some(Punctuator::CloseBrace),
        b'(' => Some(Punctuator::OpenParenthesis),
        b')' => Some(Punctuator::CloseParenthesis),
        b'[' => Some(Punctuator::OpenBracket),
        b']' => Some(Punctuator::CloseBracket),
        b';' => Some(Punctuator::Semicolon),
        b',' => Some(Punctuator::Comma),
        b'.' => Some(Punctuator::Dot),
        b'?' => Some(Punctuator::Question),
        b':' => Some(Punctuator::Colon),
        b'~' => Some(Punctuator::Complement),
        b'!' => Some(Punctuator::Not),
        b'=' => Some(Punctuator::Assign),
        b'|' => Some(Punctuator::BitOr),
        b'^' => Some(Punctuator::BitXor),
        b'&' => Some(Punctuator::BitAnd),
        b'<' => Some(Punctuator::Less),
        b'>' => Some(Punctuator::Greater),
        b'+' => Some(Punctuator::Plus),
        b'-' => Some(Punctuator::Minus),
        b'*' => Some(Punctuator::Times),
        b'/' => Some(Punctuator::Divide),
        b'%' => Some(Punctuator::Remainder),
        _ => None,
    }
}

// The punctuator that one code more makes of a punctuator.
#[tactic(auto, unfolding(crate::specs::Munching::longer))]
fn longer(mark: Punctuator, code: u16) -> Option<Punctuator>
    ensures { result ≡ spec_longer mark code }
{
    match mark {
        Punctuator::Not => made(code, b'=', Punctuator::NotEqual),
        Punctuator::Assign => made(code, b'=', Punctuator::Equal),
        Punctuator::Equal => made(code, b'=', Punctuator::StrictEqual),
        Punctuator::NotEqual => made(code, b'=', Punctuator::StrictNotEqual),
        Punctuator::BitOr => either(
            code,
            (b'=', Punctuator::OrAssign),
            (b'|', Punctuator::LogicalOr),
        ),
        Punctuator::BitXor => made(code, b'=', Punctuator::XorAssign),
        Punctuator::BitAnd => either(
            code,
            (b'=', Punctuator::AndAssign),
            (b'&', Punctuator::LogicalAnd),
        ),
        Punctuator::Less => either(
            code,
            (b'=', Punctuator::LessOrEqual),
            (b'<', Punctuator::ShiftLeft),
        ),
        Punctuator::Greater => either(
            code,
            (b'=', Punctuator::GreaterOrEqual),
            (b'>', Punctuator::ShiftRight),
        ),
        Punctuator::ShiftLeft => made(code, b'=', Punctuator::ShiftLeftAssign),
        Punctuator::ShiftRight => either(
            code,
            (b'=', Punctuator::ShiftRightAssign),
            (b'>', Punctuator::UnsignedShiftRight),
        ),
        Punctuator::UnsignedShiftRight => made(code, b'=', Punctuator::UnsignedShiftRightAssign),
        Punctuator::Plus => either(
            code,
            (b'+', Punctuator::Increment),
            (b'=', Punctuator::PlusAssign),
        ),
        Punctuator::Minus => either(
            code,
            (b'-', Punctuator::Decrement),
            (b'=', Punctuator::MinusAssign),
        ),
        Punctuator::Times => made(code, b'=', Punctuator::TimesAssign),
        Punctuator::Divide => made(code, b'=', Punctuator::DivideAssign),
        Punctuator::Remainder => made(code, b'=', Punctuator::RemainderAssign),
        _ => None,
    }
}

fn made(code: u16, wanted: u8, mark: Punctuator) -> Option<Punctuator>
    ensures { result ≡ made_by wanted code mark }
{
    if code == u16::from(wanted) {
        Some(mark)
    } else {
        None
    }
}

fn either(code: u16, first: (u8, Punctuator), second: (u8, Punctuator)) -> Option<Punctuator>
    ensures { result ≡ made_by_either first.0 first.1 second.0 second.1 code }
{
    if code == u16::from(first.0) {
        Some(first.1)
    } else if code == u16::from(second.0) {
        Some(second.1)
    } else {
        None
    }
}

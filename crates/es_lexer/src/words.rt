//! The reserved words of a script.

ghost use Rattle.std.specs.Prelude.{◌≡◌, ◌≢◌, MatchOption, nat_eq, length};
ghost use Rattle.std.specs.Cmp.Lexicographic.{pointwise};
ghost use Rattle.es_lexer.specs.ScannedElements.{word_of};
ghost use Rattle.es_lexer.specs.Spellings.{word_spelling};
ghost use Rattle.es_lexer.specs.declared.words.ReservedWord.{ReservedWord};

/// A reserved word: a keyword, `null`, `true` or `false`, or a word that is kept for later
/// (ECMA-262 second edition, 7.4).
#[derive(Clone, Copy, Debug, PartialEq, Eq)]
pub enum ReservedWord {
    Break,
    Case,
    Catch,
    Class,
    Const,
    Continue,
    Debugger,
    Default,
    Delete,
    Do,
    Else,
    Enum,
    Export,
    Extends,
    False,
    Finally,
    For,
    Function,
    If,
    Import,
    In,
    New,
    Null,
    Return,
    Super,
    Switch,
    This,
    Throw,
    True,
    Try,
    Typeof,
    Var,
    Void,
    While,
    With,
}

const ALL: [ReservedWord; 35] = [
    ReservedWord::Break,
    ReservedWord::Case,
    ReservedWord::Catch,
    ReservedWord::Class,
    ReservedWord::Const,
    ReservedWord::Continue,
    ReservedWord::Debugger,
    ReservedWord::Default,
    ReservedWord::Delete,
    ReservedWord::Do,
    ReservedWord::Else,
    ReservedWord::Enum,
    ReservedWord::Export,
    ReservedWord::Extends,
    ReservedWord::False,
    ReservedWord::Finally,
    ReservedWord::For,
    ReservedWord::Function,
    ReservedWord::If,
    ReservedWord::Import,
    ReservedWord::In,
    ReservedWord::New,
    ReservedWord::Null,
    ReservedWord::Return,
    ReservedWord::Super,
    ReservedWord::Switch,
    ReservedWord::This,
    ReservedWord::Throw,
    ReservedWord::True,
    ReservedWord::Try,
    ReservedWord::Typeof,
    ReservedWord::Var,
    ReservedWord::Void,
    ReservedWord::While,
    ReservedWord::With,
];

impl ReservedWord {
    /// How the word is spelled.
    pub fn spelling(self) -> &'static [u8]
        ensures { result.now ≡ word_spelling self }
    {
        match self {
            ReservedWord::Break => b"break",
            ReservedWord::Case => b"case",
            ReservedWord::Catch => b"catch",
            ReservedWord::Class => b"class",
            ReservedWord::Const => b"const",
            ReservedWord::Continue => b"continue",
            ReservedWord::Debugger => b"debugger",
            ReservedWord::Default => b"default",
            ReservedWord::Delete => b"delete",
            ReservedWord::Do => b"do",
            ReservedWord::Else => b"else",
            ReservedWord::Enum => b"enum",
            ReservedWord::Export => b"export",
            ReservedWord::Extends => b"extends",
            ReservedWord::False => b"false",
            ReservedWord::Finally => b"finally",
            ReservedWord::For => b"for",
            ReservedWord::Function => b"function",
            ReservedWord::If => b"if",
            ReservedWord::Import => b"import",
            ReservedWord::In => b"in",
            ReservedWord::New => b"new",
            ReservedWord::Null => b"null",
            ReservedWord::Return => b"return",
            ReservedWord::Super => b"super",
            ReservedWord::Switch => b"switch",
            ReservedWord::This => b"this",
            ReservedWord::Throw => b"throw",
            ReservedWord::True => b"true",
            ReservedWord::Try => b"try",
            ReservedWord::Typeof => b"typeof",
            ReservedWord::Var => b"var",
            ReservedWord::Void => b"void",
            ReservedWord::While => b"while",
            ReservedWord::With => b"with",
        }
    }
}

/// The reserved word that is spelled so, and None where none is.
pub fn reserved_word_of(spelling: &[u16]) -> Option<ReservedWord>
    ensures { MatchOption result ((word : ReservedWord) → spelling.now ≢ word_spelling word)
        (λ word. spelling.now ≡ word_spelling word) }
{
    let word = found_word(spelling);
    word
}

/// The same, as it is looked for.
#[tactic(auto, unfolding(crate::specs::ScannedElements::word_of))]
pub fn found_word(spelling: &[u16]) -> Option<ReservedWord>
    ensures { result ≡ word_of spelling.now }
{
    ALL.iter()
        .copied()
        .find(|word| is_spelled(spelling, word.spelling()))
}

// Whether these codes spell the ASCII word.
fn is_spelled(codes: &[u16], word: &[u8]) -> bool
    ensures { result ≡ pointwise nat_eq word.now codes.now }
{
    let mut rest = codes;
    let mut left = word;
    'word: while let Some((byte, more)) = left.split_first() {
        match rest.split_first() {
            Some((code, behind)) if *code == u16::from(*byte) => rest = behind,
            _ => return false,
        }
        left = more;
    }
    rest.is_empty()
}

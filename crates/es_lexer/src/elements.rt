//! The input element at the front of a script: white space, a line break, a comment, a token.

ghost use Rattle.std.specs.Prelude.{◌≡◌, ◌∷◌, true, None, option_map, IfOk, codes as ascii};
ghost use Rattle.std.specs.List.{list_any};
ghost use Rattle.es_lexer.specs.Codes.{is_line_terminator as spec_is_line_terminator};
ghost use Rattle.es_lexer.specs.Scanning.{changed, up_to};
ghost use Rattle.es_lexer.specs.ScannedElements.{NoCommentIn, name_at, slash_at, numeral_at, literal_at, punctuation_at};
ghost use Rattle.es_lexer.specs.ScannedTokens.{seen_of, seen_at};
ghost use Rattle.es_lexer.specs.ElementViews.{found_element, seen_inside};

use crate::codes::{
    CodeClass, behind_run, is_decimal_digit, is_identifier_start, is_line_terminator, is_quote,
    is_white, split_at_mark, split_run, stripped,
};
use crate::literals::literal;
use crate::numbers::number;
use crate::punctuators::mark_at_front;
use crate::token_types::TokenKind;
use crate::words::found_word;
use bml_bytes::NoMemory;
use std::alloc::Global;

/// What stands at a place of a script.
#[derive(Drop)]
pub enum Element {
    /// White space, or a comment without a line break.
    Blank,
    /// A line break, or a comment with one.
    Break,
    /// A token.
    Token(TokenKind),
}

/// The element at the front, and what stands behind it. None where nothing stands there. `unclosed`
/// is kept from one place of a text to the next: it is set where a comment isn't closed, since none
/// behind it is closed then, so that the end of none is looked for again.
#[tactic(auto, unfolding(crate::specs::ScannedElements::element_at))]
pub fn element_at_front<'a>(
    alloc: Global,
    codes: &'a [u16],
    unclosed: &mut bool,
) -> Result<Option<(Element, &'a [u16])>, NoMemory>
    requires { unclosed.old ≡ true → NoCommentIn codes.now }
    ensures seen { IfOk result (λ found. option_map found_element found ≡ seen_at codes.now) }
    ensures left { unclosed.new ≡ true → NoCommentIn codes.now }
{
    let Some((code, rest)) = codes.split_first() else {
        return Ok(None);
    };
    if is_white(*code) {
        return Ok(Some((Element::Blank, rest)));
    }
    if is_line_terminator(*code) {
        return Ok(Some((Element::Break, rest)));
    }
    if is_identifier_start(*code) {
        return Ok(Some(name(codes)));
    }
    if is_decimal_digit(*code) {
        return Ok(numeral(codes));
    }
    if is_quote(*code) {
        return text_literal(alloc, *code, rest);
    }
    if *code == u16::from(b'/') {
        return Ok(comment_or_mark(codes, rest, unclosed));
    }
    Ok(mark(codes))
}

// The identifier or reserved word at the front.
#[tactic(auto, unfolding(crate::specs::ScannedElements::name_at, crate::specs::ScannedElements::named))]
fn name(codes: &[u16]) -> (Element, &[u16])
    ensures { found_element result ≡ changed seen_of (name_at codes.now) }
{
    let (name, rest) = split_run(CodeClass::IdentifierPart, codes);
    match found_word(name) {
        Some(_) => (Element::Token(TokenKind::Word), rest),
        None => (Element::Token(TokenKind::Name), rest),
    }
}

#[tactic(auto, unfolding(crate::specs::ScannedElements::numeral_at))]
fn numeral(codes: &[u16]) -> Option<(Element, &[u16])>
    ensures { option_map found_element result
        ≡ option_map (changed seen_of) (numeral_at codes.now) }
{
    let (number, rest) = number(codes)?;
    Some((Element::Token(TokenKind::Number(number)), rest))
}

// The text literal whose quote stands in front of the codes.
#[tactic(auto, unfolding(crate::specs::ScannedElements::literal_at))]
fn text_literal(
    alloc: Global,
    quote: u16,
    codes: &[u16],
) -> Result<Option<(Element, &[u16])>, NoMemory>
    ensures { IfOk result (λ found. option_map found_element found
        ≡ option_map (changed seen_of) (literal_at quote codes.now)) }
{
    match literal(alloc, quote, codes)? {
        Some((text, rest)) => Ok(Some((Element::Token(TokenKind::Words(text)), rest))),
        None => Ok(None),
    }
}

// The comment or punctuator at the front of these codes, which begin with `/`.
#[tactic(auto, unfolding(crate::specs::ScannedElements::slash_at))]
fn comment_or_mark<'a>(
    codes: &'a [u16],
    behind: &'a [u16],
    unclosed: &mut bool,
) -> Option<(Element, &'a [u16])>
    requires slash { codes.now ≡ 47 ∷ behind.now }
    requires left { unclosed.old ≡ true → NoCommentIn codes.now }
    ensures seen { option_map found_element result
        ≡ option_map (changed seen_of) (slash_at behind.now) }
    ensures left { unclosed.new ≡ true → NoCommentIn codes.now }
{
    match stripped(behind, b"/") {
        Some(rest) => return Some((Element::Blank, behind_run(CodeClass::InLine, rest))),
        None => {}
    }
    match stripped(behind, b"*") {
        Some(rest) => match block_comment(rest, unclosed) {
            Some((element, rest)) => Some((element, rest)),
            None => mark(codes),
        },
        None => mark(codes),
    }
}

// The comment whose `/*` stands in front of the codes.
fn block_comment<'a>(codes: &'a [u16], unclosed: &mut bool) -> Option<(Element, &'a [u16])>
    requires { unclosed.old ≡ true → up_to (ascii "*/") codes.now ≡ None }
    ensures seen { option_map found_element result
        ≡ option_map (changed seen_inside) (up_to (ascii "*/") codes.now) }
    ensures left { unclosed.new ≡ true → up_to (ascii "*/") codes.now ≡ None }
{
    if *unclosed {
        return None;
    }
    match split_at_mark(codes, b"*/") {
        Some((inside, rest)) => {
            if has_line_break(inside) {
                Some((Element::Break, rest))
            } else {
                Some((Element::Blank, rest))
            }
        }
        None => {
            *unclosed = true;
            None
        }
    }
}

fn has_line_break(codes: &[u16]) -> bool
    ensures { result ≡ list_any spec_is_line_terminator codes.now }
{
    codes.iter().any(|code| is_line_terminator(*code))
}

#[tactic(auto, unfolding(crate::specs::ScannedElements::punctuation_at))]
fn mark(codes: &[u16]) -> Option<(Element, &[u16])>
    ensures { option_map found_element result
        ≡ option_map (changed seen_of) (punctuation_at codes.now) }
{
    let (_, rest) = mark_at_front(codes)?;
    Some((Element::Token(TokenKind::Mark), rest))
}

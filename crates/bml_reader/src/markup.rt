//! The pieces that a document is spelled by: tags, runs of text, CDATA sections, remarks, the
//! document type.

ghost use Rattle.std.specs.Prelude.{◌≡◌, option_map, IfOk};
ghost use Rattle.bml_reader.specs.devices.Lexing.{markup_at, bracketed_at, declaration_at, comment_at, instruction_at, cdata_at, doctype_at, start_tag_at, end_tag_at};
ghost use Rattle.bml_reader.specs.devices.MarkupViews.{found_markup};

use crate::bytes::{ByteClass, behind_mark, behind_run, split_at_mark, split_run};
use crate::tags::{Inside, inside_tag, name};
use bml_bytes::{NoMemory, Text};
use std::alloc::Global;

/// A start tag: its name, and what stands behind that.
#[derive(Drop)]
pub struct StartTag {
    pub tag: Text,
    pub inside: Inside,
}

/// A piece of a document. A comment or a processing instruction is a remark.
#[derive(Drop)]
pub enum Markup<'a> {
    StartTag(StartTag),
    EndTag(&'a [u8]),
    Run(&'a [u8]),
    Cdata(&'a [u8]),
    Remark,
    Doctype,
}

/// The piece at the front, and what stands behind it. None where no piece is there.
#[tactic(auto, unfolding(crate::specs::devices::Lexing::markup_at))]
pub fn next_markup(alloc: Global, bytes: &[u8]) -> Result<Option<(Markup, &[u8])>, NoMemory>
    ensures { IfOk result (λ found. option_map found_markup found ≡ markup_at bytes.now) }
{
    match bytes.split_first() {
        None => Ok(None),
        Some((b'<', rest)) => bracketed(alloc, rest),
        Some(_) => {
            let (run, rest) = split_run(ByteClass::TextByte, bytes);
            Ok(Some((Markup::Run(run), rest)))
        }
    }
}

// The piece whose `<` stands in front of the bytes.
#[tactic(auto, unfolding(crate::specs::devices::Lexing::bracketed_at))]
fn bracketed(alloc: Global, bytes: &[u8]) -> Result<Option<(Markup, &[u8])>, NoMemory>
    ensures { IfOk result (λ found. option_map found_markup found ≡ bracketed_at bytes.now) }
{
    match bytes.split_first() {
        None => Ok(None),
        Some((b'/', rest)) => Ok(end_tag(rest)),
        Some((b'!', rest)) => Ok(declaration(rest)),
        Some((b'?', rest)) => Ok(instruction(rest)),
        Some(_) => start_tag(alloc, bytes),
    }
}

#[tactic(auto, unfolding(crate::specs::devices::Lexing::start_tag_at, crate::specs::devices::Lexing::start_tag_of_name))]
fn start_tag(alloc: Global, bytes: &[u8]) -> Result<Option<(Markup, &[u8])>, NoMemory>
    ensures { IfOk result (λ found. option_map found_markup found ≡ start_tag_at bytes.now) }
{
    let Some((name, rest)) = name(bytes) else {
        return Ok(None);
    };
    let tag = Text::of_bytes(alloc, name)?;
    match inside_tag(alloc, rest)? {
        None => Ok(None),
        Some((inside, rest)) => Ok(Some((Markup::StartTag(StartTag { tag, inside }), rest))),
    }
}

#[tactic(auto, unfolding(crate::specs::devices::Lexing::end_tag_at, crate::specs::devices::Lexing::end_tag_of_name))]
fn end_tag(bytes: &[u8]) -> Option<(Markup, &[u8])>
    ensures { option_map found_markup result ≡ end_tag_at bytes.now }
{
    let (name, rest) = name(bytes)?;
    let rest = behind_mark(behind_run(ByteClass::White, rest), b">")?;
    Some((Markup::EndTag(name), rest))
}

// The piece whose `<!` stands in front of the bytes.
#[tactic(auto, unfolding(crate::specs::devices::Lexing::declaration_at))]
fn declaration(bytes: &[u8]) -> Option<(Markup, &[u8])>
    ensures { option_map found_markup result ≡ declaration_at bytes.now }
{
    match behind_mark(bytes, b"--") {
        Some(rest) => return comment(rest),
        None => {}
    }
    match behind_mark(bytes, b"[CDATA[") {
        Some(rest) => return cdata(rest),
        None => {}
    }
    doctype(behind_mark(bytes, b"DOCTYPE")?)
}

#[tactic(auto, unfolding(crate::specs::devices::Lexing::comment_at))]
fn comment(bytes: &[u8]) -> Option<(Markup, &[u8])>
    ensures { option_map found_markup result ≡ comment_at bytes.now }
{
    let (_, rest) = split_at_mark(bytes, b"-->")?;
    Some((Markup::Remark, rest))
}

#[tactic(auto, unfolding(crate::specs::devices::Lexing::instruction_at))]
fn instruction(bytes: &[u8]) -> Option<(Markup, &[u8])>
    ensures { option_map found_markup result ≡ instruction_at bytes.now }
{
    let (_, rest) = split_at_mark(bytes, b"?>")?;
    Some((Markup::Remark, rest))
}

#[tactic(auto, unfolding(crate::specs::devices::Lexing::cdata_at))]
fn cdata(bytes: &[u8]) -> Option<(Markup, &[u8])>
    ensures { option_map found_markup result ≡ cdata_at bytes.now }
{
    let (inside, rest) = split_at_mark(bytes, b"]]>")?;
    Some((Markup::Cdata(inside), rest))
}

#[tactic(auto, unfolding(crate::specs::devices::Lexing::doctype_at))]
fn doctype(bytes: &[u8]) -> Option<(Markup, &[u8])>
    ensures { option_map found_markup result ≡ doctype_at bytes.now }
{
    let rest = behind_mark(behind_run(ByteClass::DoctypeByte, bytes), b">")?;
    Some((Markup::Doctype, rest))
}

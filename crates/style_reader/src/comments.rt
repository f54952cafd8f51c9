//! The comments in a style's text.

ghost use Rattle.std.specs.Prelude.{◌≡◌, ◌∷◌, [], ◌<◌, ◌≤◌, true, false, length, option_copied, IfOk, IfSome, MatchOption};
ghost use Rattle.style_reader.specs.Readings.{plain_from, plain_text as spec_plain_text};
ghost use Rattle.style_reader.specs.devices.Views.{behind_pair as spec_behind_pair};

use bml_bytes::NoMemory;
use std::alloc::Global;

const SPACE: u16 = 0x20;

const STAR: u16 = 0x2A;

const SLASH: u16 = 0x2F;

/// Whether a comment begins somewhere. A text in which none does stands as it is.
#[tactic(auto, using(crate::proofs::CommentSteps::comment_steps))]
pub fn has_comment(text: &[u16]) -> bool
    ensures { result ≡ false → spec_plain_text text.now ≡ text.now }
{
    let mut rest = text;
    'codes: while let Some((_, more)) = rest.split_first() {
        if behind_pair(rest, SLASH, STAR).is_some() {
            return true;
        }
        rest = more;
    }
    false
}

/// The text with each comment as one space.
pub fn plain_text(alloc: Global, text: &[u16]) -> Result<Vec<u16>, NoMemory>
    ensures { IfOk result (λ plain. plain.items ≡ spec_plain_text text.now) }
{
    let mut plain = Vec::with_capacity(alloc, text.len())?;
    let mut rest = text;
    'codes: while let Some((code, more)) = next_code(rest) {
        plain.push(code)?;
        rest = more;
    }
    Ok(plain)
}

// The first code, or a space in place of the comment that stands first, and what stands behind it.
#[tactic(auto, using(crate::proofs::CommentSteps::comment_steps))]
fn next_code(text: &[u16]) -> Option<(u16, &[u16])>
    ensures read { MatchOption result (text.now ≡ [])
        (λ found. plain_from false text.now ≡ found.0 ∷ plain_from false found.1.now) }
    ensures shorter { IfSome result (λ found. length found.1.now < length text.now) }
{
    let (first, more) = text.split_first()?;
    match behind_pair(text, SLASH, STAR) {
        Some(inside) => Some((SPACE, behind_comment(inside))),
        None => Some((*first, more)),
    }
}

// What stands behind the comment that the text begins in.
#[tactic(auto, using(crate::proofs::CommentSteps::comment_steps))]
fn behind_comment(text: &[u16]) -> &[u16]
    ensures outside { plain_from true text.now ≡ plain_from false result.now }
    ensures shorter { length result.now ≤ length text.now }
{
    let mut rest = text;
    'comment: while let Some((_, more)) = rest.split_first() {
        match behind_pair(rest, STAR, SLASH) {
            Some(outside) => return outside,
            None => rest = more,
        }
    }
    rest
}

// What stands behind these two codes, where they stand first.
fn behind_pair(text: &[u16], first: u16, second: u16) -> Option<&[u16]>
    ensures { option_copied result ≡ spec_behind_pair first second text.now }
{
    let (found, more) = text.split_first()?;
    let (next, rest) = more.split_first()?;
    if *found == first && *next == second {
        Some(rest)
    } else {
        None
    }
}

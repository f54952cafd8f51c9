//! The parts of a sheet.

ghost use Rattle.std.specs.Prelude.{◌≡◌, ◌<◌, length, option_copied, option_map, IfSome};
ghost use Rattle.style_reader.specs.Readings.{behind_at_rule as spec_behind_at_rule, behind_block as spec_behind_block, found_at, found_behind_white, rule_found};
ghost use Rattle.style_reader.specs.devices.Views.{part_of, seen_part};

use crate::characters::without_white_front;
use crate::pieces::split_at_code;

/// What stands at the front of a sheet.
#[derive(Clone, Copy)]
pub enum Part<'a> {
    /// What a rule selects, and what it declares.
    Rule(&'a [u16], &'a [u16]),
    /// An at-rule, which is left out.
    AtRule,
}

const AT: u16 = 0x40;

const SEMICOLON: u16 = 0x3B;

const OPEN: u16 = 0x7B;

const CLOSE: u16 = 0x7D;

/// The part at the front, and what stands behind it. None where the rest is left out.
#[tactic(auto, unfolding(crate::specs::Readings::found_at))]
pub fn next_part(text: &[u16]) -> Option<(Part<'_>, &[u16])>
    ensures part { option_map seen_part result ≡ part_of (found_at text.now) }
    ensures shorter { IfSome result (λ found. length found.1.now < length text.now) }
{
    part_behind_white(without_white_front(text))
}

fn part_behind_white(text: &[u16]) -> Option<(Part<'_>, &[u16])>
    ensures part { option_map seen_part result ≡ part_of (found_behind_white text.now) }
    ensures shorter { IfSome result (λ found. length found.1.now < length text.now) }
{
    let (first, more) = text.split_first()?;
    if *first == AT {
        let rest = behind_at_rule(more)?;
        Some((Part::AtRule, rest))
    } else {
        next_rule(text)
    }
}

// The rule at the front of a text that doesn't begin with white or `@`.
fn next_rule(text: &[u16]) -> Option<(Part<'_>, &[u16])>
    ensures part { option_map seen_part result ≡ part_of (rule_found text.now) }
    ensures shorter { IfSome result (λ found. length found.1.now < length text.now) }
{
    let (selectors, behind) = split_at_code(text, OPEN)?;
    match split_at_code(behind, CLOSE) {
        Some((block, rest)) => Some((Part::Rule(selectors, block), rest)),
        None => Some((Part::Rule(selectors, behind), &behind[behind.len()..])),
    }
}

// What stands behind an at-rule, from behind its `@` on. None where it isn't ended.
#[tactic(auto, unfolding(crate::specs::Readings::behind_at_rule))]
fn behind_at_rule(text: &[u16]) -> Option<&[u16]>
    ensures rest { option_copied result ≡ spec_behind_at_rule text.now }
    ensures shorter { IfSome result (λ rest. length rest.now < length text.now) }
{
    let mut rest = text;
    'prelude: while let Some((code, more)) = rest.split_first() {
        if *code == SEMICOLON {
            return Some(more);
        }
        if *code == OPEN {
            return behind_block(more);
        }
        rest = more;
    }
    None
}

// What stands behind the `}` that closes a block, from behind its `{` on. None where none does.
#[tactic(auto, unfolding(crate::specs::Readings::behind_block))]
fn behind_block(text: &[u16]) -> Option<&[u16]>
    ensures rest { option_copied result ≡ spec_behind_block 0 text.now }
    ensures shorter { IfSome result (λ rest. length rest.now < length text.now) }
{
    let mut depth: usize = 0;
    let mut rest = text;
    'block: while let Some((code, more)) = rest.split_first() {
        if *code == OPEN {
            depth += 1;
        } else if *code == CLOSE {
            if depth == 0 {
                return Some(more);
            }
            depth -= 1;
        }
        rest = more;
    }
    None
}

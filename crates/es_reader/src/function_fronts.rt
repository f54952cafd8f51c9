//! The fronts of functions.

ghost use Rattle.std.specs.Prelude.{◌≡◌, ◌+◌, ◌≤◌, ◌<◌, length, IfOk, IfErr};
ghost use Rattle.es_lexer.specs.declared.words.ReservedWord.TheVariants.{Function as FunctionWord};
ghost use Rattle.es_reader.specs.Statements.{Parameters};
ghost use Rattle.es_reader.specs.Grammar.{IsWord};
ghost use Rattle.es_reader.specs.Openings.{Front};
ghost use Rattle.es_reader.specs.Parts.{IfBad, IsThere};
ghost use Rattle.es_reader.specs.Stops.{BehindWord, FrontStops};
ghost use Rattle.es_reader.specs.Fronts.{IsFrontAt, AreParametersAt, IsOneName};
ghost use Rattle.es_reader.specs.Fronts.{NoNewName, ParametersBad, ParametersEnd};
ghost use Rattle.es_reader.specs.Fronts.{BodyOpens, LacksBody, IsFrontOf};

use crate::faults::PartFault;
use crate::marks::{expect_mark, expect_name, is_mark_at};
use crate::names::Names;
use bml_bytes::Text;
use es_expressions::Lexeme;
use es_lexer::Punctuator;
use std::alloc::Global;

/// The front of a function, up to its `{`: its name, its parameters, how many they are, and the
/// place of the token behind it.
#[derive(Drop)]
pub struct FrontRead {
    pub name: Text,
    pub names: Names,
    pub parameters: u32,
    pub behind: usize,
}

// Parameters and the place of the token behind them.
#[derive(Drop)]
pub struct ParametersRead {
    pub names: Names,
    pub behind: usize,
}

/// The front of the function at a place.
pub fn read_front(alloc: Global, tokens: &[Lexeme], place: usize) -> Result<FrontRead, PartFault>
    requires { IsThere (IsWord FunctionWord) tokens.now place }
    ensures front { IfOk result (λ read. (f : Front) × IsFrontAt tokens.now place f read) }
    ensures bad { IfErr result (λ fault. IfBad fault
        (BehindWord (IsWord FunctionWord) FrontStops tokens.now place)) }
{
    let name = expect_name(tokens, place + 1)?;
    expect_mark(tokens, place + 2, Punctuator::OpenParenthesis)?;
    let read = read_parameters(alloc, tokens, place + 3)?;
    let behind = expect_body(tokens, read.behind)?;
    front_of(name, read, behind)
}

// The `)` and `{` at a place. Gives the place of the token behind them.
fn expect_body(tokens: &[Lexeme], place: usize) -> Result<usize, PartFault>
    requires { place ≤ length tokens.now }
    ensures opens { IfOk result (λ behind. (behind ≡ place + 2) × BodyOpens tokens.now place) }
    ensures bad { IfErr result (λ fault. IfBad fault (LacksBody tokens.now place)) }
{
    expect_mark(tokens, place, Punctuator::CloseParenthesis)?;
    expect_mark(tokens, place + 1, Punctuator::OpenBrace)?;
    Ok(place + 2)
}

// The front of a function with this name and these parameters.
fn front_of(name: &Text, read: ParametersRead, behind: usize) -> Result<FrontRead, PartFault>
    ensures front { IfOk result (IsFrontOf name.now read behind) }
    ensures never { IfErr result (λ fault. IfBad fault (λ _. ⊥)) }
{
    let Ok(parameters) = u32::try_from(read.names.len()) else {
        return Err(PartFault::NoMemory);
    };
    Ok(FrontRead {
        name: name.share()?,
        names: read.names,
        parameters,
        behind,
    })
}

// The parameters at a place, if any.
fn read_parameters(
    alloc: Global,
    tokens: &[Lexeme],
    place: usize,
) -> Result<ParametersRead, PartFault>
    requires { place ≤ length tokens.now }
    ensures parameters { IfOk result (λ read. (x : Parameters)
        × AreParametersAt tokens.now place x read × ParametersEnd tokens.now read.behind x) }
    ensures bad { IfErr result (λ fault. IfBad fault (ParametersBad tokens.now place)) }
{
    let mut names = Names::new(alloc);
    if is_mark_at(tokens, place, Punctuator::CloseParenthesis) {
        return Ok(ParametersRead {
            names,
            behind: place,
        });
    }
    add_parameter(tokens, place, &mut names)?;
    let mut behind = place + 1;
    'parameters: while is_mark_at(tokens, behind, Punctuator::Comma) {
        add_parameter(tokens, behind + 1, &mut names)?;
        behind += 2;
    }
    Ok(ParametersRead { names, behind })
}

// The name at a place, which is Bad where a parameter has it already.
fn add_parameter(tokens: &[Lexeme], place: usize, names: &mut Names) -> Result<(), PartFault>
    ensures name { IfOk result (λ _. IsThere (IsOneName names.old names.new) tokens.now place) }
    ensures bad { IfErr result (λ fault. IfBad fault (λ bad.
        (bad ≡ place) × NoNewName names.old tokens.now place)) }
{
    let name = expect_name(tokens, place)?;
    if !names.add(name)? {
        return Err(PartFault::Bad(place));
    }
    Ok(())
}

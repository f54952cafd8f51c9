//! The places of names among the locals of functions.

ghost use Rattle.std.specs.Prelude.{◌≡◌, ◌↔◌, Some, true, IfSome, IsSome};
ghost use Rattle.std.specs.List.{position};
ghost use Rattle.bml_bytes.specs.Words.{is_same};
ghost use Rattle.es_reader.specs.Locals.{StandsIn, name_told};
ghost use Rattle.es_shapes.specs.devices.Places.{IsNamedIn, local_names, names_told};

use crate::codes::Code;
use crate::functions::Declared;
use bml_bytes::Text;
use es_reader::Program;

/// The place of the name that a node has among the locals of a function that the node stands in: it
/// is told by the program, so the name is compared with none of the locals. This is None of a node
/// that stands in another function or in none, and of one that hasn't this name, and of no other.
pub fn known_place(
    programs: &[Program],
    code: Code,
    declared: Declared,
    name: &Text,
) -> Option<Option<u32>>
    ensures place { IfSome result (λ place. place
        ≡ position (is_same name.now) (local_names programs.now declared)) }
    ensures known { IsSome result ↔ IsNamedIn programs.now code declared name.now }
{
    if code.program != declared.program {
        return None;
    }
    let program = programs.get(code.program)?;
    place_in(program, code.node, declared.function, name)
}

// The same in one program.
#[tactic(auto, using(crate::proofs::PlaceLemmas::place_known))]
fn place_in(program: &Program, node: u32, function: usize, name: &Text) -> Option<Option<u32>>
    ensures place { IfSome result (λ place. place
        ≡ position (is_same name.now) (names_told program.now function)) }
    ensures known { IsSome result ↔ (StandsIn program.now node function
        × (name_told program.now.rows node ≡ Some name.now)) }
{
    let found = program.function_of(node)?;
    if found as usize != function {
        return None;
    }
    if !is_named(program, node, name) {
        return None;
    }
    Some(program.local(node))
}

// Whether a node is a Name or a Declarator with this name.
#[tactic(auto, using(crate::proofs::PlaceLemmas::same_name))]
fn is_named(program: &Program, node: u32, name: &Text) -> bool
    ensures { (result ≡ true) ↔ (name_told program.now.rows node ≡ Some name.now) }
{
    match program.name(node) {
        Some(found) => found == name,
        None => false,
    }
}

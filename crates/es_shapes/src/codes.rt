//! Nodes of programs, by their numbers.

ghost use Rattle.std.specs.Prelude.{◌≡◌, ◌≤◌, ◌+◌, ◌<◌, ◌^◌, ℕ, IfSome, List, length, option_map, slice_get};
ghost use Rattle.std.specs.Option.{option_map_or};
ghost use Rattle.es_expressions.specs.Trees.Trees.{NoTrees, OneMore};
ghost use Rattle.es_reader.specs.Programs.{ToldProgram};
ghost use Rattle.es_shapes.specs.devices.Parts.{children_of, listed, rows_of, tree_of, trees_from};
ghost use Rattle.es_shapes.specs.devices.Decoding.{two_of};
ghost use Rattle.es_shapes.specs.devices.Numbers.{body_of, top_of};

use es_expressions::Node;
use es_reader::Program;

/// A node: the place of its program among the programs, and its number there.
#[derive(Clone, Copy)]
pub struct Code {
    pub program: usize,
    pub node: u32,
}

/// Statements in a row: those of a program, of a function by its place in its program, or of a
/// block.
#[derive(Clone, Copy)]
pub enum Listing {
    Top(usize),
    Body(usize, usize),
    Inner(Code),
}

/// The node itself, and None where there is none.
pub fn node(programs: &[Program], code: Code) -> Option<&Node>
    ensures { option_map (λ node. node.now) result ≡ option_map (λ row. row.node)
        (slice_get (rows_of programs.now code.program) code.node) }
{
    programs.get(code.program)?.node(code.node)
}

/// The numbers of a node's children, in the order of the text, and none where there is no node.
pub fn children(programs: &[Program], code: Code) -> &[u32]
    ensures { result.now ≡ children_of programs.now code }
{
    match programs.get(code.program) {
        Some(program) => program.children(code.node).unwrap_or(&[]),
        None => &[],
    }
}

// The number at a place, and None past the last one.
fn number_at(numbers: &[u32], place: usize) -> Option<u32>
    ensures number { result ≡ slice_get numbers.now place }
    ensures place { IfSome result (λ _. place + 1 < 2 ^ 64) }
{
    numbers.get(place).copied()
}

/// The child of a node at a place among the numbers of its children. It is None past the last
/// child, and where a child isn't below its node, which is so in no program that was read.
#[tactic(auto, using(crate::proofs::CodeLemmas::child_found))]
pub fn child(code: Code, children: &[u32], place: usize) -> Option<Code>
    ensures child { (programs : List ToldProgram) → children_of programs code ≡ children.now
        → trees_from programs code place ≡ option_map_or
        (λ part. OneMore (tree_of programs part) (trees_from programs code (place + 1)))
        result NoTrees }
    ensures place { IfSome result (λ _. place + 1 < 2 ^ 64) }
{
    let node = number_at(children, place)?;
    if node < code.node {
        Some(Code {
            program: code.program,
            node,
        })
    } else {
        None
    }
}

/// The child of a node at a place. It is None past the last child, and where a child isn't below
/// its node, which is so in no program that was read.
pub fn part(programs: &[Program], code: Code, place: usize) -> Option<Code>
    ensures part { trees_from programs.now code place ≡ option_map_or
        (λ part. OneMore (tree_of programs.now part) (trees_from programs.now code (place + 1)))
        result NoTrees }
    ensures place { IfSome result (λ _. place + 1 < 2 ^ 64) }
{
    child(code, children(programs, code), place)
}

/// The children of a node at a place and behind it. It is None where there is one or none.
pub fn two_parts(programs: &[Program], code: Code, place: usize) -> Option<(Code, Code)>
    ensures { two_of (trees_from programs.now code place) ≡ option_map
        (λ found. record {
          first = tree_of programs.now found.0;
          second = tree_of programs.now found.1;
          rest = trees_from programs.now code (place + 2);
        }) result }
{
    let children = children(programs, code);
    let first = child(code, children, place)?;
    let second = child(code, children, place + 1)?;
    Some((first, second))
}

// The numbers of a program's statements, and none where there is no program.
fn top_statements(programs: &[Program], program: usize) -> &[u32]
    ensures { result.now ≡ top_of programs.now program }
{
    match programs.get(program) {
        Some(program) => program.statements(),
        None => &[],
    }
}

// The numbers of a function's statements, and none where there is no function.
fn body_statements(programs: &[Program], program: usize, function: usize) -> &[u32]
    ensures { result.now ≡ body_of programs.now program function }
{
    match programs.get(program) {
        Some(program) => match program.functions().get(function) {
            Some(function) => &function.body,
            None => &[],
        },
        None => &[],
    }
}

/// The statement of a row at a place, and None past the last one.
#[tactic(auto, using(crate::proofs::CodeLemmas::statement_found))]
pub fn listed_statement(programs: &[Program], listing: Listing, place: usize) -> Option<Code>
    ensures statement { listed programs.now listing place ≡ option_map_or
        (λ code. OneMore (tree_of programs.now code) (listed programs.now listing (place + 1)))
        result NoTrees }
    ensures place { IfSome result (λ _. place + 1 < 2 ^ 64) }
{
    match listing {
        Listing::Top(program) => {
            let node = number_at(top_statements(programs, program), place)?;
            Some(Code { program, node })
        }
        Listing::Body(program, function) => {
            let node = number_at(body_statements(programs, program, function), place)?;
            Some(Code { program, node })
        }
        Listing::Inner(block) => part(programs, block, place),
    }
}

/// How many children a node has.
pub fn part_count(programs: &[Program], code: Code) -> usize
    ensures count { result ≡ length (children_of programs.now code) }
    ensures end { (place : ℕ) → result ≤ place → trees_from programs.now code place ≡ NoTrees }
{
    children(programs, code).len()
}

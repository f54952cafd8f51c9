//! The functions that nodes stand in.

ghost use Rattle.std.specs.Prelude.{◌≡◌, length, map, min, option_map, replicate, slice_get, None, IfOk};
ghost use Rattle.std.specs.Option.{option_copied};
ghost use Rattle.es_reader.specs.Told.{told_function};
ghost use Rattle.es_reader.specs.devices.Owners.{children_at as spec_children_at, earlier as spec_earlier, given, given_all, handed_down, handed_from, owner_at as spec_owner_at, owners_in, started};

use crate::programs::FunctionDecl;
use bml_bytes::NoMemory;
use es_expressions::Nodes;
use std::alloc::Global;

/// How many nodes there are. More than have a number are told as want of memory.
#[tactic(auto, using(crate::proofs::OwnerLemmas::node_there, crate::proofs::OwnerLemmas::node_past))]
pub fn node_count(nodes: &Nodes) -> Result<u32, NoMemory>
    ensures { IfOk result (λ count. count ≡ length nodes.now) }
{
    let mut count: u32 = 0;
    'nodes: while nodes.node(count).is_some() {
        let Some(more) = count.checked_add(1) else {
            return Err(NoMemory);
        };
        count = more;
    }
    Ok(count)
}

/// The function that each of so many nodes stands in, where it is in one. This looks at each node
/// and at each child once.
pub fn owners_of(
    alloc: Global,
    nodes: &Nodes,
    functions: &[FunctionDecl],
    count: u32,
) -> Result<Vec<Option<u32>>, NoMemory>
    requires { count ≡ length nodes.now }
    ensures { IfOk result (λ owners. owners.items
        ≡ owners_in nodes.now (map told_function functions.now)) }
{
    let mut owners = no_owners(alloc, count)?;
    own_bodies(functions, count, &mut owners)?;
    hand_down(nodes, count, &mut owners);
    Ok(owners)
}

// So many nodes that stand in no function.
#[tactic(auto, using(crate::proofs::OwnerLemmas::none_more))]
fn no_owners(alloc: Global, count: u32) -> Result<Vec<Option<u32>>, NoMemory>
    ensures { IfOk result (λ owners. owners.items ≡ replicate count None) }
{
    let mut owners: Vec<Option<u32>> = Vec::with_capacity(alloc, count as usize)?;
    'nodes: for _ in 0..count {
        owners.push(None)?;
    }
    Ok(owners)
}

// Gives the statements of bodies to their functions.
fn own_bodies(
    functions: &[FunctionDecl],
    count: u32,
    owners: &mut Vec<Option<u32>>,
) -> Result<(), NoMemory>
    ensures { IfOk result (λ _. owners.new.items
        ≡ started count 0 (map told_function functions.now) owners.old.items) }
{
    let mut function: u32 = 0;
    let mut rest = functions;
    'functions: while let Some((first, behind)) = rest.split_first() {
        give_all(owners, count, function, &first.body);
        let Some(next) = function.checked_add(1) else {
            return Err(NoMemory);
        };
        function = next;
        rest = behind;
    }
    Ok(())
}

// Gives the children of the first nodes to the functions that these stand in, those of the last of
// them first.
#[tactic(auto, using(crate::proofs::OwnerLemmas::down_step))]
fn hand_down(nodes: &Nodes, count: u32, owners: &mut Vec<Option<u32>>)
    ensures { owners.new.items ≡ handed_down nodes.now count owners.old.items }
{
    let mut number = count;
    'nodes: while 0 < number {
        number -= 1;
        hand_down_from(nodes, number, owners);
    }
}

// Gives the children of a node to the function that it stands in.
fn hand_down_from(nodes: &Nodes, number: u32, owners: &mut Vec<Option<u32>>)
    ensures { owners.new.items ≡ handed_from nodes.now number owners.old.items }
{
    if let Some(function) = owner_at(owners.as_slice(), number) {
        give_all(owners, number, function, children_at(nodes, number));
    }
}

/// What is told of the node of a number, and None past the last one.
pub fn owner_at(owners: &[Option<u32>], number: u32) -> Option<u32>
    ensures { result ≡ spec_owner_at owners.now number }
{
    match owners.get(number as usize) {
        Some(owner) => *owner,
        None => None,
    }
}

// The children of a node, and none past the last one.
fn children_at(nodes: &Nodes, number: u32) -> &[u32]
    ensures { result.now ≡ spec_children_at nodes.now number }
{
    nodes.children(number).unwrap_or(&[])
}

// Gives nodes to a function, where they are below a bound.
fn give_all(owners: &mut Vec<Option<u32>>, bound: u32, function: u32, numbers: &[u32])
    ensures { owners.new.items ≡ given_all bound function numbers.now owners.old.items }
{
    let mut rest = numbers;
    'numbers: while let Some((number, behind)) = rest.split_first() {
        if *number < bound {
            give(owners, *number, function);
        }
        rest = behind;
    }
}

// Gives a node to a function, unless an earlier one has it.
#[tactic(auto, using(crate::proofs::OwnerLemmas::given_set, crate::proofs::OwnerLemmas::given_past))]
fn give(owners: &mut Vec<Option<u32>>, number: u32, function: u32)
    ensures { owners.new.items ≡ given owners.old.items number function }
{
    let place = number as usize;
    if let Some(owner) = told_at(owners.as_slice(), place) {
        owners[place] = Some(earlier(function, owner));
    }
}

// What is told of the node at a place, and None past the last one.
fn told_at(owners: &[Option<u32>], place: usize) -> Option<Option<u32>>
    ensures { result ≡ slice_get owners.now place }
{
    owners.get(place).copied()
}

// The first of two functions.
fn earlier(function: u32, owner: Option<u32>) -> u32
    ensures { result ≡ spec_earlier function owner }
{
    match owner {
        Some(owner) => owner.min(function),
        None => function,
    }
}

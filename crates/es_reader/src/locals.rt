//! The places of names among the locals of the functions that they stand in.

ghost use Rattle.std.specs.Prelude.{◌≡◌, length, map, option_map, slice_get, IfOk};
ghost use Rattle.std.specs.List.{position};
ghost use Rattle.bml_bytes.specs.Words.{is_same};
ghost use Rattle.es_reader.specs.Locals.{name_by, name_in_symbol, name_told};
ghost use Rattle.es_reader.specs.Told.{told_function};
ghost use Rattle.es_reader.specs.devices.Lookups.{FindsPlaces};
ghost use Rattle.es_reader.specs.devices.Owners.{locals_of, place_at as spec_place_at, owners_in, place_in as spec_place_in, places_in, places_to};

use crate::owners::{node_count, owner_at, owners_of};
use crate::programs::FunctionDecl;
use bml_bytes::{NoMemory, Text};
use es_expressions::{Form, Node, Nodes, Symbol};
use indexmap::IndexMap;
use std::alloc::Global;
use std::marker::Model;

/// The locals of a function, whose places are found by their names. Contracts see the list of them.
#[derive(Drop)]
pub struct Locals<'a> {
    names: &'a [Text],
    places: IndexMap<Text, u32>,
}

impl<'a> Model for Locals<'a> {
    ghost use Rattle.std.specs.Prelude.{ℕ, List};
    ghost use Rattle.es_reader.specs.devices.Lookups.{FindsPlaces};

    ghost Value = { List (List ℕ) };

    ghost view = { λ locals. locals.names.now };

    ghost invariant = { λ locals. FindsPlaces locals.places.entries locals.names.now };
}

impl<'a> Locals<'a> {
    // The locals of a function.
    fn new(alloc: Global, names: &'a [Text]) -> Result<Locals<'a>, NoMemory>
        ensures { IfOk result (λ locals. locals ≡ names.now) }
    {
        let places = places_of(alloc, names)?;
        Ok(Locals { names, places })
    }

    // The place of a name, where it is one of them.
    fn place(&self, name: &Text) -> Option<u32>
        ensures { result ≡ position (is_same name.now) self.now }
    {
        self.places.get(name).copied()
    }
}

// The first place of each name, from which it is found without a look at the others.
#[tactic(auto, using(crate::proofs::LookupLemmas::one_more, crate::proofs::LookupLemmas::found_all, crate::proofs::LookupLemmas::none_yet))]
fn places_of(alloc: Global, names: &[Text]) -> Result<IndexMap<Text, u32>, NoMemory>
    ensures { IfOk result (λ places. FindsPlaces places.entries names.now) }
{
    let Ok(count) = u32::try_from(names.len()) else {
        return Err(NoMemory);
    };
    let mut places = IndexMap::new(alloc);
    let mut place = count;
    'names: while 0 < place {
        place -= 1;
        let name = names[place as usize].share()?;
        places.insert(name, place)?;
    }
    Ok(places)
}

// The locals of each function.
#[tactic(auto, using(crate::proofs::LocalLemmas::locals_more))]
fn all_locals<'a>(alloc: Global, functions: &'a [FunctionDecl]) -> Result<Vec<Locals<'a>>, NoMemory>
    ensures { IfOk result (λ locals. locals.items ≡ locals_of (map told_function functions.now)) }
{
    let mut locals = Vec::with_capacity(alloc, functions.len())?;
    for function in functions {
        locals.push(Locals::new(alloc, &function.locals)?)?;
    }
    Ok(locals)
}

/// Of each node, by its number: the function that it stands in, and its place among that one's
/// locals.
#[derive(Drop)]
pub struct NodePlaces {
    pub functions: Vec<Option<u32>>,
    pub locals: Vec<Option<u32>>,
}

/// Finds of each node the function that it stands in, and its place among that one's locals. This
/// looks at each node once, and no name is compared with each of the locals.
pub fn node_places(
    alloc: Global,
    nodes: &Nodes,
    functions: &[FunctionDecl],
) -> Result<NodePlaces, NoMemory>
    ensures functions { IfOk result (λ places. places.functions.items
        ≡ owners_in nodes.now (map told_function functions.now)) }
    ensures locals { IfOk result (λ places. places.locals.items
        ≡ places_in nodes.now (map told_function functions.now)) }
{
    let count = node_count(nodes)?;
    let owners = owners_of(alloc, nodes, functions, count)?;
    let locals = places_among(alloc, nodes, functions, owners.as_slice(), count)?;
    Ok(NodePlaces {
        functions: owners,
        locals,
    })
}

// The place of each of so many nodes among the locals of the function that it stands in, where it
// is one of these.
fn places_among(
    alloc: Global,
    nodes: &Nodes,
    functions: &[FunctionDecl],
    owners: &[Option<u32>],
    count: u32,
) -> Result<Vec<Option<u32>>, NoMemory>
    ensures { IfOk result (λ places. places.items
        ≡ places_to (locals_of (map told_function functions.now)) nodes.now owners.now count) }
{
    let locals = all_locals(alloc, functions)?;
    places_in_order(alloc, nodes, locals.as_slice(), owners, count)
}

// The same, from the locals of each function.
#[tactic(auto, using(crate::proofs::LocalLemmas::places_more))]
fn places_in_order(
    alloc: Global,
    nodes: &Nodes,
    locals: &[Locals],
    owners: &[Option<u32>],
    count: u32,
) -> Result<Vec<Option<u32>>, NoMemory>
    ensures { IfOk result (λ places. places.items
        ≡ places_to locals.now nodes.now owners.now count) }
{
    let mut places: Vec<Option<u32>> = Vec::with_capacity(alloc, count as usize)?;
    'nodes: for number in 0..count {
        places.push(place_at(nodes, locals, owners, number))?;
    }
    Ok(places)
}

// The place of a node among the locals of the function that it stands in.
fn place_at(nodes: &Nodes, locals: &[Locals], owners: &[Option<u32>], number: u32) -> Option<u32>
    ensures { result ≡ spec_place_at locals.now nodes.now owners.now number }
{
    place_in(locals, owner_at(owners, number), name_at(nodes, number))
}

// The place of a name among the locals of a function.
fn place_in(locals: &[Locals], function: Option<u32>, name: Option<&Text>) -> Option<u32>
    ensures { result ≡ spec_place_in locals.now function
        (option_map (λ name. name.now) name.entry) }
{
    match (function, name) {
        (Some(function), Some(name)) => match locals.get(function as usize) {
            Some(locals) => locals.place(name),
            None => None,
        },
        _ => None,
    }
}

/// The name of the node of a number, where it is a Name or a Declarator.
pub fn name_at(nodes: &Nodes, number: u32) -> Option<&Text>
    ensures { option_map (λ name. name.now) result ≡ name_told nodes.now number }
{
    match nodes.node(number) {
        Some(node) => name_of_node(node),
        None => None,
    }
}

// The same of a node.
fn name_of_node(node: &Node) -> Option<&Text>
    ensures { option_map (λ name. name.now) result ≡ name_by node.now }
{
    match node.form {
        Form::Name | Form::Declarator => name_of_symbol(&node.symbol),
        _ => None,
    }
}

fn name_of_symbol(symbol: &Option<Symbol>) -> Option<&Text>
    ensures { option_map (λ name. name.now) result ≡ name_in_symbol symbol.now }
{
    match symbol {
        Some(Symbol::Name(name)) => Some(name),
        _ => None,
    }
}

//! What is read of a text that is a program.

ghost use Rattle.std.specs.Prelude.{◌≡◌, ◌↔◌, ℕ, map, option_map, slice_get, IfOk, Some};
ghost use Rattle.std.specs.Option.{option_and_then};
ghost use Rattle.es_reader.specs.Locals.{IsLocalAt, StandsIn, name_told};
ghost use Rattle.es_reader.specs.Told.{told_function};

use crate::locals::{NodePlaces, name_at, node_places};
use crate::owners::owner_at;
use bml_bytes::{NoMemory, Text};
use es_expressions::{Node, Nodes};
use std::marker::Model;
use std::rc::Rc;

/// A function: its name, its parameters and then the names of its `var`s, each once, how many of
/// these are parameters, and the numbers of its statements' nodes in the order of the text.
#[derive(Debug, Drop)]
pub struct FunctionDecl {
    pub name: Text,
    pub locals: Vec<Text>,
    pub parameters: u32,
    pub body: Vec<u32>,
}

// The nodes of a program's statements, by number, its functions, and the names of the `var`s that
// stand in none; and of each node the function that it stands in, and its place among that one's
// locals.
#[derive(Drop)]
pub struct ProgramParts {
    nodes: Nodes,
    top: Vec<u32>,
    functions: Vec<FunctionDecl>,
    variables: Vec<Text>,
    places: NodePlaces,
}

/// A program: the nodes of its statements, by number, its functions, and the names of the `var`s
/// that stand in none. Copies of it share all of these. Contracts see what is told of it.
#[derive(Drop)]
pub struct Program {
    parts: Rc<ProgramParts>,
}

impl Model for Program {
    ghost use Rattle.std.specs.Prelude.{◌≡◌, map};
    ghost use Rattle.es_reader.specs.Programs.{ToldProgram};
    ghost use Rattle.es_reader.specs.Told.{told_function};
    ghost use Rattle.es_reader.specs.devices.Owners.{owners_in, places_in};

    ghost Value = { ToldProgram };

    ghost view = { λ program. record {
      rows = program.parts.value.nodes;
      top = program.parts.value.top.items;
      functions = map told_function program.parts.value.functions.items;
      variables = program.parts.value.variables.items;
    } };

    ghost invariant = { λ program.
        (program.parts.value.places.functions.items ≡ owners_in program.parts.value.nodes
        (map told_function program.parts.value.functions.items))
        × (program.parts.value.places.locals.items ≡ places_in program.parts.value.nodes
        (map told_function program.parts.value.functions.items)) };
}

impl Program {
    // A program of its parts.
    pub(crate) fn of(
        nodes: Nodes,
        top: Vec<u32>,
        functions: Vec<FunctionDecl>,
        variables: Vec<Text>,
    ) -> Result<Program, NoMemory>
        ensures rows { IfOk result (λ program. program.rows ≡ nodes) }
        ensures top { IfOk result (λ program. program.top ≡ top.items) }
        ensures functions { IfOk result (λ program.
            program.functions ≡ map told_function functions.items) }
        ensures variables { IfOk result (λ program. program.variables ≡ variables.items) }
    {
        let alloc = nodes.alloc();
        let places = node_places(alloc, &nodes, functions.as_slice())?;
        let parts = Rc::new(
            alloc,
            ProgramParts {
                nodes,
                top,
                functions,
                variables,
                places,
            },
        )?;
        Ok(Program { parts })
    }

    /// The same program again. Both share its parts, so this copies nothing and takes no memory.
    pub fn copy(&self) -> Result<Program, NoMemory>
        ensures { IfOk result (λ program. program ≡ self.now) }
    {
        let parts = self.parts.clone()?;
        Ok(Program { parts })
    }

    /// The node of a number, and None past the last one.
    pub fn node(&self, number: u32) -> Option<&Node>
        ensures { option_map (λ node. node.now) result
            ≡ option_map (λ row. row.node) (slice_get self.now.rows number) }
    {
        self.parts.nodes.node(number)
    }

    /// The number of a node's child, and None past the last child and the last node.
    pub fn child(&self, number: u32, place: u32) -> Option<u32>
        ensures { result ≡ option_and_then (λ row. slice_get row.children place)
            (slice_get self.now.rows number) }
    {
        let children = self.parts.nodes.children(number)?;
        children.get(place as usize).copied()
    }

    /// The numbers of a node's children, in the order of the text, and None past the last node.
    pub fn children(&self, number: u32) -> Option<&[u32]>
        ensures { option_map (λ children. children.now) result
            ≡ option_map (λ row. row.children) (slice_get self.now.rows number) }
    {
        self.parts.nodes.children(number)
    }

    /// The numbers of its statements' nodes, in the order of the text and without those of
    /// functions.
    pub fn statements(&self) -> &[u32]
        ensures { result.now ≡ self.now.top }
    {
        self.parts.top.as_slice()
    }

    /// The number of a statement's node, in the order of the text and without those of functions,
    /// and None past the last one.
    pub fn top(&self, place: u32) -> Option<u32>
        ensures { result ≡ slice_get self.now.top place }
    {
        self.parts.top.get(place as usize).copied()
    }

    /// Its functions, in the order of the text.
    pub fn functions(&self) -> &[FunctionDecl]
        ensures { map told_function result.now ≡ self.now.functions }
    {
        self.parts.functions.as_slice()
    }

    /// A function, in the order of the text, and None past the last one.
    pub fn function(&self, place: u32) -> Option<&FunctionDecl>
        ensures { option_map (λ function. told_function function.now) result
            ≡ slice_get self.now.functions place }
    {
        self.parts.functions.get(place as usize)
    }

    /// The names of the `var`s that stand in no function, each once, in the order of the text.
    pub fn variables(&self) -> &[Text]
        ensures { result.now ≡ self.now.variables }
    {
        self.parts.variables.as_slice()
    }

    /// The name of a `var` that stands in no function, each once, in the order of the text, and None
    /// past the last one.
    pub fn variable(&self, place: u32) -> Option<&Text>
        ensures { option_map (λ name. name.now) result ≡ slice_get self.now.variables place }
    {
        self.parts.variables.get(place as usize)
    }

    /// The name of a Name or a Declarator, and None of every other node and past the last one.
    pub fn name(&self, number: u32) -> Option<&Text>
        ensures { option_map (λ name. name.now) result ≡ name_told self.now.rows number }
    {
        name_at(&self.parts.nodes, number)
    }

    /// The function that a node stands in, by its place among the functions. It is None of a node
    /// that stands in none, and past the last one.
    pub fn function_of(&self, number: u32) -> Option<u32>
        ensures { (function : ℕ)
            → (result ≡ Some function) ↔ StandsIn self.now number function }
    {
        owner_at(self.parts.places.functions.as_slice(), number)
    }

    /// The place of a Name or a Declarator in a function among that one's locals. It is None where
    /// it is none of them, and of every other node. It was worked out when the program was read.
    pub fn local(&self, number: u32) -> Option<u32>
        ensures { (place : ℕ) → (result ≡ Some place) ↔ IsLocalAt self.now number place }
    {
        owner_at(self.parts.places.locals.as_slice(), number)
    }
}

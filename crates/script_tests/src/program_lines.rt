//! Programs as lines: their trees and functions, or the names of their `var`s outside of functions,
//! or where they go wrong.

use crate::lines::Line;
use bml_bytes::{NoMemory, Text};
use es_expressions::{Form, Symbol};
use es_reader::{FunctionDecl, Program, SyntaxFault, read_program};
use std::alloc::Global;

// More than a line here has of steps through a tree.
const MOST: u32 = 1_000;

/// What is printed of a program: its nodes, its nodes with their places, those of a copy with the
/// functions that they stand in, or the names of its `var`s outside of functions.
#[derive(Clone, Copy)]
pub enum Detail {
    Forms,
    Places,
    Locals,
    Variables,
}

// A node on the way through a tree, and the place of its child that comes next.
#[derive(Clone, Copy)]
struct OpenNode {
    number: u32,
    next: u32,
}

fn word_of(form: Form) -> &'static [u8] {
    match form {
        Form::This => b"this",
        Form::Name => b"n",
        Form::Null => b"null",
        Form::True => b"true",
        Form::False => b"false",
        Form::Number => b"number",
        Form::Text => b"text",
        Form::Index => b"i",
        Form::Member => b"m",
        Form::Call => b"c",
        Form::New => b"new",
        Form::Postfix => b"s",
        Form::Prefix => b"p",
        Form::Binary => b"b",
        Form::Choice => b"q",
        Form::Assignment => b"a",
        Form::Comma => b"k",
        Form::Block => b"block",
        Form::Var => b"var",
        Form::Declarator => b"d",
        Form::Empty => b"e",
        Form::Expression => b"x",
        Form::If => b"if",
        Form::While => b"while",
        Form::For => b"for",
        Form::ForIn => b"in",
        Form::Continue => b"continue",
        Form::Break => b"break",
        Form::Return => b"return",
    }
}

// A word for the form, `:` and the name where there is one, and `@` and the places if wanted, or
// what is told of a local.
fn push_node(program: &Program, number: u32, detail: Detail, out: &mut Line) {
    let Some(node) = program.node(number) else {
        return;
    };
    out.word(word_of(node.form));
    if let Some(Symbol::Name(name)) = &node.symbol {
        out.byte(b':');
        out.text(name);
    }
    match detail {
        Detail::Places => {
            out.byte(b'@');
            out.count(node.start as u64);
            out.byte(b'-');
            out.count(node.end as u64);
        }
        Detail::Locals => push_local(program, number, out),
        Detail::Forms | Detail::Variables => {}
    }
}

// `=` and the function that a node stands in, and `.` and the place of its name among the locals.
fn push_local(program: &Program, number: u32, out: &mut Line) {
    let Some(function) = program.function_of(number) else {
        return;
    };
    out.byte(b'=');
    out.count(u64::from(function));
    if let Some(place) = program.local(number) {
        out.byte(b'.');
        out.count(u64::from(place));
    }
}

// A node, and its children in parentheses.
fn push_tree(
    program: &Program,
    number: u32,
    detail: Detail,
    open: &mut Vec<OpenNode>,
    out: &mut Line,
) -> Result<(), NoMemory> {
    push_node(program, number, detail, out);
    open.push(OpenNode { number, next: 0 })?;
    for _ in 0..MOST {
        let Some(last) = open.pop() else {
            break;
        };
        push_next(program, last, detail, open, out)?;
    }
    Ok(())
}

// The next child of an open node, or its end.
fn push_next(
    program: &Program,
    last: OpenNode,
    detail: Detail,
    open: &mut Vec<OpenNode>,
    out: &mut Line,
) -> Result<(), NoMemory> {
    let OpenNode { number, next } = last;
    let Some(child) = program.child(number, next) else {
        if 0 < next {
            out.byte(b')');
        }
        return Ok(());
    };
    out.byte(if next == 0 { b'(' } else { b' ' });
    push_node(program, child, detail, out);
    open.push(OpenNode {
        number,
        next: next.saturating_add(1),
    })?;
    open.push(OpenNode {
        number: child,
        next: 0,
    })?;
    Ok(())
}

fn push_statements(
    program: &Program,
    numbers: &[u32],
    detail: Detail,
    open: &mut Vec<OpenNode>,
    out: &mut Line,
) -> Result<(), NoMemory> {
    for (place, number) in numbers.iter().enumerate() {
        if 0 < place {
            out.byte(b' ');
        }
        push_tree(program, *number, detail, open, out)?;
    }
    Ok(())
}

// The name, how many parameters there are, all locals, and the statements: `f/1(a b){return(n:b)}`.
fn push_function(
    program: &Program,
    function: &FunctionDecl,
    detail: Detail,
    open: &mut Vec<OpenNode>,
    out: &mut Line,
) -> Result<(), NoMemory> {
    if !out.told().is_empty() {
        out.byte(b' ');
    }
    out.text(&function.name);
    out.byte(b'/');
    out.count(u64::from(function.parameters));
    out.byte(b'(');
    push_names(&function.locals, out);
    out.word(b"){");
    push_statements(program, &function.body, detail, open, out)?;
    out.byte(b'}');
    Ok(())
}

// Names with blanks between them.
fn push_names(names: &[Text], out: &mut Line) {
    for (place, name) in names.iter().enumerate() {
        if 0 < place {
            out.byte(b' ');
        }
        out.text(name);
    }
}

// The statements, and then the functions.
fn push_program(
    program: &Program,
    detail: Detail,
    open: &mut Vec<OpenNode>,
    out: &mut Line,
) -> Result<(), NoMemory> {
    push_statements(program, program.statements(), detail, open, out)?;
    for function in program.functions() {
        push_function(program, function, detail, open, out)?;
    }
    Ok(())
}

// A program: the names of its `var`s outside of functions, or its nodes.
fn push_whole(
    alloc: Global,
    program: &Program,
    detail: Detail,
    out: &mut Line,
) -> Result<(), NoMemory> {
    match detail {
        Detail::Variables => {
            push_names(program.variables(), out);
            Ok(())
        }
        Detail::Forms | Detail::Places | Detail::Locals => {
            let copied = program.copy()?;
            let mut open = Vec::new(alloc);
            push_program(&copied, detail, &mut open, out)
        }
    }
}

/// Appends the program of a text, `deep`, or `bad` and the place.
pub fn push_told(
    alloc: Global,
    bytes: &[u8],
    detail: Detail,
    out: &mut Line,
) -> Result<(), NoMemory> {
    let text = Text::of_bytes(alloc, bytes)?;
    match read_program(alloc, &text) {
        Ok(program) => push_whole(alloc, &program, detail, out),
        Err(fault) => push_fault(fault, out),
    }
}

/// Appends why a text is no program of at most 64 levels: `deep`, or `bad` and the place.
pub fn push_fault(fault: SyntaxFault, out: &mut Line) -> Result<(), NoMemory> {
    match fault {
        SyntaxFault::Bad { place } => {
            out.word(b"bad ");
            out.count(place as u64);
            Ok(())
        }
        SyntaxFault::TooDeep => {
            out.word(b"deep");
            Ok(())
        }
        SyntaxFault::NoMemory => Err(NoMemory),
    }
}

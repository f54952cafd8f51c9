//! Open forms, whose statements are still to come.

ghost use Rattle.std.specs.Prelude.{◌≡◌, [], ◌∷◌, ◌↔◌, IsTrue, MatchOption, OnOk};
ghost use Rattle.es_reader.specs.Standing.{in_loop_of};

use bml_bytes::NoMemory;
use es_expressions::Form;
use std::alloc::Global;
use std::marker::Model;

/// An open form: its node's form and first code, its children so far, how deep these are nested,
/// and whether what it holds stands in a loop.
#[derive(Drop)]
pub struct OpenForm {
    pub kind: OpenKind,
    pub form: Form,
    pub start: usize,
    pub children: Vec<u32>,
    pub height: u8,
    pub in_loop: bool,
}

/// A block; a head whose statement is to come; an `if` with its `else`, whose second statement is
/// to come and which has the height that the `if` has without it.
#[derive(Clone, Copy, PartialEq, Eq)]
pub enum OpenKind {
    Block,
    Head,
    Else,
}

/// The open forms. Contracts see them from the innermost on.
#[derive(Drop)]
pub struct OpenForms {
    items: Vec<OpenForm>,
}

impl Model for OpenForms {
    ghost use Rattle.std.specs.Prelude.{List, reverse};
    ghost use Rattle.es_reader.specs.declared.openings.OpenForm.{OpenForm};

    ghost Value = { List OpenForm };

    ghost view = { λ forms. reverse forms.items.items };
}

impl OpenForms {
    pub fn new(alloc: Global) -> OpenForms
        ensures { result ≡ [] }
    {
        OpenForms {
            items: Vec::new(alloc),
        }
    }

    pub fn push(&mut self, form: OpenForm) -> Result<(), NoMemory>
        ensures { OnOk result (self.new ≡ form ∷ self.old) }
    {
        self.items.push(form)?;
        Ok(())
    }

    pub fn pop(&mut self) -> Option<OpenForm>
        ensures { MatchOption result ((self.old ≡ []) × (self.new ≡ []))
            (λ form. self.old ≡ form ∷ self.new) }
    {
        self.items.pop()
    }

    pub fn is_empty(&self) -> bool
        ensures { IsTrue result ↔ (self.now ≡ []) }
    {
        self.items.is_empty()
    }

    /// Whether what comes next stands in a loop.
    pub fn in_loop(&self) -> bool
        ensures { result ≡ in_loop_of self.now }
    {
        match self.items.last() {
            Some(form) => form.in_loop,
            None => false,
        }
    }
}

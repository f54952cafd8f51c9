//! The forms that are open while an expression is read.

ghost use Rattle.std.specs.Prelude.{◌≡◌, ◌∷◌, [], false, true, nat_lt, nat_le, MatchOption, OnOk};
ghost use Rattle.std.specs.Prelude.{IsTrue, ◌↔◌};
ghost use Rattle.es_expressions.specs.Standings.{frame_hole, frame_edge, innermost_hole};
ghost use Rattle.es_expressions.specs.Standings.{innermost_edge, is_closing as spec_is_closing};
ghost use Rattle.es_expressions.specs.Standings.{is_key as spec_is_key};
ghost use Rattle.es_expressions.specs.Standings.{is_empty_call as spec_is_empty_call};

use crate::lexemes::Symbol;
use crate::operands::{Operand, Single};
use bml_bytes::NoMemory;
use std::alloc::Global;
use std::marker::Model;

/// A form whose last operand is still to come, or goes on, with what is kept of what came before.
#[derive(Drop)]
pub enum Frame {
    /// `(`, from this place on.
    Group(usize),
    /// `b[`
    Key(Single),
    /// `f(`
    Call(Single),
    /// `new`, from this place on.
    New(usize),
    /// `new f(`
    NewCall(usize, Single),
    /// An operator in front.
    Signed(usize, Symbol),
    /// `++` or `--` in front.
    Stepped(usize, Symbol),
    /// `a +`, with the operator's strength.
    Binary(Single, Symbol, u8),
    /// `a ?`
    Chosen(Single),
    /// `a ? b :`
    Other(Single, Single),
    /// `a =`
    Assign(Single, Symbol),
    /// `a ,`
    Comma(Operand),
}

impl Frame {
    /// Whether the operand to come may be of this level.
    pub fn is_within(&self, level: u8) -> bool
        ensures { result ≡ nat_le (frame_hole self.now) level }
    {
        match self {
            Frame::Group(_) | Frame::Key(_) | Frame::Call(_) | Frame::NewCall(_, _) => 1 <= level,
            Frame::Chosen(_) | Frame::Other(_, _) | Frame::Assign(_, _) | Frame::Comma(_) => {
                2 <= level
            }
            Frame::Binary(_, _, strength) => *strength < level,
            Frame::Signed(_, _) => 14 <= level,
            Frame::Stepped(_, _) => 16 <= level,
            Frame::New(_) => 17 <= level,
        }
    }

    /// Whether a `)` may end it.
    pub fn is_closing(&self) -> bool
        ensures { result ≡ spec_is_closing self.now }
    {
        matches!(
            self,
            Frame::Group(_) | Frame::Call(_) | Frame::NewCall(_, _)
        )
    }

    /// Whether a `)` may end it with no argument.
    pub fn is_empty_call(&self) -> bool
        ensures { result ≡ spec_is_empty_call self.now }
    {
        matches!(self, Frame::Call(_) | Frame::NewCall(_, _))
    }

    /// Whether it is `b[`.
    pub fn is_key(&self) -> bool
        ensures { result ≡ spec_is_key self.now }
    {
        matches!(self, Frame::Key(_))
    }

    /// Whether the form ends in front of a token that reaches so far.
    pub fn ends_before(&self, reach: u8) -> bool
        ensures { result ≡ nat_lt reach (frame_edge self.now) }
    {
        match self {
            Frame::Group(_) | Frame::Key(_) | Frame::Call(_) | Frame::NewCall(_, _) => false,
            Frame::Chosen(_) => false,
            Frame::Other(_, _) | Frame::Assign(_, _) | Frame::Comma(_) => reach < 2,
            Frame::Binary(_, _, strength) => reach <= *strength,
            Frame::Signed(_, _) => reach < 14,
            Frame::Stepped(_, _) => reach < 16,
            Frame::New(_) => reach < 17,
        }
    }
}

/// The open forms. Contracts see them from the innermost on.
#[derive(Drop)]
pub struct Frames {
    items: Vec<Frame>,
}

impl Model for Frames {
    ghost use Rattle.std.specs.Prelude.{List, reverse};
    ghost use Rattle.es_expressions.specs.declared.frames.Frame.{Frame};

    ghost Value = { List Frame };

    ghost view = { λ frames. reverse frames.items.items };
}

impl Frames {
    pub fn new(alloc: Global) -> Frames
        ensures { result ≡ [] }
    {
        Frames {
            items: Vec::new(alloc),
        }
    }

    pub fn push(&mut self, frame: Frame) -> Result<(), NoMemory>
        ensures { OnOk result (self.new ≡ frame ∷ self.old) }
    {
        self.items.push(frame)?;
        Ok(())
    }

    pub fn pop(&mut self) -> Option<Frame>
        ensures { MatchOption result ((self.old ≡ []) × (self.new ≡ []))
            (λ frame. self.old ≡ frame ∷ self.new) }
    {
        self.items.pop()
    }

    /// The innermost form, where it ends in front of a token that reaches so far.
    pub fn pop_before(&mut self, reach: u8) -> Option<Frame>
        ensures { MatchOption result
            ((self.new ≡ self.old) × (nat_lt reach (innermost_edge self.old) ≡ false))
            (λ frame. (self.old ≡ frame ∷ self.new) × (nat_lt reach (frame_edge frame) ≡ true)) }
    {
        match self.items.last() {
            Some(frame) if frame.ends_before(reach) => self.items.pop(),
            _ => None,
        }
    }

    /// Whether an operand of this level may stand there, where the whole is of the level `base` at
    /// least.
    pub fn is_within(&self, base: u8, level: u8) -> bool
        ensures { result ≡ nat_le (innermost_hole base self.now) level }
    {
        match self.items.last() {
            Some(frame) => frame.is_within(level),
            None => base <= level,
        }
    }

    pub fn is_empty(&self) -> bool
        ensures { IsTrue result ↔ (self.now ≡ []) }
    {
        self.items.is_empty()
    }
}

//! What is still to be done of a script: the items of a control stack, and what comes next.

use crate::outcomes::Outcome;
use bml_bytes::Text;
use es_shapes::{Code, Listing, Operator, Sign, VisitorShape};
use es_values::{HostRef, Value};

/// What an expression gives, or how a statement is completed (ECMA-262 second edition, 8.9).
#[derive(Drop)]
pub enum Given {
    Value(Value),
    Normal,
    Broke,
    Continued,
    Returned(Value),
}

/// What comes next: a node is entered, with its step; something is given to the item that was put
/// last; the host is asked for a member, to write one or to call one; a call is made, with all its
/// arguments; or the script is over.
#[derive(Drop)]
pub enum Now {
    Evaluate(Code),
    Execute(Code),
    Gives(Given),
    Reads(HostRef, Text),
    Writes(HostRef, Text, Value),
    Calls(HostRef, Text, Vec<Value>),
    Applies(Callee, Vec<Value>),
    Over(Outcome),
}

/// An item: what is done with what is given.
#[derive(Drop)]
pub enum Work {
    Operand(OperandWork),
    Member(MemberWork),
    Call(CallWork),
    Target(TargetWork),
    Statement(StatementWork),
}

/// What is done with the value of an operand.
#[derive(Drop)]
pub enum OperandWork {
    /// The left one of an operator, with the right one.
    Left(Operator, Code),
    /// The right one, behind the left one's value.
    Right(Operator, Value),
    And(Code),
    Or(Code),
    Choice(Code, Code),
    /// A part of a list with commas, with the place of the next.
    Comma(Code, usize),
    Sign(Sign),
    Typeof,
    Void,
    /// This value is given in its place.
    Instead(Value),
}

/// What is done with the base or key of a member that is read or deleted.
#[derive(Drop)]
pub enum MemberWork {
    /// A base, with the key that is to come.
    IndexBase(Code),
    /// A key, behind its base.
    IndexKey(Value),
    MemberBase(Text),
    DeleteIndexBase(Code),
    DeleteIndexKey(Value),
    DeleteMember(Text),
    /// The operand of a `delete` is no member.
    DeleteOther,
}

/// What is done with a part of a call. The call's code is that of its node, whose parts behind the
/// first are the arguments.
#[derive(Drop)]
pub enum CallWork {
    /// A base, with the key and the call.
    IndexBase(Code, Code),
    IndexKey(Value, Code),
    MemberBase(Text, Code),
    Callee(Code),
    Constructor(Code),
    Argument(OpenCall),
    /// What a function gives that made this object by `new`.
    Constructed(Value),
}

/// What is called.
#[derive(Drop)]
pub enum Callee {
    Value(Value),
    Constructor(Value),
    Member(Value, Text),
}

/// A call, with the arguments that are there and the place of the part that is next.
#[derive(Drop)]
pub struct OpenCall {
    pub callee: Callee,
    pub given: Vec<Value>,
    pub call: Code,
    pub next: usize,
}

/// What a target names: the name of a node, or the member of a value.
#[derive(Drop)]
pub enum Place {
    Name(Text, Code),
    Member(Value, Text),
}

/// What is done with a target, once what it names is there.
#[derive(Drop)]
pub enum Use {
    Assign(Code),
    Update(Operator, Code),
    /// Whether the operator stands in front, and whether it is `--`.
    Step(bool, bool),
    /// The name that is visited, and those behind it.
    Visit(Text, Visit),
}

/// The names of an object that a `for .. in` still visits.
#[derive(Drop)]
pub struct Visit {
    pub visitor: VisitorShape,
    pub object: u64,
    pub names: Vec<Text>,
    pub next: usize,
    pub body: Code,
}

/// What is done with a part of a target, or with what is written to one.
#[derive(Drop)]
pub enum TargetWork {
    IndexBase(Code, Use),
    IndexKey(Value, Use),
    MemberBase(Text, Use),
    Write(Place),
    /// The value before an operator with assignment.
    UpdateRead(Operator, Place, Code),
    /// Its right side, behind that.
    UpdateRight(Operator, Place, Value),
    /// The value before `++` or `--`.
    StepRead(bool, bool, Place),
    /// The name that is visited was written.
    Visited(Visit),
}

/// A `while` or `for`: its test, what comes behind each turn, and its body.
#[derive(Clone, Copy)]
pub struct Loop {
    pub test: Option<Code>,
    pub update: Option<Code>,
    pub body: Code,
}

/// What is done with a part of a statement.
#[derive(Drop)]
pub enum StatementWork {
    /// The statements of a row, from a place on.
    Statements(Listing, usize),
    /// The value of an expression statement.
    Discard,
    /// The value of a declarator, with the `var` and the place of the next.
    Declared(Text, Code, usize),
    If(Code),
    IfElse(Code, Code),
    Test(Loop),
    Body(Loop),
    NextTurn(Loop),
    /// The object of a `for .. in`.
    Object(VisitorShape, Code),
    /// The body of one.
    Visiting(Visit),
    Return,
}

/// Lets something go.
pub fn discard<T: Drop>(_item: T) {}

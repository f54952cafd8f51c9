//! Programs among tokens.

ghost use Rattle.std.specs.Prelude.{◌≡◌, ◌≤◌, ◌<◌, ◌↔◌, [], ◌∷◌, ℕ, List, true, IsTrue, length, IfOk, IfErr, OnOk};
ghost use Rattle.es_lexer.specs.declared.words.ReservedWord.TheVariants.{Else as ElseWord, For as ForWord, Function as FunctionWord};
ghost use Rattle.es_lexer.specs.declared.punctuators.Punctuator.TheVariants.{OpenBrace, CloseBrace};
ghost use Rattle.es_expressions.specs.declared.lexemes.Lexeme.{Lexeme};
ghost use Rattle.es_expressions.specs.declared.nodes.Form.TheVariants.{If as IfForm};
ghost use Rattle.es_reader.specs.Statements.{Item};
ghost use Rattle.es_reader.specs.Grammar.{IsMark, IsWord, IsProgram};
ghost use Rattle.es_reader.specs.Levels.{program_levels};
ghost use Rattle.es_reader.specs.Programs.{IsBadAt, ToldProgram, Tells};
ghost use Rattle.es_reader.specs.ExpressionFacts.{ExpressionFacts};
ghost use Rattle.es_reader.specs.Parts.{IfBad, IsThere};
ghost use Rattle.es_reader.specs.Heads.{IsTestWord};
ghost use Rattle.es_reader.specs.Standing.{IsAlone, ReadsTo, GoesTo, Holds, JoinsAs, IsKept, OpensHead, EndsForm, Puts, IsOutcome, in_loop_of};
ghost use Rattle.es_reader.specs.declared.reader.Reading.TheVariants.{Whole, TooDeep, Bad as BadAt};

use crate::faults::PartFault;
use crate::function_fronts::read_front;
use crate::heads::{HeadRead, read_for, read_test};
use crate::heights::{deeper, higher};
use crate::marks::is_word_at;
use crate::names::Names;
use crate::openings::{OpenForm, OpenForms, OpenKind};
use crate::programs::{FunctionDecl, Program};
use crate::simples::{Stated, read_simple};
use bml_bytes::{NoMemory, Text};
use es_expressions::{Form, Lexeme, Node, Nodes, Symbol, law_of_ends, law_of_expressions};
use es_lexer::{Punctuator, ReservedWord};
use std::alloc::Global;
use std::mem;

/// What tokens are: a program; one that is nested too deep; or Bad, with the place of the token
/// with which no program goes on, or behind the last one.
#[derive(Drop)]
pub enum Reading {
    Whole(Program),
    TooDeep,
    Bad(usize),
}

// The function that is open: its name, how many parameters it has, its statements so far, and the
// names that were declared in front of it, outside of functions.
#[derive(Drop)]
pub struct OpenFunction {
    pub name: Text,
    pub parameters: u32,
    pub body: Vec<u32>,
    pub outer: Names,
}

// What became of a form with a whole statement: it stays open, and the token behind is at this
// place; or it ended, and is a whole statement.
#[derive(Clone, Copy)]
pub enum Joined {
    Open(usize),
    Ended(Stated),
}

// What is read so far: the open forms and the function round them, the names that were declared in
// it or, where none is open, outside of functions, the statements and functions of the program, and
// how deep all statements outside of open forms are nested.
#[derive(Drop)]
pub struct Reader {
    pub nodes: Nodes,
    pub forms: OpenForms,
    pub function: Option<OpenFunction>,
    pub names: Names,
    pub top: Vec<u32>,
    pub functions: Vec<FunctionDecl>,
    pub height: u8,
}

/// Reads tokens as a program. No token is looked at twice but for the one behind a statement, and
/// no function calls itself.
pub fn read_tokens(alloc: Global, tokens: &[Lexeme]) -> Result<Reading, NoMemory>
    ensures whole { IfOk result (λ outcome. (program : ToldProgram) → outcome ≡ Whole program
        → (items : List Item) × IsProgram tokens.now items
        × (program_levels items ≤ 64) × Tells items program) }
    ensures too_deep { IfOk result (λ outcome. outcome ≡ TooDeep
        → (items : List Item) × IsProgram tokens.now items
        × (65 ≤ program_levels items)) }
    ensures bad { IfOk result (λ outcome. (place : ℕ) → outcome ≡ BadAt place
        → IsBadAt tokens.now place) }
{
    law_of_expressions();
    law_of_ends();
    let mut reader = Reader::new(alloc);
    match reader.read_all(tokens) {
        Ok(()) => reader.finish(),
        Err(PartFault::Bad(place)) => Ok(Reading::Bad(place)),
        Err(PartFault::NoMemory) => Err(NoMemory),
    }
}

impl Reader {
    fn new(alloc: Global) -> Reader
        ensures { (tokens : List Lexeme) → ReadsTo tokens 0 result }
    {
        Reader {
            nodes: Nodes::new(alloc),
            forms: OpenForms::new(alloc),
            function: None,
            names: Names::new(alloc),
            top: Vec::new(alloc),
            functions: Vec::new(alloc),
            height: 0,
        }
    }

    // Reads all tokens, up to the end of the program.
    fn read_all(&mut self, tokens: &[Lexeme]) -> Result<(), PartFault>
        requires { ReadsTo tokens.now 0 self.old }
        ensures kept { OnOk result (IsKept tokens.now self.new) }
        ensures bad { IfErr result (λ fault. IfBad fault
            (λ bad. ExpressionFacts → IsBadAt tokens.now bad)) }
    {
        let mut place = 0;
        'statements: while place < tokens.len() {
            place = self.step(tokens, place)?;
        }
        if !self.forms.is_empty() {
            return Err(PartFault::Bad(place));
        }
        if self.function.is_some() {
            return Err(PartFault::Bad(place));
        }
        Ok(())
    }

    // Reads what stands at the place: a statement, the beginning of one that holds others, or the
    // end of a block or function. Gives the place of the token behind it.
    fn step(&mut self, tokens: &[Lexeme], place: usize) -> Result<usize, PartFault>
        requires reads { ReadsTo tokens.now place self.old }
        requires there { place < length tokens.now }
        ensures goes { IfOk result (λ next. GoesTo tokens.now place next self.new) }
        ensures bad { IfErr result (λ fault. IfBad fault
            (λ bad. ExpressionFacts → IsBadAt tokens.now bad)) }
    {
        match &tokens[place].symbol {
            Symbol::Mark(Punctuator::OpenBrace) => self.open_block(tokens, place),
            Symbol::Mark(Punctuator::CloseBrace) => self.close(tokens, place),
            Symbol::Word(ReservedWord::If) => self.open_test(tokens, place, Form::If),
            Symbol::Word(ReservedWord::While) => self.open_test(tokens, place, Form::While),
            Symbol::Word(ReservedWord::For) => self.open_for(tokens, place),
            Symbol::Word(ReservedWord::Function) => self.open_function(tokens, place),
            _ => self.read_alone(tokens, place),
        }
    }

    // A statement that holds no other.
    fn read_alone(&mut self, tokens: &[Lexeme], place: usize) -> Result<usize, PartFault>
        requires reads { ReadsTo tokens.now place self.old }
        requires alone { IsThere IsAlone tokens.now place }
        ensures goes { IfOk result (λ next. GoesTo tokens.now place next self.new) }
        ensures bad { IfErr result (λ fault. IfBad fault
            (λ bad. ExpressionFacts → IsBadAt tokens.now bad)) }
    {
        let in_loop = self.forms.in_loop();
        let in_function = self.function.is_some();
        let (nodes, names) = (&mut self.nodes, &mut self.names);
        let stated = read_simple(tokens, place, in_loop, in_function, nodes, names)?;
        self.attach(tokens, stated)
    }

    // A `{`.
    fn open_block(&mut self, tokens: &[Lexeme], place: usize) -> Result<usize, PartFault>
        requires reads { ReadsTo tokens.now place self.old }
        requires there { IsThere (IsMark OpenBrace) tokens.now place }
        ensures goes { IfOk result (λ next. GoesTo tokens.now place next self.new) }
        ensures never { IfErr result (λ fault. IfBad fault (λ _. ⊥)) }
    {
        let in_loop = self.forms.in_loop();
        self.forms.push(OpenForm {
            kind: OpenKind::Block,
            form: Form::Block,
            start: tokens[place].start,
            children: Vec::new(self.nodes.alloc()),
            height: 0,
            in_loop,
        })?;
        Ok(place + 1)
    }

    // An `if (..)` or `while (..)`.
    fn open_test(&mut self, tokens: &[Lexeme], place: usize, form: Form) -> Result<usize, PartFault>
        requires reads { ReadsTo tokens.now place self.old }
        requires there { IsThere (IsTestWord form) tokens.now place }
        ensures goes { IfOk result (λ next. GoesTo tokens.now place next self.new) }
        ensures bad { IfErr result (λ fault. IfBad fault
            (λ bad. ExpressionFacts → IsBadAt tokens.now bad)) }
    {
        let head = read_test(tokens, place, form, &mut self.nodes)?;
        let behind = head.behind;
        self.open_head(head)?;
        Ok(behind)
    }

    // A `for (..)`.
    fn open_for(&mut self, tokens: &[Lexeme], place: usize) -> Result<usize, PartFault>
        requires reads { ReadsTo tokens.now place self.old }
        requires there { IsThere (IsWord ForWord) tokens.now place }
        ensures goes { IfOk result (λ next. GoesTo tokens.now place next self.new) }
        ensures bad { IfErr result (λ fault. IfBad fault
            (λ bad. ExpressionFacts → IsBadAt tokens.now bad)) }
    {
        let head = read_for(tokens, place, &mut self.nodes, &mut self.names)?;
        let behind = head.behind;
        self.open_head(head)?;
        Ok(behind)
    }

    // A head, whose statement is to come.
    fn open_head(&mut self, head: HeadRead) -> Result<(), NoMemory>
        ensures { OnOk result (OpensHead head self.old self.new) }
    {
        let in_loop = self.is_in_loop_behind(head.form);
        self.forms.push(OpenForm {
            kind: OpenKind::Head,
            form: head.form,
            start: head.start,
            children: head.children,
            height: head.height,
            in_loop,
        })
    }

    // Whether what stands behind a head of this form stands in a loop.
    fn is_in_loop_behind(&self, form: Form) -> bool
        ensures in_if { form ≡ IfForm → result ≡ in_loop_of self.now.forms }
        ensures in_loop { (form ≡ IfForm → ⊥) → result ≡ true }
    {
        match form {
            Form::If => self.forms.in_loop(),
            _ => true,
        }
    }

    // A function begins, which stands in the program alone.
    fn open_function(&mut self, tokens: &[Lexeme], place: usize) -> Result<usize, PartFault>
        requires reads { ReadsTo tokens.now place self.old }
        requires there { IsThere (IsWord FunctionWord) tokens.now place }
        ensures goes { IfOk result (λ next. GoesTo tokens.now place next self.new) }
        ensures bad { IfErr result (λ fault. IfBad fault
            (λ bad. ExpressionFacts → IsBadAt tokens.now bad)) }
    {
        if self.function.is_some() {
            return Err(PartFault::Bad(place));
        }
        if !self.forms.is_empty() {
            return Err(PartFault::Bad(place));
        }
        let alloc = self.nodes.alloc();
        let front = read_front(alloc, tokens, place)?;
        self.function = Some(OpenFunction {
            name: front.name,
            parameters: front.parameters,
            body: Vec::new(alloc),
            outer: mem::replace(&mut self.names, front.names),
        });
        Ok(front.behind)
    }

    // A `}`, which ends a block or a function.
    fn close(&mut self, tokens: &[Lexeme], place: usize) -> Result<usize, PartFault>
        requires reads { ReadsTo tokens.now place self.old }
        requires there { IsThere (IsMark CloseBrace) tokens.now place }
        ensures goes { IfOk result (λ next. GoesTo tokens.now place next self.new) }
        ensures bad { IfErr result (λ fault. IfBad fault
            (λ bad. ExpressionFacts → IsBadAt tokens.now bad)) }
    {
        match self.forms.pop() {
            Some(mut block) if block.kind == OpenKind::Block => {
                block.height = deeper(block.height);
                let stated = self.end_form(block, tokens[place].end, place + 1)?;
                self.attach(tokens, stated)
            }
            Some(_) => Err(PartFault::Bad(place)),
            None => self.close_function(tokens, place),
        }
    }

    fn close_function(&mut self, tokens: &[Lexeme], place: usize) -> Result<usize, PartFault>
        requires reads { ReadsTo tokens.now place self.old }
        requires there { IsThere (IsMark CloseBrace) tokens.now place }
        requires outside { self.old.forms ≡ [] }
        ensures goes { IfOk result (λ next. GoesTo tokens.now place next self.new) }
        ensures bad { IfErr result (λ fault. IfBad fault
            (λ bad. ExpressionFacts → IsBadAt tokens.now bad)) }
    {
        let Some(function) = self.function.take() else {
            return Err(PartFault::Bad(place));
        };
        let locals = self.names.texts()?;
        self.names = function.outer;
        self.functions.push(FunctionDecl {
            name: function.name,
            locals,
            parameters: function.parameters,
            body: function.body,
        })?;
        Ok(place + 1)
    }

    // A form is whole: pushes its node.
    fn end_form(&mut self, form: OpenForm, end: usize, behind: usize) -> Result<Stated, NoMemory>
        ensures { IfOk result (λ stated. EndsForm form «end» behind self.old self.new stated) }
    {
        let node = Node {
            form: form.form,
            start: form.start,
            end,
            symbol: None,
        };
        let node = self.nodes.push(node, form.children)?;
        Ok(Stated {
            node,
            height: form.height,
            end,
            behind,
        })
    }

    // Puts a whole statement where it belongs: into a block, the function or the program, where the
    // forms that end with it end too. Gives the place of the token behind it, or behind the `else`
    // that goes on with it.
    fn attach(&mut self, tokens: &[Lexeme], stated: Stated) -> Result<usize, PartFault>
        requires { Holds tokens.now stated self.old }
        ensures reads { IfOk result (λ next. ReadsTo tokens.now next self.new) }
        ensures from { IfOk result (λ next. stated.behind ≤ next) }
        ensures never { IfErr result (λ fault. IfBad fault (λ _. ⊥)) }
    {
        let mut stated = stated;
        'forms: while let Some(form) = self.forms.pop() {
            match self.join(tokens, form, stated)? {
                Joined::Open(next) => return Ok(next),
                Joined::Ended(whole) => stated = whole,
            }
        }
        self.put(stated.node, stated.height)?;
        Ok(stated.behind)
    }

    // Puts a whole statement into the innermost form, which stays open, or ends with it and is a
    // whole statement then.
    fn join(
        &mut self,
        tokens: &[Lexeme],
        form: OpenForm,
        stated: Stated,
    ) -> Result<Joined, NoMemory>
        requires { Holds tokens.now stated (record self.old { forms = form ∷ self.old.forms }) }
        ensures { IfOk result (JoinsAs tokens.now stated self.old self.new) }
    {
        let mut form = form;
        form.children.push(stated.node)?;
        let height = higher(form.height, stated.height);
        match form.kind {
            OpenKind::Block => {
                form.height = height;
                self.forms.push(form)?;
                Ok(Joined::Open(stated.behind))
            }
            OpenKind::Head => {
                form.height = deeper(height);
                if has_else(tokens, form.form, stated.behind) {
                    form.kind = OpenKind::Else;
                    self.forms.push(form)?;
                    return Ok(Joined::Open(stated.behind + 1));
                }
                let whole = self.end_form(form, stated.end, stated.behind)?;
                Ok(Joined::Ended(whole))
            }
            OpenKind::Else => {
                form.height = height;
                let whole = self.end_form(form, stated.end, stated.behind)?;
                Ok(Joined::Ended(whole))
            }
        }
    }

    // Puts a whole statement into the function that is open, or into the program.
    fn put(&mut self, node: u32, height: u8) -> Result<(), NoMemory>
        ensures { OnOk result (Puts node height self.old self.new) }
    {
        self.height = higher(self.height, height);
        match &mut self.function {
            Some(function) => function.body.push(node)?,
            None => self.top.push(node)?,
        }
        Ok(())
    }

    // The program, where it isn't nested too deep.
    fn finish(self) -> Result<Reading, NoMemory>
        ensures { IfOk result (IsOutcome self) }
    {
        if 64 < self.height {
            return Ok(Reading::TooDeep);
        }
        let variables = self.names.texts()?;
        let program = Program::of(self.nodes, self.top, self.functions, variables)?;
        Ok(Reading::Whole(program))
    }
}

// Whether an `else` stands at the place, behind the statement of a head of this form.
fn has_else(tokens: &[Lexeme], form: Form, place: usize) -> bool
    ensures { IsTrue result ↔ ((form ≡ IfForm) × IsThere (IsWord ElseWord) tokens.now place) }
{
    match form {
        Form::If => is_word_at(tokens, place, ReservedWord::Else),
        _ => false,
    }
}

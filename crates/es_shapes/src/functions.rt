//! The programs that scripts are of, with the functions that they declare.

ghost use Rattle.std.specs.Prelude.{◌≡◌, ◌<◌, ◌^◌, ◌++◌, ◌↔◌, length, map, option_map, slice_get, Some, None, IfOk, IfSome, IsTrue, OnErr, OnOk};
ghost use Rattle.std.specs.Option.{option_and_then};
ghost use Rattle.es_reader.specs.Told.{told_function};
ghost use Rattle.es_shapes.specs.Functions.{declared_function};
ghost use Rattle.es_shapes.specs.devices.Parts.{declared_at, places_from, places_in};
ghost use Rattle.es_shapes.specs.Codes.{declared_by};

use bml_bytes::NoMemory;
use es_reader::{FunctionDecl, Program};
use std::alloc::Global;
use std::marker::Model;

/// Where a function is declared: the place of its program, and its own among that one's functions.
#[derive(Clone, Copy)]
pub struct Declared {
    pub program: usize,
    pub function: usize,
}

/// Programs, and where the first of their functions are declared. Contracts see the programs. The
/// functions of a program are looked for once, and only where one behind those that were found is
/// asked for.
#[derive(Drop)]
pub struct Programs<'a> {
    list: &'a [Program],
    found: Vec<Declared>,
    read: usize,
}

impl<'a> Model for Programs<'a> {
    ghost use Rattle.std.specs.Prelude.{List};
    ghost use Rattle.es_reader.specs.Programs.{ToldProgram};
    ghost use Rattle.es_shapes.specs.devices.Parts.{IsFound};

    ghost Value = { List ToldProgram };

    ghost view = { λ programs. programs.list.now };

    ghost invariant = { λ programs. IsFound programs.list.now programs.read
        programs.found.items };
}

/// The number of the first function that a program declares.
pub const FIRST_FUNCTION: u64 = 16;

impl<'a> Programs<'a> {
    /// Programs of which no function was looked for.
    pub fn new(alloc: Global, list: &'a [Program]) -> Programs<'a>
        ensures { result ≡ list.now }
    {
        Programs {
            list,
            found: Vec::new(alloc),
            read: 0,
        }
    }

    /// The programs.
    pub fn list(&self) -> &'a [Program]
        ensures { result.now ≡ self.now }
    {
        self.list
    }

    /// Where the function of a number is declared, and None where no program declares it.
    pub fn function(&mut self, number: u64) -> Result<Option<Declared>, NoMemory>
        ensures same { self.new ≡ self.old }
        ensures found { IfOk result (λ found. declared_function (declared_by self.old) number
            ≡ option_and_then (declared_at self.old) found) }
        ensures there { IfOk result (λ found. IfSome found
            (λ declared. (declared_at self.old declared ≡ None) → ⊥)) }
    {
        match number.checked_sub(FIRST_FUNCTION) {
            Some(place) => self.function_at(place),
            None => Ok(None),
        }
    }

    // Where the function is declared that has so many before it, and None where there is none.
    fn function_at(&mut self, place: u64) -> Result<Option<Declared>, NoMemory>
        ensures same { self.new ≡ self.old }
        ensures found { IfOk result (λ found. found ≡ slice_get (places_from 0 self.old) place) }
    {
        let list = self.list;
        while self.found.len() as u64 <= place && self.read < list.len() {
            find_functions(&mut self.found, self.read, &list[self.read])?;
            self.read += 1;
        }
        Ok(self.found.get(place as usize).copied())
    }
}

// Appends where a program's functions are declared, or nothing.
fn find_functions(
    found: &mut Vec<Declared>,
    place: usize,
    program: &Program,
) -> Result<(), NoMemory>
    ensures ok { OnOk result (found.new.items
        ≡ found.old.items ++ places_in place 0 program.now.functions) }
    ensures err { OnErr result (found.new.items ≡ found.old.items) }
{
    let before = found.len();
    for function in 0..program.functions().len() {
        let declared = Declared {
            program: place,
            function,
        };
        if found.push(declared).is_err() {
            found.truncate(before);
            return Err(NoMemory);
        }
    }
    Ok(())
}

/// The function that is declared at a place.
pub fn declaration(programs: &[Program], declared: Declared) -> Option<&FunctionDecl>
    ensures { option_map (λ function. told_function function.now) result
        ≡ option_and_then (λ told. slice_get told.functions declared.function)
        (slice_get programs.now declared.program) }
{
    programs
        .get(declared.program)?
        .functions()
        .get(declared.function)
}

/// How many functions programs declare.
pub fn function_count(programs: &[Program]) -> u64
    requires { length (declared_by programs.now) < 2 ^ 48 }
    ensures { result ≡ length (declared_by programs.now) }
{
    let mut count = 0;
    for program in programs {
        count += program.functions().len() as u64;
    }
    count
}

/// Whether programs declare fewer than 2^48 functions together, as those that run them ask.
pub fn are_few_functions(programs: &[Program]) -> bool
    ensures { IsTrue result ↔ (length (declared_by programs.now) < 2 ^ 48) }
{
    let mut count = 0;
    for program in programs {
        let more = program.functions().len() as u64;
        if more >= TOO_MANY_FUNCTIONS - count {
            return false;
        }
        count += more;
    }
    true
}

const TOO_MANY_FUNCTIONS: u64 = 1 << 48;

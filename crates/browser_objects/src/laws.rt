//! What the definitions of this crate say together. Each function is a law: its contract is what it is
//! for, and it does nothing when it runs.

ghost use Rattle.std.specs.Prelude.{◌≡◌, ◌<◌, ◌↔◌, ◌⊎◌, ℕ, List, [], ◌∷◌, ◌++◌, Some};
ghost use Rattle.bml_bytes.specs.Numerals.{decimal_digits};
ghost use Rattle.date_objects.specs.Dates.{date_object};
ghost use Rattle.es_date.specs.declared.moments.Moment.{Moment};
ghost use Rattle.es_values.specs.declared.hosts.HostAnswer.TheVariants.{Value as Answer};
ghost use Rattle.es_values.specs.declared.values.Value.{Value};
ghost use Rattle.es_values.specs.Hosts.{IsAnswer, KeepsHeap};
ghost use Rattle.es_values.specs.Objects.{ObjectState};
ghost use Rattle.multipart_entities.specs.declared.paths.Path.{Path};
ghost use Rattle.persistent_arrays.specs.declared.fields.Field.{Field};
ghost use Rattle.browser_objects.specs.ArrayCalls.{with_array_of};
ghost use Rattle.browser_objects.specs.Calls.{BrowserParts, call_of};
ghost use Rattle.browser_objects.specs.Functions.{Calls, named_function};
ghost use Rattle.browser_objects.specs.Registers.{register_of};

use bml_bytes::law_of_same_texts;
use date_objects::law_of_new_dates;
use es_values::{law_of_array_functions, law_of_indices};

/// A text names a function exactly where it is of one of the three forms: the name, a call of it
/// without arguments, or such a call as a statement.
pub fn law_of_function_texts()
    ensures { (name text : List ℕ) → (named_function text ≡ Some name) ↔ Calls name text }
{
    law_of_same_texts();
}

/// The names of registers are exactly the decimal texts of 0 to 63.
pub fn law_of_register_names()
    ensures { (name : List ℕ) (number : ℕ) → (register_of name ≡ Some number)
        ↔ ((number < 64) × (name ≡ decimal_digits number)) }
{
    law_of_indices();
}

/// As hosts of scripts promise: what a call gives is no function, and an object that it gives is
/// one of those behind the call. No object goes, and no function comes into one.
pub fn law_of_call_outcomes()
    ensures answer { (name : List ℕ) (base : Path) (now : ℕ) (arguments : List Value)
        (heap : List ObjectState) (s : BrowserParts)
        → IsAnswer (call_of name base now arguments heap s).heap
        (Answer (call_of name base now arguments heap s).called.value) }
    ensures heap { (name : List ℕ) (base : Path) (now : ℕ) (arguments : List Value)
        (heap : List ObjectState) (s : BrowserParts)
        → KeepsHeap heap arguments (call_of name base now arguments heap s).heap }
{
    law_of_array_functions();
    law_of_new_dates();
}

/// A call makes one object at most: a new array of truths, numbers and texts, or a Date, which stands
/// after all others. All objects that there were stay as they are.
pub fn law_of_new_objects()
    ensures { (name : List ℕ) (base : Path) (now : ℕ) (arguments : List Value)
        (heap : List ObjectState) (s : BrowserParts)
        → ((call_of name base now arguments heap s).heap ≡ heap)
        ⊎ ((values : List Field)
        × ((call_of name base now arguments heap s).heap ≡ with_array_of heap values))
        ⊎ ((moment : Moment) × ((call_of name base now arguments heap s).heap
        ≡ heap ++ date_object (Some moment) ∷ [])) }
{}

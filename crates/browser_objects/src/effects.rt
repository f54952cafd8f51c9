//! What a call has the page do.

ghost use Rattle.std.specs.Prelude.{◌≡◌, ◌<◌};
ghost use Rattle.es_values.specs.declared.numbers.Num.TheVariants.{NotANumber};
ghost use Rattle.es_values.specs.declared.values.Value.TheVariants.{Number};
ghost use Rattle.browser_objects.specs.declared.effects.Effect.TheVariants as the;
ghost use Rattle.browser_objects.specs.Calls.{number as spec_number};

use es_values::{Num, Value};
use multipart_entities::Path;
use persistent_arrays::Structure;

/// What the page has to do for a call: nothing, the line of a sound, that of an array and how many of
/// its bytes were kept, the launch, lock or unlock of what a path names, or to look up what a path
/// names and try to open it as a table of these fields ([`open_table`](crate::open_table)). Where it
/// locks, unlocks or opens, what this answers is the value that the script gets.
#[derive(Drop)]
pub enum Effect {
    Nothing,
    Sound(u32),
    Kept(u8, u8),
    Launch(Path),
    Lock(Path),
    Unlock(Path),
    Table(Path, Structure),
}

// What a call of an unknown name, or with arguments of a wrong form, answers.
pub(crate) fn refusal() -> (Value, Effect)
    ensures value { result.0 ≡ Number NotANumber }
    ensures effect { result.1 ≡ the.Nothing }
{
    (Value::Number(Num::NotANumber), Effect::Nothing)
}

// A number as a value.
pub(crate) fn whole(number: u32) -> Value
    requires { number < 2147483648 }
    ensures { result ≡ spec_number number }
{
    Value::Number(Num::Whole(number as i32))
}

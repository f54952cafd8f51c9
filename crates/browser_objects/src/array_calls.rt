//! Reading and writing persistent arrays.

ghost use Rattle.std.specs.Prelude.{◌≡◌, ◌<◌, ℕ, List, All, IfOk, IfSome, OnErr, OnOk};
ghost use Rattle.std.specs.Option.{option_map_or};
ghost use Rattle.es_values.specs.Heaps.{IsLive};
ghost use Rattle.persistent_arrays.specs.Arrays.{array_count, array_in};
ghost use Rattle.persistent_arrays.specs.Names.{array_named};
ghost use Rattle.persistent_arrays.specs.Packing.{packed_in_array};
ghost use Rattle.persistent_arrays.specs.Reading.{unpacked};
ghost use Rattle.persistent_arrays.specs.Structures.{structure_spelled};
ghost use Rattle.persistent_arrays.specs.declared.kinds.FieldKind.{FieldKind as Kind};
ghost use Rattle.browser_objects.specs.ArrayCalls.{values_of_array};
ghost use Rattle.browser_objects.specs.Calls.{Answers, BrowserParts, CallOutcome, argument};
ghost use Rattle.browser_objects.specs.Calls.{give_array, write_bytes, over, packed_values};
ghost use Rattle.browser_objects.specs.Calls.{read_array, gives_nan};
ghost use Rattle.browser_objects.specs.Calls.{text_argument as spec_text_argument, with_names};
ghost use Rattle.browser_objects.specs.Calls.{write_array};

use crate::arguments::text_argument;
use crate::array_fields::{fields_argument, values_of};
use crate::effects::{Effect, refusal, whole};
use crate::states::BrowserState;
use bml_bytes::{AreaBytes, NoMemory};
use es_values::{Heap, Value};
use persistent_arrays::{Field, Structure, pack, slot_of, unpack};
use std::alloc::Global;

/// `readPersistentArray(name, structure)`: a new array of the values of the fields, and Null where
/// one of them passes the end of the persistent array.
pub fn read_persistent_array(
    alloc: Global,
    state: &BrowserState,
    args: &[Value],
    heap: &mut Heap,
) -> Result<(Value, Effect), NoMemory>
    requires { All (IsLive heap.old) args.now }
    ensures answers { IfOk result (λ answer. Answers
        (read_array args.now heap.old state.now).called answer state.now) }
    ensures objects { OnOk result (heap.new ≡ (read_array args.now heap.old state.now).heap) }
    ensures err { OnErr result (heap.new ≡ heap.old) }
{
    match named(alloc, args, &*heap)? {
        None => Ok(refusal()),
        Some((slot, structure)) => read_fields(alloc, &structure, &state.area, slot, heap),
    }
}

// A new array of the values of the fields.
fn read_fields(
    alloc: Global,
    structure: &Structure,
    area: &AreaBytes,
    slot: u8,
    heap: &mut Heap,
) -> Result<(Value, Effect), NoMemory>
    requires { slot < array_count }
    ensures answers { (s : BrowserParts) → IfOk result (λ answer. Answers (give_array
        (unpacked structure.now (array_in area.now slot)) heap.old s).called answer s) }
    ensures objects { (s : BrowserParts) → OnOk result (heap.new ≡ (give_array
        (unpacked structure.now (array_in area.now slot)) heap.old s).heap) }
    ensures err { OnErr result (heap.new ≡ heap.old) }
{
    match unpack(alloc, structure, area, slot)? {
        None => Ok((Value::Null, Effect::Nothing)),
        Some(fields) => {
            let values = values_of(alloc, fields)?;
            let array = heap.add_array(values)?;
            Ok((Value::Object(array), Effect::Nothing))
        }
    }
}

/// `writePersistentArray(name, structure, array)`: the number of the bytes written, which the page
/// tells.
pub fn write_persistent_array(
    alloc: Global,
    state: &mut BrowserState,
    args: &[Value],
    heap: &Heap,
) -> Result<(Value, Effect), NoMemory>
    requires { All (IsLive heap.now) args.now }
    ensures answers { IfOk result (λ answer. Answers
        (write_array args.now heap.now state.old).called answer state.new) }
    ensures objects { heap.now ≡ (write_array args.now heap.now state.old).heap }
    ensures err { OnErr result (state.new ≡ state.old) }
{
    match named(alloc, args, heap)? {
        None => Ok(refusal()),
        Some((slot, structure)) => write_argument(alloc, state, slot, &structure, args, heap),
    }
}

// Writes the values of the array that the third argument is.
fn write_argument(
    alloc: Global,
    state: &mut BrowserState,
    slot: u8,
    structure: &Structure,
    args: &[Value],
    heap: &Heap,
) -> Result<(Value, Effect), NoMemory>
    requires args { All (IsLive heap.now) args.now }
    requires slot { slot < array_count }
    ensures answers { IfOk result (λ answer. Answers (write_bytes slot (packed_values heap.now
        structure.now (values_of_array heap.now (argument args.now 2))) state.old)
        answer state.new) }
    ensures err { OnErr result (state.new ≡ state.old) }
{
    match fields_argument(alloc, structure.kinds(), args, heap)? {
        None => Ok(refusal()),
        Some(fields) => Ok(write_fields(state, slot, structure, &fields)),
    }
}

// Writes values of fields, where they fit.
fn write_fields(
    state: &mut BrowserState,
    slot: u8,
    structure: &Structure,
    fields: &[Field],
) -> (Value, Effect)
    requires { slot < array_count }
    ensures { Answers (write_bytes slot (packed_in_array structure.now fields.now) state.old)
        result state.new }
{
    match pack(structure, fields, &mut state.area, slot) {
        None => refusal(),
        Some(size) => (whole(u32::from(size)), Effect::Kept(slot, size)),
    }
}

// The array and the fields that the first two arguments name, where each of them names one.
fn named(alloc: Global, args: &[Value], heap: &Heap) -> Result<Option<(u8, Structure)>, NoMemory>
    requires { All (IsLive heap.now) args.now }
    ensures names { IfOk result (λ found. (call : ℕ → List Kind → CallOutcome) (s : BrowserParts)
        → with_names call args.now heap.now s
        ≡ option_map_or (λ names. call names.0 names.1) found (over heap.now (gives_nan s))) }
    ensures bound { IfOk result (λ found. IfSome found (λ names. names.0 < array_count)) }
{
    let Some(slot) = slot_argument(args, heap)? else {
        return Ok(None);
    };
    match structure_argument(alloc, args, heap)? {
        None => Ok(None),
        Some(structure) => Ok(Some((slot, structure))),
    }
}

fn slot_argument(args: &[Value], heap: &Heap) -> Result<Option<u8>, NoMemory>
    requires { All (IsLive heap.now) args.now }
    ensures slot { IfOk result
        (λ slot. slot ≡ array_named (spec_text_argument heap.now args.now 0)) }
    ensures bound { IfOk result (λ slot. IfSome slot (λ number. number < array_count)) }
{
    let name = text_argument(heap, args, 0)?;
    Ok(slot_of(&name))
}

pub fn structure_argument(
    alloc: Global,
    args: &[Value],
    heap: &Heap,
) -> Result<Option<Structure>, NoMemory>
    requires { All (IsLive heap.now) args.now }
    ensures { IfOk result (λ structure. structure
        ≡ structure_spelled (spec_text_argument heap.now args.now 1)) }
{
    let text = text_argument(heap, args, 1)?;
    Structure::read(alloc, &text)
}

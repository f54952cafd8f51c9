//! Calls that name a path, which the page does.

ghost use Rattle.std.specs.Prelude.{◌≡◌, All, IfOk};
ghost use Rattle.es_values.specs.Heaps.{IsLive};
ghost use Rattle.browser_objects.specs.Calls.{Answers, BrowserParts, path_argument as spec_path_argument, with_path};
ghost use Rattle.browser_objects.specs.declared.effects.Effect.TheVariants as the;

use crate::arguments::text_argument;
use crate::effects::{Effect, refusal};
use bml_bytes::NoMemory;
use es_values::{Heap, Value};
use multipart_entities::Path;
use std::alloc::Global;

/// `launchDocument(path)`: the page does it.
pub fn launch_document(
    alloc: Global,
    base: &Path,
    args: &[Value],
    heap: &Heap,
) -> Result<(Value, Effect), NoMemory>
    requires { All (IsLive heap.now) args.now }
    ensures { (s : BrowserParts) → IfOk result (λ answer. Answers
        (with_path the.Launch (spec_path_argument base.now args.now heap.now) s) answer s) }
{
    match path_argument(alloc, base, args, heap)? {
        Some(path) => Ok((Value::Undefined, Effect::Launch(path))),
        None => Ok(refusal()),
    }
}

/// `lockModuleOnMemory(path)`: the page does it.
pub fn lock_module(
    alloc: Global,
    base: &Path,
    args: &[Value],
    heap: &Heap,
) -> Result<(Value, Effect), NoMemory>
    requires { All (IsLive heap.now) args.now }
    ensures { (s : BrowserParts) → IfOk result (λ answer. Answers
        (with_path the.Lock (spec_path_argument base.now args.now heap.now) s) answer s) }
{
    match path_argument(alloc, base, args, heap)? {
        Some(path) => Ok((Value::Undefined, Effect::Lock(path))),
        None => Ok(refusal()),
    }
}

/// `unlockModuleOnMemory(path)`: the page does it.
pub fn unlock_module(
    alloc: Global,
    base: &Path,
    args: &[Value],
    heap: &Heap,
) -> Result<(Value, Effect), NoMemory>
    requires { All (IsLive heap.now) args.now }
    ensures { (s : BrowserParts) → IfOk result (λ answer. Answers
        (with_path the.Unlock (spec_path_argument base.now args.now heap.now) s) answer s) }
{
    match path_argument(alloc, base, args, heap)? {
        Some(path) => Ok((Value::Undefined, Effect::Unlock(path))),
        None => Ok(refusal()),
    }
}

// The path that the first argument names, seen from a base.
pub fn path_argument(
    alloc: Global,
    base: &Path,
    args: &[Value],
    heap: &Heap,
) -> Result<Option<Path>, NoMemory>
    requires { All (IsLive heap.now) args.now }
    ensures { IfOk result (λ path. path ≡ spec_path_argument base.now args.now heap.now) }
{
    let text = text_argument(heap, args, 0)?;
    Path::resolve(alloc, &text, base)
}

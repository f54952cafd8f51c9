//! Texts of ASCII.

ghost use Rattle.std.specs.Prelude.{◌≡◌, ◌<◌, All, IfOk};

use bml_bytes::{NoMemory, Text, law_of_codes};
use std::alloc::Global;

/// The text of some bytes of ASCII, whose codes they are.
pub fn ascii_text(alloc: Global, bytes: &[u8]) -> Result<Text, NoMemory>
    requires { All (λ byte. byte < 128) bytes.now }
    ensures { IfOk result (λ text. text ≡ bytes.now) }
{
    law_of_codes();
    Text::of_bytes(alloc, bytes)
}

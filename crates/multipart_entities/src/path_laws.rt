//! What the definitions of paths say together. Each function is a law: its contract is what it is
//! for, and it does nothing when it runs.

ghost use Rattle.std.specs.Prelude.{◌≡◌, ℕ, List, Option, Some, ◌++◌};
ghost use Rattle.bml_bytes.specs.Codes.{codes};
ghost use Rattle.multipart_entities.specs.Paths.{component_of, path_text, path_of_text};
ghost use Rattle.multipart_entities.specs.PathTexts.{AreDigits, IsPathText, IsPrintable, IsRoot, PathText, named_by, number_of, root_text, text_of};
ghost use Rattle.multipart_entities.specs.declared.paths.Path.{Path};

use bml_bytes::law_of_digits;

/// The texts of the six forms resolve, each to the path that it spells, and every text that
/// resolves is one of these.
pub fn law_of_paths()
    ensures resolves { (base : Path) (text : PathText) → IsPathText text
        → path_of_text (text_of text) base ≡ Some (named_by base text) }
    ensures spelled { (base path : Path) (codes : List ℕ) → path_of_text codes base ≡ Some path
        → (text : PathText) × IsPathText text × (text_of text ≡ codes)
        × (named_by base text ≡ path) }
{}

/// A reference to a component is `/cc`, or the same behind `arib-dc://host`, and every text that is
/// one is of that form.
pub fn law_of_component_references()
    ensures refers { (host : Option (List ℕ)) (digits : List ℕ) → IsRoot host → AreDigits 2 digits
        → component_of (root_text host ++ digits) ≡ Some (number_of digits) }
    ensures spelled { (codes : List ℕ) (component : ℕ) → component_of codes ≡ Some component
        → (host : Option (List ℕ)) × (digits : List ℕ) × IsRoot host × AreDigits 2 digits
        × (root_text host ++ digits ≡ codes) × (number_of digits ≡ component) }
{}

/// A printed path resolves to itself, whatever the base, unless its name has bytes that are
/// escaped, a slash, more than 64 codes, or codes that its bytes aren't read as.
pub fn law_of_printed_paths()
    ensures { (path base : Path) → IsPrintable path
        → path_of_text (codes (path_text path)) base ≡ Some path }
{
    law_of_digits();
}

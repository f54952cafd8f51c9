//! What the definitions of this crate say together. Each function is a law: its contract is what it
//! is for, and it does nothing when it runs.

ghost use Rattle.std.specs.Prelude.{◌≡◌, ◌↔◌, ◌++◌, ℕ, List, Some, IsTrue};
ghost use Rattle.bml_bytes.specs.Codes.{codes};
ghost use Rattle.style_reader.specs.Comments.{Commented, SpellsComments, uncommented};
ghost use Rattle.style_reader.specs.Declarations.{IsDeclaration, declaration_of, property_of};
ghost use Rattle.style_reader.specs.Properties.{name_of, script_name_of};
ghost use Rattle.style_reader.specs.Readings.{inline_rules_of, plain_text, rules_of, selector_of, sheet_of};
ghost use Rattle.style_reader.specs.Rules.{IsInlineOf, IsSheetOf, declaration_count, given_by, given_from};
ghost use Rattle.style_reader.specs.Selectors.{IsSelector};
ghost use Rattle.style_reader.specs.Sheets.{Sheet, Spells};
ghost use Rattle.style_reader.specs.Values.{fits as spec_fits, printed, value_of as spec_value_of};
ghost use Rattle.style_reader.specs.declared.rules.Rule.{Rule};

use crate::declarations::Declaration;
use crate::properties::{Property, StyleValue};
use crate::selectors::Selector;
use bml_bytes::{law_of_codes, law_of_decimals};

/// No two properties have one name in styles, nor in scripts.
pub fn law_of_properties()
    ensures names { (one other : Property) → name_of one ≡ name_of other → one ≡ other }
    ensures script_names { (one other : Property) →
        script_name_of one ≡ script_name_of other → one ≡ other }
    ensures found { (property : Property) → property_of (name_of property) ≡ Some property }
{}

/// A value fits a property where a text gives it, and only there: what is printed of each value
/// that fits is read back as that value.
pub fn law_of_values()
    ensures read { (property : Property) (text : List ℕ) (value : StyleValue) →
        spec_value_of property text ≡ Some value → IsTrue (spec_fits property value) }
    ensures read_back { (property : Property) (value : StyleValue) →
        IsTrue (spec_fits property value) →
        spec_value_of property (codes (printed property value)) ≡ Some value }
{
    law_of_codes();
    law_of_decimals();
}

/// Each text is spelled with its comments in one way at least, and what it reads as is what each
/// such way leaves of it.
pub fn law_of_comments()
    ensures spelled { (text : List ℕ) → (spelling : Commented) × SpellsComments spelling text }
    ensures one { (text : List ℕ) (spelling : Commented) → SpellsComments spelling text →
        uncommented spelling ≡ plain_text text }
{}

/// What a text reads as is the declaration that it is.
pub fn law_of_declarations()
    ensures { (declaration : Declaration) (text : List ℕ) →
        (declaration_of text ≡ Some declaration) ↔ IsDeclaration declaration text }
{}

/// What a text reads as is the selector that it is.
pub fn law_of_selectors()
    ensures { (selector : Selector) (text : List ℕ) →
        (selector_of text ≡ Some selector) ↔ IsSelector selector text }
{}

/// Each text without comments is a sheet, and one alone.
pub fn law_of_sheets()
    ensures spelled { (text : List ℕ) → Spells (sheet_of text) text }
    ensures one { (sheet : Sheet) (text : List ℕ) → Spells sheet text → sheet ≡ sheet_of text }
{}

/// Each text stands for one list of rules, as a sheet and as an inline text, and these are the
/// rules that it reads as.
pub fn law_of_rules()
    ensures sheet { (text : List ℕ) → IsSheetOf text (rules_of text) }
    ensures one_sheet { (text : List ℕ) (rules : List Rule) → IsSheetOf text rules →
        rules ≡ rules_of text }
    ensures inline { (text : List ℕ) → IsInlineOf text (inline_rules_of text) }
    ensures one_inline { (text : List ℕ) (rules : List Rule) → IsInlineOf text rules →
        rules ≡ inline_rules_of text }
{}

/// The declarations of texts that are read later stand behind those of the texts before.
pub fn law_of_orders()
    ensures { (front back : List Rule) → given_by (front ++ back)
        ≡ given_by front ++ given_from (declaration_count front) back }
{}

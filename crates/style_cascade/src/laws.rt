//! What the definitions of the cascade say together. Each function is a law: its contract is what
//! it is for, and it does nothing when it runs.

ghost use Rattle.std.specs.Prelude.{◌≡◌, ℕ, List, [], ◌∷◌, Option, Some, None, true, Contains, IsTrue, IsFalse, codes};
ghost use Rattle.bml_bytes.specs.Words.{is_same};
ghost use Rattle.dom_tree.specs.Items.{Item, changed_at, parent_of, with_attribute, with_text};
ghost use Rattle.dom_tree.specs.Walks.{IsTree};
ghost use Rattle.style_reader.specs.Properties.{initial_of, is_inherited};
ghost use Rattle.style_reader.specs.Rules.{Given, any_element, given_by};
ghost use Rattle.style_reader.specs.declared.declarations.Declaration.{Declaration};
ghost use Rattle.style_reader.specs.declared.properties.Property.{Property};
ghost use Rattle.style_reader.specs.declared.properties.StyleValue.{StyleValue};
ghost use Rattle.style_reader.specs.declared.rules.Rule.{Rule};
ghost use Rattle.style_cascade.specs.Cascade.{Place, Sources, chain_of, own_value, style_value, unwritten, with_write, write_of};
ghost use Rattle.style_cascade.specs.Candidates.{inline_rules, inline_value, is_at_least, last_value, strongest};
ghost use Rattle.style_cascade.specs.Keeping.{IsRight, StylesState, is_kept, kept_style, owed};
ghost use Rattle.style_cascade.specs.Writes.{are_in_order};
ghost use Rattle.style_cascade.specs.declared.states.State.{State};
ghost use Rattle.style_cascade.specs.declared.subjects.Subject.{Subject};

use dom_tree::{law_of_attribute_changes, law_of_paths, law_of_text_changes};

/// The strongest of some declarations is among them and at least as strong as each, and there is
/// none only where there are no declarations. What rules give in one place of their order is one
/// value of one property, so that of two that are at least as strong as each other both give the
/// same.
pub fn law_of_strongest()
    ensures among { (given : List Given) (one : Given) →
        strongest given ≡ Some one → Contains given one }
    ensures greatest { (given : List Given) (one other : Given) →
        strongest given ≡ Some one → Contains given other → IsTrue (is_at_least one other) }
    ensures none { (given : List Given) → strongest given ≡ None → given ≡ [] }
    ensures order { (rules : List Rule) (one other : Given) →
        Contains (given_by rules) one → Contains (given_by rules) other →
        one.order ≡ other.order → (one.property ≡ other.property) × (one.value ≡ other.value) }
{}

/// What an inline text gives an element for a property is the last declaration of that property in
/// it, in each state.
pub fn law_of_inline_values()
    ensures { (subject : Subject) (state : State) (property : Property)
        (declarations : List Declaration) →
        inline_rules subject
        ≡ record { selectors = any_element ∷ []; declarations = declarations } ∷ [] →
        inline_value subject state property ≡ last_value property declarations }
{}

/// An element has what is said of itself. Without that it has, of an inherited property, what the
/// element has that it hangs in, in the present state of that one; and at the root and of any other
/// property the initial value.
pub fn law_of_inheritance()
    ensures own { (items : List Item) (sources : Sources) (present : ℕ → State)
        (node : ℕ) (state : State) (property : Property) (value : StyleValue) →
        own_value items sources node state property ≡ Some value →
        style_value items sources present node state property ≡ value }
    ensures inherited { (items : List Item) → IsTree items →
        (sources : Sources) (present : ℕ → State)
        (node up : ℕ) (state : State) (property : Property) →
        own_value items sources node state property ≡ None →
        IsTrue (is_inherited property) → parent_of items node ≡ Some up →
        style_value items sources present node state property
        ≡ style_value items sources present up (present up) property }
    ensures root { (items : List Item) (sources : Sources) (present : ℕ → State)
        (node : ℕ) (state : State) (property : Property) →
        own_value items sources node state property ≡ None →
        parent_of items node ≡ None →
        style_value items sources present node state property ≡ initial_of property }
    ensures others { (items : List Item) (sources : Sources) (present : ℕ → State)
        (node : ℕ) (state : State) (property : Property) →
        own_value items sources node state property ≡ None → IsFalse (is_inherited property) →
        style_value items sources present node state property ≡ initial_of property }
{
    law_of_paths();
}

/// What scripts have written is one value, or none, for each state of a node and each property: a
/// write puts its value in place of the one that was there, and changes no other. There is nothing
/// else in it: sources of the same rules that have the same values are the same.
pub fn law_of_writes()
    ensures unwritten { (rules : List Rule) (node : ℕ) (state : State) (property : Property) →
        write_of (unwritten rules) node state property ≡ None }
    ensures order { (rules : List Rule) → IsTrue (are_in_order (unwritten rules).writes) }
    ensures kept_order { (sources : Sources) (node : ℕ) (state : State) (property : Property)
        (value : StyleValue) → IsTrue (are_in_order sources.writes) →
        IsTrue (are_in_order (with_write node state property value sources).writes) }
    ensures written { (sources : Sources) (node : ℕ) (state : State) (property : Property)
        (value : StyleValue) →
        write_of (with_write node state property value sources) node state property ≡ Some value }
    ensures others { (sources : Sources) (node : ℕ) (state : State) (property : Property)
        (value : StyleValue) (other : ℕ) (at : State) (of : Property) →
        ((other ≡ node) × (at ≡ state) × (of ≡ property) → ⊥) →
        write_of (with_write node state property value sources) other at of
        ≡ write_of sources other at of }
    ensures same { (one other : Sources) →
        IsTrue (are_in_order one.writes) → IsTrue (are_in_order other.writes) →
        one.rules ≡ other.rules →
        ((node : ℕ) (state : State) (property : Property) →
        write_of one node state property ≡ write_of other node state property) →
        one ≡ other }
{}

/// What right styles keep is the value, and where it is kept so are all that it was inherited from.
pub fn law_of_kept_values()
    ensures value { (items : List Item) (states : ℕ → State) (styles : StylesState)
        (node : ℕ) (state : State) (property : Property) →
        IsRight items states styles → is_kept styles node state property ≡ true →
        kept_style styles node state property
        ≡ Some (style_value items styles.sources states node state property) }
    ensures chain { (items : List Item) (states : ℕ → State) (styles : StylesState)
        (node : ℕ) (state : State) (property : Property) (at : Place) →
        IsRight items states styles → is_kept styles node state property ≡ true →
        Contains (chain_of items styles.sources states node state property) at →
        is_kept styles at.node at.state property ≡ true }
{}

/// Another text for a text node changes no value, and the styles are still those of the tree. No
/// more is owed of them.
pub fn law_of_text_writes()
    ensures right { (items : List Item) (node : ℕ) (text : List ℕ)
        (states : ℕ → State) (styles : StylesState) → IsRight items states styles →
        IsRight (changed_at (with_text text) node items) states styles }
    ensures owed { (items : List Item) (node : ℕ) (text : List ℕ)
        (states : ℕ → State) (styles : StylesState) →
        owed (changed_at (with_text text) node items) states styles ≡ owed items states styles }
    ensures values { (items : List Item) (node : ℕ) (text : List ℕ)
        (sources : Sources) (present : ℕ → State) (at : ℕ) (state : State) (property : Property) →
        style_value (changed_at (with_text text) node items) sources present at state property
        ≡ style_value items sources present at state property }
{
    law_of_text_changes();
}

/// Nor does another value for an attribute other than `id`, `class` and `style`. No more is owed
/// after another value of any attribute.
pub fn law_of_attribute_writes()
    ensures right { (items : List Item) (node : ℕ) (name value : List ℕ)
        (states : ℕ → State) (styles : StylesState) →
        IsFalse (is_same name (codes "id")) → IsFalse (is_same name (codes "class")) →
        IsFalse (is_same name (codes "style")) → IsRight items states styles →
        IsRight (changed_at (with_attribute name value) node items) states styles }
    ensures owed { (items : List Item) (node : ℕ) (name value : List ℕ)
        (states : ℕ → State) (styles : StylesState) →
        owed (changed_at (with_attribute name value) node items) states styles
        ≡ owed items states styles }
    ensures values { (items : List Item) (node : ℕ) (name value : List ℕ)
        (sources : Sources) (present : ℕ → State) (at : ℕ) (state : State) (property : Property) →
        IsFalse (is_same name (codes "id")) → IsFalse (is_same name (codes "class")) →
        IsFalse (is_same name (codes "style")) →
        style_value (changed_at (with_attribute name value) node items) sources present at state
        property
        ≡ style_value items sources present at state property }
{
    law_of_attribute_changes();
}

/// The styles are right in the same states, however these are given.
pub fn law_of_states()
    ensures { (items : List Item) (before after : ℕ → State) (styles : StylesState) →
        ((node : ℕ) → after node ≡ before node) → IsRight items before styles →
        IsRight items after styles }
{}

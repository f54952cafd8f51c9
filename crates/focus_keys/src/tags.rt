//! The elements that can have the focus, by their tags.

ghost use Rattle.std.specs.Prelude.{◌≡◌};
ghost use Rattle.focus_keys.specs.Targets.{is_focus_tag as spec_is_focus_tag};

use bml_bytes::Text;

/// Whether an element of this tag can have the focus.
pub fn is_focus_tag(tag: &Text) -> bool
    ensures { result ≡ spec_is_focus_tag tag.now }
{
    tag.is_word("p")
        || tag.is_word("div")
        || tag.is_word("span")
        || tag.is_word("a")
        || tag.is_word("input")
        || tag.is_word("object")
}

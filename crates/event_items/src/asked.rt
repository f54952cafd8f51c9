//! What attributes ask of a message.

ghost use Rattle.std.specs.Prelude.{◌≡◌, option_copied};
ghost use Rattle.event_items.specs.EventItems.{answers, answers_or_any, asked_by, component_asked_by, is_component};

use crate::numerals::read_decimal;
use bml_bytes::Text;
use multipart_entities::component_ref;

/// The id and the version that ask for nothing.
const ANY_ID: u32 = 255;

/// What an attribute asks of a number: nothing, this number, or what no number is.
#[derive(Clone, Copy)]
pub enum Asked {
    Anything,
    Exactly(u32),
    NoNumber,
}

impl Asked {
    /// What the value of an attribute asks. Where there is no attribute nothing is asked.
    pub fn by_value(value: Option<&Text>) -> Asked
        ensures { result ≡ asked_by (option_copied value.entry) }
    {
        match value {
            Some(text) => Asked::by_text(text),
            None => Asked::Anything,
        }
    }

    /// Whether a number is what is asked for.
    pub fn is_answered_by(self, number: u32) -> bool
        ensures { result ≡ answers self number }
    {
        match self {
            Asked::Anything => true,
            Asked::Exactly(asked) => asked == number,
            Asked::NoNumber => false,
        }
    }

    /// The same of an id or a version, where 255 asks for nothing.
    pub fn is_answered_by_id(self, id: u32) -> bool
        ensures { result ≡ answers_or_any self id }
    {
        match self {
            Asked::Exactly(asked) => asked == ANY_ID || asked == id,
            _ => self.is_answered_by(id),
        }
    }

    // A text of one to ten decimal digits asks for its number.
    fn by_text(text: &Text) -> Asked
        ensures { result ≡ asked_by (Some text.now) }
    {
        match read_decimal(text.codes()) {
            Some(number) => Asked::Exactly(number),
            None => Asked::NoNumber,
        }
    }
}

/// The component that is asked for: any, this one, or none where a text names none.
#[derive(Clone, Copy)]
pub enum AskedComponent {
    AnyComponent,
    Component(u8),
    NoComponent,
}

impl AskedComponent {
    /// What the value of an attribute asks. Where there is no attribute each component is asked for.
    pub fn by_value(value: Option<&Text>) -> AskedComponent
        ensures { result ≡ component_asked_by (option_copied value.entry) }
    {
        match value {
            Some(text) => AskedComponent::by_text(text),
            None => AskedComponent::AnyComponent,
        }
    }

    /// Whether a component is one that is asked for.
    pub fn is_answered_by(self, tag: u8) -> bool
        ensures { result ≡ is_component self tag }
    {
        match self {
            AskedComponent::AnyComponent => true,
            AskedComponent::Component(asked) => asked == tag,
            AskedComponent::NoComponent => false,
        }
    }

    // A text asks for the component that it names.
    fn by_text(text: &Text) -> AskedComponent
        ensures { result ≡ component_asked_by (Some text.now) }
    {
        match component_ref(text) {
            Some(tag) => AskedComponent::Component(tag),
            None => AskedComponent::NoComponent,
        }
    }
}

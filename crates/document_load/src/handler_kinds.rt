//! The kinds of handlers.

ghost use Rattle.std.specs.Prelude.{◌≡◌};
ghost use Rattle.document_load.specs.HandlerKinds.{all_kinds, handler_name, kind_named};

use bml_bytes::Text;

/// A kind of handlers, by the attribute whose value they are (HTML 4, 18.2.3, and the intrinsic
/// events of BML, ARIB STD-B24 volume 2).
#[derive(Clone, Copy, Debug, PartialEq, Eq, Hash)]
pub enum HandlerKind {
    Load,
    Unload,
    KeyDown,
    KeyUp,
    Click,
    Focus,
    Blur,
    Occur,
}

impl HandlerKind {
    /// All kinds.
    pub fn all() -> [HandlerKind; 8]
        ensures { result ≡ all_kinds }
    {
        [
            HandlerKind::Load,
            HandlerKind::Unload,
            HandlerKind::KeyDown,
            HandlerKind::KeyUp,
            HandlerKind::Click,
            HandlerKind::Focus,
            HandlerKind::Blur,
            HandlerKind::Occur,
        ]
    }

    /// The name of the attribute.
    pub fn name(self) -> &'static str
        ensures { result.now ≡ handler_name self }
    {
        match self {
            HandlerKind::Load => "onload",
            HandlerKind::Unload => "onunload",
            HandlerKind::KeyDown => "onkeydown",
            HandlerKind::KeyUp => "onkeyup",
            HandlerKind::Click => "onclick",
            HandlerKind::Focus => "onfocus",
            HandlerKind::Blur => "onblur",
            HandlerKind::Occur => "onoccur",
        }
    }

    /// The kind that attributes of a name are; None exactly where they are no handlers. Names
    /// compare by case.
    #[tactic(auto, unfolding(crate::specs::HandlerKinds::kind_named))]
    pub fn named(name: &Text) -> Option<HandlerKind>
        ensures { result ≡ kind_named name.now }
    {
        HandlerKind::all()
            .iter()
            .copied()
            .find(|kind| name.is_word(kind.name()))
    }
}

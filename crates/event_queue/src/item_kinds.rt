//! The kinds of event items.

ghost use Rattle.std.specs.Prelude.{◌≡◌};
ghost use Rattle.event_queue.specs.ItemKinds.{all_kinds, kind_name, kind_named};

use bml_bytes::Text;

/// What an item fires for: an event message, a module that came, changed or went, one that is locked,
/// the data button, or a data event (after beitem of BML, ARIB STD-B24 volume 2).
#[derive(Clone, Copy, Debug, PartialEq, Eq)]
pub enum ItemKind {
    EventMessageFired,
    ModuleUpdated,
    ModuleLocked,
    DataButtonPressed,
    DataEventChanged,
}

impl ItemKind {
    /// All of them.
    pub fn all() -> [ItemKind; 5]
        ensures { result ≡ all_kinds }
    {
        [
            ItemKind::EventMessageFired,
            ItemKind::ModuleUpdated,
            ItemKind::ModuleLocked,
            ItemKind::DataButtonPressed,
            ItemKind::DataEventChanged,
        ]
    }

    /// The value of the attribute `type`, which is what scripts and lines call the event.
    pub fn name(self) -> &'static str
        ensures { result.now ≡ kind_name self }
    {
        match self {
            ItemKind::EventMessageFired => "EventMessageFired",
            ItemKind::ModuleUpdated => "ModuleUpdated",
            ItemKind::ModuleLocked => "ModuleLocked",
            ItemKind::DataButtonPressed => "DataButtonPressed",
            ItemKind::DataEventChanged => "DataEventChanged",
        }
    }

    /// The kind of a name; None exactly where none has it.
    pub fn of_name(name: &Text) -> Option<ItemKind>
        ensures { result ≡ kind_named name.now }
    {
        ItemKind::all()
            .iter()
            .copied()
            .find(|kind| name.is_word(kind.name()))
    }
}

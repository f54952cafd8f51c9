//! What the definitions of this crate say together. A law's contract is what it is for, and it does
//! nothing when it runs.

ghost use Rattle.std.specs.Prelude.{◌≡◌, ◌≢◌, ◌↔◌, ◌<◌, ◌≤◌, ◌&&◌, ◌++◌, ◌∷◌, ℕ, Bool, [], List, Some, true, false, Contains, codes, filter, length, map, slice_get};
ghost use Rattle.std.specs.List.Sorted.{IsStrictlyIncreasing};
ghost use Rattle.dom_tree.specs.Items.{Item, tag_of};
ghost use Rattle.event_messages.specs.declared.messages.Message.{Message};
ghost use Rattle.event_messages.specs.Firings.{Happening, fires, firing_of};
ghost use Rattle.event_messages.specs.Kept.{StandsFor};
ghost use Rattle.multipart_entities.specs.declared.paths.Path.{Path};
ghost use Rattle.event_queue.specs.ItemKinds.{kind_name, kind_named};
ghost use Rattle.event_items.specs.EventItems.{EventItem, any_id, event_items, item_of, matches_message, matches_module};
ghost use Rattle.event_items.specs.Subscriptions.{ItemsState, data_event_items, fires_for_data_event, fires_for_message, first_items, is_subscribed, most_data_event_items, with_firing, with_subscribed};

use crate::asked::{Asked, AskedComponent};
use bml_bytes::law_of_same_texts;
use event_messages::law_of_kept_firings;
use event_queue::ItemKind;

/// The event items of a document are its elements `beitem`, each once and in ascending number, and
/// each is what its own element says.
pub fn law_of_event_items()
    ensures nodes { (base : Path) (items : List Item) (node : ℕ)
        → Contains (map (λ item. item.node) (event_items base items)) node
        ↔ (tag_of items node ≡ Some (codes "beitem")) }
    ensures ascending { (base : Path) (items : List Item)
        → IsStrictlyIncreasing (map (λ item. item.node) (event_items base items)) }
    ensures own { (base : Path) (items : List Item) (item : EventItem)
        → Contains (event_items base items) item
        → (element : Item) × (slice_get items item.node ≡ Some element)
        × (item ≡ item_of base item.node element) }
{
    law_of_same_texts();
}

/// An item is of the kind whose name its type is, case included, and of no kind where its type is
/// no such name.
pub fn law_of_kinds()
    ensures { (name : List ℕ) (kind : ItemKind)
        → (kind_named name ≡ Some kind) ↔ (name ≡ kind_name kind) }
{
    law_of_same_texts();
}

/// An item that asks for nothing and is of the kind EventMessageFired matches each message of each
/// component. One of another kind matches none, and one that asks for a component matches messages
/// of that one alone.
pub fn law_of_message_items()
    ensures each { (component : ℕ) (message : Message) (item : EventItem)
        → item.kind ≡ Some ItemKind.EventMessageFired → item.component ≡ AskedComponent.AnyComponent
        → item.group ≡ Asked.Anything → item.id ≡ Asked.Anything → item.version ≡ Asked.Anything
        → matches_message component message item ≡ true }
    ensures others { (component : ℕ) (message : Message) (item : EventItem)
        → item.kind ≢ Some ItemKind.EventMessageFired
        → matches_message component message item ≡ false }
    ensures component { (component asked : ℕ) (message : Message) (item : EventItem)
        → item.component ≡ AskedComponent.Component asked
        → matches_message component message item ≡ true → component ≡ asked }
{}

/// An item that asks for a number that no number is matches no message, and neither does one that
/// asks for a component that none is.
pub fn law_of_bad_numbers()
    ensures group { (component : ℕ) (message : Message) (item : EventItem)
        → item.group ≡ Asked.NoNumber → matches_message component message item ≡ false }
    ensures id { (component : ℕ) (message : Message) (item : EventItem)
        → item.id ≡ Asked.NoNumber → matches_message component message item ≡ false }
    ensures version { (component : ℕ) (message : Message) (item : EventItem)
        → item.version ≡ Asked.NoNumber → matches_message component message item ≡ false }
    ensures component { (component : ℕ) (message : Message) (item : EventItem)
        → item.component ≡ AskedComponent.NoComponent
        → matches_message component message item ≡ false }
{}

/// An item that asks for the id 255 matches messages of each id alike, and one that asks for
/// another matches messages of that id alone. So it is with versions. One that asks for a group
/// matches messages of that group alone, of 255 too.
pub fn law_of_any_id()
    ensures id { (component other : ℕ) (message : Message) (item : EventItem)
        → item.id ≡ Asked.Exactly any_id
        → matches_message component (record message { id = other }) item
        ≡ matches_message component message item }
    ensures version { (component other : ℕ) (message : Message) (item : EventItem)
        → item.version ≡ Asked.Exactly any_id
        → matches_message component (record message { version = other }) item
        ≡ matches_message component message item }
    ensures own_id { (component asked : ℕ) (message : Message) (item : EventItem)
        → item.id ≡ Asked.Exactly asked → asked ≢ any_id
        → matches_message component message item ≡ true → message.id ≡ asked }
    ensures own_version { (component asked : ℕ) (message : Message) (item : EventItem)
        → item.version ≡ Asked.Exactly asked → asked ≢ any_id
        → matches_message component message item ≡ true → message.version ≡ asked }
    ensures group { (component group : ℕ) (message : Message) (item : EventItem)
        → item.group ≡ Asked.Exactly group → matches_message component message item ≡ true
        → message.group ≡ group }
{}

/// An item matches a change of a module exactly where it is of the kind of that change and about
/// that module.
pub fn law_of_module_items()
    ensures { (kind : ItemKind) (component number : ℕ) (item : EventItem)
        → (matches_module kind component number item ≡ true)
        ↔ ((item.kind ≡ Some kind) × (item.about ≡ Some (component, number))) }
{}

/// At most 256 items fire for a data event. Each that does is a subscribed item of the kind
/// DataEventChanged, and they stand in document order. Where there are no more of these than 256, each
/// of them fires.
pub fn law_of_data_event_items()
    ensures few { (s : ItemsState) → length (data_event_items s) ≤ most_data_event_items }
    ensures own { (s : ItemsState) (node : ℕ) → Contains (data_event_items s) node
        → (item : EventItem) × Contains s.items item × (item.node ≡ node)
        × (item.kind ≡ Some ItemKind.DataEventChanged) × (is_subscribed node s ≡ true) }
    ensures all { (s : ItemsState) (item : EventItem)
        → length (filter (fires_for_data_event s) s.items) ≤ most_data_event_items
        → Contains s.items item → item.kind ≡ Some ItemKind.DataEventChanged
        → is_subscribed item.node s ≡ true → Contains (data_event_items s) item.node }
{}

/// What is written of a node's subscription is read back, and other nodes keep theirs. To write
/// true forgets no firing, and to write false forgets those of that node alone, so that its next
/// message fires.
pub fn law_of_subscriptions()
    ensures own { (node : ℕ) (subscribed : Bool) (s : ItemsState) → node < length s.subscribed
        → is_subscribed node (with_subscribed node subscribed s) ≡ subscribed }
    ensures others { (node other : ℕ) (subscribed : Bool) (s : ItemsState) → other ≢ node
        → is_subscribed other (with_subscribed node subscribed s) ≡ is_subscribed other s }
    ensures begun { (node : ℕ) (s : ItemsState) → (with_subscribed node true s).fired ≡ s.fired }
{}

/// An event is posted for a message exactly where the item is subscribed and matches it, and its
/// last firing for that group and id since it was subscribed had another version, or there was
/// none. So it is behind each list of what happened to the items of a document: it begins with
/// none, a firing that is noted goes behind it, and so does the end of a subscription.
pub fn law_of_item_events()
    ensures first { (base : Path) (nodes : List Item)
        → StandsFor (first_items base nodes).fired [] }
    ensures noted { (node : ℕ) (message : Message) (s : ItemsState) (happenings : List Happening)
        → StandsFor s.fired happenings
        → StandsFor (with_firing node message s).fired
        (happenings ++ firing_of node message ∷ []) }
    ensures ended { (node : ℕ) (s : ItemsState) (happenings : List Happening)
        → StandsFor s.fired happenings
        → StandsFor (with_subscribed node false s).fired
        (happenings ++ Happening.Forgets node ∷ []) }
    ensures begun { (node : ℕ) (s : ItemsState) (happenings : List Happening)
        → StandsFor s.fired happenings
        → StandsFor (with_subscribed node true s).fired happenings }
    ensures fires { (component : ℕ) (message : Message) (s : ItemsState) (item : EventItem)
        (happenings : List Happening) → StandsFor s.fired happenings
        → fires_for_message component message s item
        ≡ (is_subscribed item.node s && (matches_message component message item
        && fires item.node message happenings)) }
{
    law_of_kept_firings();
}

//! What holds of the nodes of a document as scripts see them. Each function is a law: its contract
//! is what it is for, and it does nothing when it runs.

ghost use Rattle.std.specs.Prelude.{◌≡◌, [], ℕ, List, Some, codes, replicate, true, unwrap_or};
ghost use Rattle.dom_tree.specs.Items.{tag_of, text_of, value_of};
ghost use Rattle.psi_tables.specs.declared.services.Selection.{Selection};
ghost use Rattle.es_reader.specs.Readers.{Reader};
ghost use Rattle.es_values.specs.declared.values.HostRef.{HostRef};
ghost use Rattle.es_values.specs.declared.values.HostRef.TheVariants.{Node};
ghost use Rattle.es_values.specs.declared.values.Value.{Value};
ghost use Rattle.es_values.specs.declared.values.Value.TheVariants.{Str};
ghost use Rattle.es_values.specs.Conversions as texts;
ghost use Rattle.es_values.specs.Objects.{ObjectState};
ghost use Rattle.document_stages.specs.Acting.{Acting, member_value, with_member_set};
ghost use Rattle.acting_documents.specs.Documents.{Document};
ghost use Rattle.page.specs.Dispatches.{turn};
ghost use Rattle.page.specs.State.{State};
ghost use Rattle.receiver_core.specs.Outputs.{Input, state_behind};
ghost use Rattle.receiver_core.specs.State as receiver;
ghost use Rattle.page_laws.specs.Moments.{
  Dispatches,
  HasLast,
  HasWritten,
  Lasts,
  Moment,
  after_all,
  writes_since,
};
ghost use Rattle.page_laws.specs.Nodes.{last_to, nodes_of, write_made};
ghost use Rattle.page_laws.specs.Reached.{IsReached};
ghost use Rattle.page_laws.specs.Soundness.{IsSound, has_node};

use crate::laws::law_of_sound_receivers;
use dom_tree::{law_of_attribute_changes, law_of_text_changes};

/// Whatever came to a receiver, each node that its document has in a global, in a property of an
/// object, in an event that waits or in its focus is a node of the one tree: a number below that of
/// the nodes.
pub fn law_of_reached_nodes()
    ensures nodes { (read : Reader) (selection : Selection) (area : List ℕ) (inputs : List Input)
        (d : Document) (node : ℕ)
        → (state_behind (receiver.opening read selection area) inputs).page.document ≡ Some d
        → IsReached d node → has_node d.tree.items node ≡ true }
{
    law_of_sound_receivers();
}

/// All that comes to a receiver comes to its page moment by moment (`specs/Moments.antt`), so what
/// holds of every list of moments holds of every list of inputs. A turn is so many dispatches.
pub fn law_of_moments()
    ensures turns { (s : State) → (count : ℕ)
        × ((turn s).state ≡ after_all (replicate count Dispatches) s) }
    ensures inputs { (inputs : List Input) (s : receiver.State) → (moments : List Moment)
        × ((state_behind s inputs).page ≡ after_all moments s.page) }
{}

/// What a script writes to a node by one reference is what each script reads of it by each other
/// reference with its number: at once, and at the beginning of each later handler, until another
/// text is written to it or its document ends. What is written to other nodes changes nothing of it,
/// and neither does anything but the writes of scripts: no key, message, change of a module, time or
/// default action. So it is with the `data` of texts and objects and the `value` of inputs; and all
/// nodes with their styles are as the writes make them, one after the other.
pub fn law_of_written_nodes()
    ensures nodes { (s : State) (d : Document) (moments : List Moment)
        → IsSound s → s.document ≡ Some d → Lasts moments s
        → HasWritten (after_all moments s) (nodes_of d.tree) (writes_since moments s) }
    ensures texts { (s : State) (d : Document) (moments : List Moment) (node : ℕ) (text : List ℕ)
        → IsSound s → s.document ≡ Some d → Lasts moments s
        → text_of d.tree.items node ≡ Some text
        → HasLast (after_all moments s) node (codes "data") (writes_since moments s) text }
    ensures inputs { (s : State) (d : Document) (moments : List Moment) (node : ℕ)
        → IsSound s → s.document ≡ Some d → Lasts moments s
        → tag_of d.tree.items node ≡ Some (codes "input")
        → HasLast (after_all moments s) node (codes "value") (writes_since moments s)
        (unwrap_or (value_of d.tree.items node (codes "value")) []) }
    ensures objects { (s : State) (d : Document) (moments : List Moment) (node : ℕ)
        → IsSound s → s.document ≡ Some d → Lasts moments s
        → tag_of d.tree.items node ≡ Some (codes "object")
        → HasLast (after_all moments s) node (codes "data") (writes_since moments s)
        (unwrap_or (value_of d.tree.items node (codes "data")) []) }
    ensures at_once { (a : Acting) (base : HostRef) (name : List ℕ) (value : Value)
        (heap : List ObjectState) (node : ℕ) (text : List ℕ)
        → text_of a.tree.items node ≡ Some text
        → member_value (with_member_set a base name value heap) (Node node) (codes "data")
        ≡ Str
        (unwrap_or
        (last_to node (codes "data") (write_made a base name (texts.text_of heap value))) text) }
{
    law_of_text_changes();
    law_of_attribute_changes();
}

//! How a document ends for a data event.

ghost use Rattle.std.specs.Io.{StartsWith};
ghost use Rattle.std.specs.Prelude.{map, OnOk};
ghost use Rattle.acting_documents.specs.Beginnings.{data_event_effect, items_effect};
ghost use Rattle.acting_documents.specs.devices.Doings.{Does, DoesInEnding};

use crate::documents::ActingDocument;
use bml_bytes::NoMemory;
use dom_tree::NodeId;
use event_queue::Event;

impl ActingDocument {
    /// Ends the document for a data event: what waits in it is dropped with its timers, the handlers of
    /// the items run that fire for a data event now, and its body's `unload` is handled.
    pub fn end_for_data_event(&mut self, out: &mut Vec<u8>) -> Result<(), NoMemory>
        ensures does { OnOk result
            (Does data_event_effect self.old self.new out.old.items out.new.items) }
        ensures grows { StartsWith out.new.items out.old.items }
    {
        let items = self.host.stage.data_event_items()?;
        self.drop_waiting();
        self.handle_items(items.as_slice(), out)?;
        self.handle(Event::Unload, out)
    }

    // Handles a data event for these items, one behind the other.
    fn handle_items(&mut self, items: &[NodeId], out: &mut Vec<u8>) -> Result<(), NoMemory>
        ensures does { OnOk result
            (DoesInEnding (items_effect (map (λ node. node.0) items.now))
            self.old self.new out.old.items out.new.items) }
        ensures grows { StartsWith out.new.items out.old.items }
    {
        'items: for item in items {
            self.handle(Event::DataEvent(item.0), out)?;
        }
        Ok(())
    }
}

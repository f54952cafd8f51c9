//! What a document is told, and posts.

ghost use Rattle.std.specs.Io.{StartsWith};
ghost use Rattle.std.specs.Prelude.{◌≡◌, OnOk};
ghost use Rattle.acting_documents.specs.Documents.{Document as TheDocument, passes as spec_passes};
ghost use Rattle.acting_documents.specs.devices.Doings.{DoesApart};
ghost use Rattle.acting_documents.specs.devices.Kept.{IsDocument};
ghost use Rattle.acting_documents.specs.Notices.{IsInTime, notice_effect};
ghost use Rattle.acting_documents.specs.devices.Posting.{post_effect, with_notice, takes as spec_takes};

use crate::documents::ActingDocument;
use crate::notices::Notice;
use bml_bytes::NoMemory;
use document_stages::Stage;
use dom_objects::CurrentEvent;

impl ActingDocument {
    /// Takes what it is told, and posts the events of that. A key posts what it does where the body
    /// lets it pass; a message and a change come to the event items; and the timers fire that are
    /// due at a moment, to which the clock goes. The modules that it is lent stay as they are.
    pub fn tell(&mut self, notice: Notice<'_>, out: &mut Vec<u8>) -> Result<(), NoMemory>
        requires { IsInTime notice }
        ensures does { OnOk result
            (DoesApart (notice_effect notice.entry) self.old self.new out.old.items out.new.items) }
        ensures modules { self.new.modules ≡ self.old.modules }
        ensures grows { StartsWith out.new.items out.old.items }
    {
        if !self.takes(notice) {
            self.do_nothing();
            return Ok(());
        }
        self.post(notice, out)
    }

    // Whether it comes to the document: a key does where the body lets it pass.
    fn takes(&mut self, notice: Notice<'_>) -> bool
        ensures takes { (d : TheDocument)
            → IsDocument self.old d → result ≡ spec_takes notice.entry d }
        ensures kept { self.new
            ≡ record self.old { worked = self.new.worked; owed = self.new.owed } }
    {
        match notice {
            Notice::Key { key, .. } => self.passes(key),
            _ => true,
        }
    }

    // Whether the body lets a key pass.
    fn passes(&mut self, key: u8) -> bool
        ensures passes { (d : TheDocument) → IsDocument self.old d → result ≡ spec_passes key d }
        ensures kept { self.new
            ≡ record self.old { worked = self.new.worked; owed = self.new.owed } }
    {
        let Some(body) = self.body else {
            return false;
        };
        // Behind a call that found no memory nothing is known of the nodes.
        if !self.host.stage.is_element(body) {
            return false;
        }
        self.host.stage.passes(body, key)
    }

    // Posts the events of what it is told. A key is one that passes.
    fn post(&mut self, notice: Notice<'_>, out: &mut Vec<u8>) -> Result<(), NoMemory>
        requires { IsInTime notice }
        ensures does { OnOk result
            (DoesApart (post_effect notice.entry) self.old self.new out.old.items out.new.items) }
        ensures modules { self.new.modules ≡ self.old.modules }
        ensures grows { StartsWith out.new.items out.old.items }
    {
        self.host.stage.prepare(CurrentEvent::none());
        post_on(&mut self.host.stage, notice)?;
        self.host.stage.give_text(out)
    }
}

// Posts the events of what a document is told.
fn post_on(stage: &mut Stage, notice: Notice<'_>) -> Result<(), NoMemory>
    requires { IsInTime notice }
    ensures { OnOk result (stage.new.acting ≡ with_notice notice.entry stage.old.acting) }
{
    match notice {
        Notice::Key { key, down } => stage.post_key(key, down),
        Notice::Message { component, message } => stage.post_message(component, message),
        Notice::Change { component, change } => stage.post_change(component, change),
        Notice::Moment(moment) => stage.post_due(moment),
    }
}

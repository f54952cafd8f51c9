//! What scripts read, write and call of a document.

ghost use Rattle.std.specs.Prelude.{◌≡◌, ◌↔◌, List, All, IfOk, IsTrue, OnErr, OnOk, option_copied, true};
ghost use Rattle.dom_tree.specs.Items.{IsElement};
ghost use Rattle.es_values.specs.Conversions.{text_of};
ghost use Rattle.es_values.specs.Heaps.{IsLive};
ghost use Rattle.es_values.specs.Hosts.{IsAnswer};
ghost use Rattle.es_values.specs.Objects.{ObjectState};
ghost use Rattle.es_values.specs.Values.{is_plain};
ghost use Rattle.es_values.specs.declared.hosts.HostAnswer.TheVariants.{Value as Answer};
ghost use Rattle.es_values.specs.declared.numbers.Num.TheVariants.{NotANumber};
ghost use Rattle.es_values.specs.declared.values.Value.TheVariants.{Number};
ghost use Rattle.browser_objects.specs.Calls.{Answers, call_of, table_opened};
ghost use Rattle.dom_objects.specs.Reads.{read_value};
ghost use Rattle.document_stages.specs.Acting.{browser_value as spec_browser_value, document_call, first_argument, is_ending, is_subscription, launch, node_call, parts_of, member_value, register_value as spec_register_value, with_text_written, with_browser, with_line, with_member_set};
ghost use Rattle.document_stages.specs.EventLines.{kept_line, sound_line};

use crate::event_lines::{push_kept_line, push_launch_line, push_sound_line};
use crate::stages::Stage;
use bml_bytes::{NoMemory, Text};
use browser_objects::{Effect, call_browser, open_table, register, set_register};
use dom_objects::{get_node, set_node};
use dom_tree::NodeId;
use es_values::{Heap, HostAnswer, HostRef, Num, Value};
use event_items::is_event_item;
use event_queue::Event;
use multipart_entities::Path;
use persistent_arrays::Structure;

impl Stage {
    /// What a name of a reference reads as.
    pub(crate) fn read(&mut self, base: HostRef, name: &Text) -> Result<Value, NoMemory>
        ensures value { IfOk result (λ value. value ≡ member_value self.old.acting base name.now) }
        ensures plain { IfOk result (λ value. is_plain value ≡ true) }
        ensures same { OnOk result (self.new.acting ≡ self.old.acting) }
    {
        match base {
            HostRef::Node(number) if self.is_subscription(NodeId(number), name) => {
                Ok(Value::Bool(self.items.is_subscribed(NodeId(number))))
            }
            HostRef::Browser => Ok(browser_value(name)),
            HostRef::Ureg => register_value(&self.browser.ureg, name),
            HostRef::Greg => register_value(&self.browser.greg, name),
            _ => self.read_part(base, name),
        }
    }

    /// Writes a value under a name of a reference: a subscription as a truth, and all else as text.
    pub(crate) fn write(
        &mut self,
        base: HostRef,
        name: &Text,
        value: &Value,
        heap: &Heap,
    ) -> Result<(), NoMemory>
        requires { IsLive heap.now value.now }
        ensures { OnOk result
            (self.new.acting ≡ with_member_set self.old.acting base name.now value.now heap.now) }
    {
        match base {
            HostRef::Node(number) if self.is_subscription(NodeId(number), name) => {
                self.items.subscribe(NodeId(number), value.truth());
                Ok(())
            }
            _ => {
                let text = heap.to_text(value)?;
                self.write_text(base, name, &text)
            }
        }
    }

    // Whether a node is an event item, and the name is that of its subscription.
    fn is_subscription(&self, node: NodeId, name: &Text) -> bool
        ensures { result ≡ is_subscription self.now.acting node.0 name.now }
    {
        name.is_word("subscribe") && self.tree.contains(node) && is_event_item(&self.tree, node)
    }

    // The value of a name of the document, of the current event, of a node or of a style.
    fn read_part(&mut self, base: HostRef, name: &Text) -> Result<Value, NoMemory>
        ensures value { IfOk result
            (λ value. value ≡ read_value (parts_of self.old.acting) base name.now) }
        ensures plain { IfOk result (λ value. is_plain value ≡ true) }
        ensures same { self.new.acting ≡ self.old.acting }
    {
        get_node(
            self.alloc,
            &self.tree,
            &mut self.styles,
            &self.focus,
            &self.event,
            base,
            name,
        )
    }

    // Writes a text under a name of a reference.
    fn write_text(&mut self, base: HostRef, name: &Text, text: &Text) -> Result<(), NoMemory>
        ensures { OnOk result
            (self.new.acting ≡ with_text_written self.old.acting base name.now text.now) }
    {
        match base {
            HostRef::Ureg => set_register(self.alloc, &mut self.browser.ureg, name, text),
            HostRef::Greg => set_register(self.alloc, &mut self.browser.greg, name, text),
            _ => set_node(&mut self.tree, &mut self.styles, base, name, text),
        }
    }

    /// Calls a member of the document: `getElementById` gives the first element with an id, or Null.
    pub(crate) fn call_document(
        &self,
        name: &Text,
        args: &[Value],
        heap: &Heap,
    ) -> Result<HostAnswer, NoMemory>
        requires { All (IsLive heap.now) args.now }
        ensures answer { IfOk result (λ answer. answer ≡ (document_call self.now.acting name.now
            (text_of heap.now (first_argument args.now)) heap.now).answer) }
        ensures safe { IfOk result (λ answer. IsAnswer heap.now answer) }
    {
        if !name.is_word("getElementById") {
            return Ok(HostAnswer::NotCallable);
        }
        let id = first_text(args, heap)?;
        Ok(HostAnswer::Value(match self.tree.by_id(&id) {
            Some(node) => Value::Host(HostRef::Node(node.0)),
            None => Value::Null,
        }))
    }

    /// Calls a member of a node: `focus` and `blur` of an element.
    pub(crate) fn call_node(&mut self, node: NodeId, name: &Text) -> Result<HostAnswer, NoMemory>
        ensures answer { (heap : List ObjectState) → IfOk result
            (λ answer. answer ≡ (node_call self.old.acting node.0 name.now heap).answer) }
        ensures safe { (heap : List ObjectState) → IfOk result (λ answer. IsAnswer heap answer) }
        ensures acting { (heap : List ObjectState) → OnOk result
            (self.new.acting ≡ (node_call self.old.acting node.0 name.now heap).acting) }
    {
        if !self.is_element(node) {
            return Ok(HostAnswer::NotCallable);
        }
        if name.is_word("focus") {
            self.focus_on(node)?;
        } else if name.is_word("blur") {
            self.leave_focus(node)?;
        } else {
            return Ok(HostAnswer::NotCallable);
        }
        Ok(HostAnswer::Value(Value::Undefined))
    }

    /// What a call of the browser object gives, and what has to be done beside.
    pub(crate) fn ask_browser(
        &mut self,
        name: &Text,
        args: &[Value],
        heap: &mut Heap,
    ) -> Result<(Value, Effect), NoMemory>
        requires { All (IsLive heap.old) args.now }
        ensures answers { IfOk result (λ answer. Answers (call_of name.now self.old.acting.path
            self.old.acting.now args.now heap.old self.old.acting.browser).called answer
            self.new.acting.browser) }
        ensures objects { OnOk result (heap.new ≡ (call_of name.now self.old.acting.path
            self.old.acting.now args.now heap.old self.old.acting.browser).heap) }
        ensures unchanged { OnErr result (heap.new ≡ heap.old) }
        ensures acting { self.new.acting ≡ with_browser self.new.acting.browser self.old.acting }
    {
        call_browser(
            self.alloc,
            &mut self.browser,
            &self.path,
            self.time,
            name,
            args,
            heap,
        )
    }

    /// Tries to open what a look-up found as a table of these fields, and answers with its number.
    pub(crate) fn open_table(
        &mut self,
        found: Option<&[u8]>,
        structure: &Structure,
    ) -> Result<HostAnswer, NoMemory>
        ensures answer { IfOk result (λ answer. answer ≡ Answer (table_opened
            (option_copied found.entry) structure.now self.old.acting.browser).value) }
        ensures opened { OnOk result (self.new.acting ≡ with_browser (table_opened
            (option_copied found.entry) structure.now self.old.acting.browser).state
            self.old.acting) }
        ensures safe { IfOk result (λ answer. (heap : List ObjectState) → IsAnswer heap answer) }
    {
        let value = open_table(self.alloc, &mut self.browser, found, structure)?;
        Ok(HostAnswer::Value(value))
    }

    /// Tells a sound, and answers with the value of its call.
    pub(crate) fn tell_sound(&mut self, sound: u32, value: Value) -> Result<HostAnswer, NoMemory>
        ensures answer { IfOk result (λ answer. answer ≡ Answer value) }
        ensures told { OnOk result
            (self.new.acting ≡ with_line (sound_line sound) self.old.acting) }
    {
        push_sound_line(sound, &mut self.text)?;
        Ok(HostAnswer::Value(value))
    }

    /// Tells that bytes of a persistent array were kept, and answers with the value of their call.
    pub(crate) fn tell_kept(
        &mut self,
        slot: u8,
        size: u8,
        value: Value,
    ) -> Result<HostAnswer, NoMemory>
        ensures answer { IfOk result (λ answer. answer ≡ Answer value) }
        ensures told { OnOk result
            (self.new.acting ≡ with_line (kept_line slot size) self.old.acting) }
    {
        push_kept_line(slot, size, &mut self.text)?;
        Ok(HostAnswer::Value(value))
    }

    /// A script launches the document at a path, which ends this one. A handler that runs because the
    /// document ends can't: that of `unload`, or one of a data event.
    pub(crate) fn launch(&mut self, path: Path) -> Result<HostAnswer, NoMemory>
        ensures answer { (heap : List ObjectState) → IfOk result (λ answer. answer
            ≡ (launch path self.old.acting heap).answer) }
        ensures acting { (heap : List ObjectState) → OnOk result (self.new.acting
            ≡ (launch path self.old.acting heap).acting) }
        ensures safe { (heap : List ObjectState) → IfOk result (λ answer. IsAnswer heap answer) }
    {
        if self.is_ending() {
            return Ok(refusal());
        }
        push_launch_line(&path, &mut self.text)?;
        self.launched = Some(path);
        Ok(HostAnswer::Ended)
    }

    // Whether a handler runs because the document ends.
    fn is_ending(&self) -> bool
        ensures { result ≡ is_ending self.now.acting.event.event }
    {
        matches!(&self.event.event, Some(Event::Unload | Event::DataEvent(_)))
    }

    /// Whether there is a node of this number, and it is an element.
    pub fn is_element(&self, node: NodeId) -> bool
        ensures { IsTrue result ↔ IsElement self.now.acting.tree.items node.0 }
    {
        self.tree.contains(node) && self.tree.tag(node).is_some()
    }
}

// What a name of the browser object reads as: one of its registers.
fn browser_value(name: &Text) -> Value
    ensures { result ≡ spec_browser_value name.now }
{
    if name.is_word("Ureg") {
        Value::Host(HostRef::Ureg)
    } else if name.is_word("Greg") {
        Value::Host(HostRef::Greg)
    } else {
        Value::Undefined
    }
}

// The text of the register of a name, and Undefined where no register has it.
fn register_value(registers: &[Text], name: &Text) -> Result<Value, NoMemory>
    ensures { IfOk result (λ value. value ≡ spec_register_value registers.now name.now) }
{
    match register(registers, name) {
        Some(text) => Ok(Value::Str(text.share()?)),
        None => Ok(Value::Undefined),
    }
}

/// NaN.
pub(crate) fn refusal() -> HostAnswer
    ensures { result ≡ Answer (Number NotANumber) }
{
    HostAnswer::Value(Value::Number(Num::NotANumber))
}

// The first argument as a text; an absent one is Undefined.
fn first_text(args: &[Value], heap: &Heap) -> Result<Text, NoMemory>
    requires { All (IsLive heap.now) args.now }
    ensures { IfOk result (λ text. text ≡ text_of heap.now (first_argument args.now)) }
{
    match args.first() {
        Some(first) => heap.to_text(first),
        None => heap.to_text(&Value::Undefined),
    }
}

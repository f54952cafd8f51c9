//! What handlers and default actions act on.

ghost use Rattle.std.specs.Io.{StartsWith};
ghost use Rattle.std.specs.Prelude.{◌≡◌, ◌+◌, ◌<◌, ◌≤◌, ◌^◌, ◌++◌, ℕ, [], false, None, drop, is_some, option_map, IfOk, OnOk};
ghost use Rattle.std.specs.Option.{option_map_or};
ghost use Rattle.dom_tree.specs.Items.{IsElement};
ghost use Rattle.dom_tree.specs.NodeNumbers.{number_of};
ghost use Rattle.style_cascade.specs.Keeping.{IsRight, owed as owed_values};
ghost use Rattle.style_cascade.specs.States.{is_node, present_state};
ghost use Rattle.style_cascade.specs.StyledTrees.{AreStylesOf, styled_tree};
ghost use Rattle.style_cascade.specs.declared.states.State.{State};
ghost use Rattle.focus_keys.specs.Defaults.{action_of};
ghost use Rattle.focus_keys.specs.KeyTables.{passes_list};
ghost use Rattle.focus_keys.specs.Targets.{normal_value};
ghost use Rattle.style_reader.specs.declared.properties.Property.TheVariants as property;
ghost use Rattle.event_queue.specs.Queues.{first_of};
ghost use Rattle.event_queue.specs.Timers.{first_due, timer_of};
ghost use Rattle.document_stages.specs.Acting.{with_active, with_action, with_first_events, with_due_events, first_focus, with_focus_asked, has_focus as spec_has_focus, has_room, key_posts, without_focus_of, with_focus_moved, no_focus, with_event, with_timer_fired, with_timer_event, with_timer_settled, with_focus, with_timers};
ghost use Rattle.document_stages.specs.Displays.{tree_lines};
ghost use Rattle.document_stages.specs.Stages.{IsElementOf};

mod hosts;
mod item_events;

use crate::event_lines::push_lost_line;
pub(crate) use crate::stages::hosts::refusal;
use bml_bytes::{AreaBytes, NoMemory, Text, law_of_fronts};
use browser_objects::{BrowserState, OpenTables};
use display_list::Shower;
use dom_objects::CurrentEvent;
use dom_tree::{NodeId, Tree};
use event_items::Items;
use event_queue::{Event, Queue, TIMER_LIMIT, Timers};
use focus_keys::{KeyDefault, default_of, is_focusable, nav_target, passes};
use multipart_entities::Path;
use std::alloc::Global;
use std::collections::VecDeque;
use std::marker::Model;
use std::mem;
use style_cascade::{Focus, State, Styles};
use style_reader::Property;

/// No element has the focus, and none is active.
pub const NO_FOCUS: Focus = Focus {
    focus: None,
    active: None,
};

/// The parts of a document that its scripts see, its event items, what belongs to the receiver, the
/// event whose handler runs, the path of the document that was launched, and what was printed since
/// it began. Contracts see it as `Acting`, how many values its styles worked out, and how many they
/// owe.
#[derive(Drop)]
pub struct Stage {
    alloc: Global,
    path: Path,
    tree: Tree,
    styles: Styles,
    focus: Focus,
    items: Items,
    queue: Queue,
    browser: BrowserState,
    time: u64,
    event: CurrentEvent,
    launched: Option<Path>,
    text: Vec<u8>,
}

impl Model for Stage {
    ghost use Rattle.std.specs.Prelude.{◌<◌, ◌^◌};
    ghost use Rattle.style_cascade.specs.Keeping.{owed as owed_values};
    ghost use Rattle.style_cascade.specs.States.{present_state};
    ghost use Rattle.style_cascade.specs.StyledTrees.{styled_tree};
    ghost use Rattle.document_stages.specs.Stages.{IsStaged, StageState};

    ghost Value = { StageState };

    ghost view = { λ s. record {
      acting = record {
        path = s.path;
        tree = styled_tree s.tree s.styles s.focus;
        items = s.items;
        queue = s.queue;
        browser = s.browser;
        now = s.time;
        event = s.event;
        launched = s.launched;
        text = s.text.items;
      };
      worked = s.styles.worked;
      owed = owed_values s.tree (present_state s.focus) s.styles;
    } };

    ghost invariant = { λ s. IsStaged s.tree s.focus s.styles × (s.time < 2 ^ 62) };
}

impl Stage {
    /// The document at a path, in which nothing happened yet. It isn't lent anything yet.
    pub fn new(alloc: Global, path: Path, tree: Tree, styles: Styles, items: Items) -> Stage
        requires { (states : ℕ → State) → IsRight tree states styles }
        ensures { result ≡ record {
          acting = record {
            path = path;
            tree = styled_tree tree styles no_focus;
            items = items;
            queue = [];
            browser = result.acting.browser;
            now = 0;
            event = record { event = None; target = 0 };
            launched = None;
            text = [];
          };
          worked = styles.worked;
          owed = owed_values tree (present_state no_focus) styles;
        } }
    {
        Stage {
            alloc,
            path,
            tree,
            styles,
            focus: NO_FOCUS,
            items,
            queue: Queue::new(),
            browser: placeholder(alloc),
            time: 0,
            event: CurrentEvent::none(),
            launched: None,
            text: Vec::new(alloc),
        }
    }

    /// Exchanges what it is lent with what stands there: the registers, the persistent area, the
    /// random words and the timers before the document acts at this time, and back behind that.
    pub fn exchange(&mut self, browser: &mut BrowserState, now: u64)
        requires { now < 2 ^ 62 }
        ensures acting { self.new.acting
            ≡ record self.old.acting { browser = browser.old; now = now } }
        ensures given_back { browser.new ≡ self.old.acting.browser }
        ensures worked { self.new.worked ≡ self.old.worked }
        ensures owed { self.new.owed ≡ self.old.owed }
    {
        mem::swap(&mut self.browser, browser);
        self.time = now;
    }

    /// Posts an event. Where 256 wait it is lost, and a line tells that.
    pub fn post(&mut self, event: Event) -> Result<(), NoMemory>
        ensures posted { OnOk result (self.new.acting ≡ with_event event self.old.acting) }
        ensures worked { self.new.worked ≡ self.old.worked }
    {
        self.post_or_lose(event)?;
        Ok(())
    }

    // The same, and tells whether it was posted.
    fn post_or_lose(&mut self, event: Event) -> Result<bool, NoMemory>
        ensures posted { OnOk result (self.new.acting ≡ with_event event self.old.acting) }
        ensures kept { IfOk result (λ kept. kept ≡ has_room self.old.acting) }
        ensures worked { self.new.worked ≡ self.old.worked }
    {
        let name = event.name();
        if self.queue.post(event) {
            return Ok(true);
        }
        push_lost_line(name, &mut self.text)?;
        Ok(false)
    }

    /// Moves the focus to an element: `blur` tells that which had it, and then `focus` this one. No
    /// element is active behind it. A move to the element that has the focus does nothing.
    #[tactic(auto, unfolding(crate::specs::Acting::with_focus_moved))]
    pub fn move_focus(&mut self, node: NodeId) -> Result<(), NoMemory>
        requires element { IsElement self.old.acting.tree.items node.0 }
        ensures moved { OnOk result (self.new.acting ≡ with_focus_moved node.0 self.old.acting) }
        ensures worked { self.new.worked ≡ self.old.worked }
    {
        if self.has_focus(node) {
            return Ok(());
        }
        let before = self.focus.focus;
        self.set_focus(Focus {
            focus: Some(node),
            active: None,
        });
        if let Some(before) = before {
            self.post(Event::Blur(before.0))?;
        }
        self.post(Event::Focus(node.0))
    }

    /// Moves the focus to an element where it can have it.
    pub fn focus_on(&mut self, node: NodeId) -> Result<(), NoMemory>
        requires element { IsElement self.old.acting.tree.items node.0 }
        ensures focused { OnOk result (self.new.acting ≡ with_focus_asked node.0 self.old.acting) }
    {
        if is_focusable(&self.tree, &mut self.styles, &self.focus, node) {
            self.move_focus(node)?;
        }
        Ok(())
    }

    /// Gives the focus up, where this element has it, and posts `blur`.
    #[tactic(auto, unfolding(crate::specs::Acting::without_focus_of))]
    pub fn leave_focus(&mut self, node: NodeId) -> Result<(), NoMemory>
        ensures left { OnOk result (self.new.acting ≡ without_focus_of node.0 self.old.acting) }
        ensures worked { self.new.worked ≡ self.old.worked }
    {
        if !self.has_focus(node) {
            return Ok(());
        }
        self.set_focus(NO_FOCUS);
        self.post(Event::Blur(node.0))
    }

    /// Gives elements the focus and the active state, or none, and posts nothing.
    pub fn set_focus(&mut self, focus: Focus)
        requires focus { IsElementOf self.old.acting.tree.items focus.focus }
        requires active { IsElementOf self.old.acting.tree.items focus.active }
        ensures acting { self.new.acting ≡ with_focus focus self.old.acting }
        ensures worked { self.new.worked ≡ self.old.worked }
    {
        follow_focus(&self.tree, &mut self.styles, &self.focus, &focus);
        self.focus = focus;
    }

    // Whether this node has the focus.
    fn has_focus(&self, node: NodeId) -> bool
        ensures { result ≡ spec_has_focus node.0 self.now.acting }
    {
        match self.focus.focus {
            Some(focus) => focus.0 == node.0,
            None => false,
        }
    }

    /// Takes the event that waits longest.
    pub fn take_event(&mut self) -> Option<Event>
        ensures event { result ≡ first_of self.old.acting.queue }
        ensures acting { self.new.acting
            ≡ record self.old.acting { queue = drop 1 self.old.acting.queue } }
        ensures worked { self.new.worked ≡ self.old.worked }
        ensures owed { self.new.owed ≡ self.old.owed }
    {
        self.queue.take()
    }

    /// Appends what was printed, which isn't kept any more.
    pub fn give_text(&mut self, out: &mut Vec<u8>) -> Result<(), NoMemory>
        ensures given { OnOk result (out.new.items ≡ out.old.items ++ self.old.acting.text) }
        ensures acting { OnOk result (self.new.acting ≡ record self.old.acting { text = [] }) }
        ensures worked { self.new.worked ≡ self.old.worked }
        ensures grows { StartsWith out.new.items out.old.items }
    {
        law_of_fronts();
        out.extend_from_slice(self.text.as_slice())?;
        self.text.clear();
        Ok(())
    }

    /// Begins what is done for an event: it is the current one, and nothing was launched or printed
    /// yet.
    pub fn prepare(&mut self, event: CurrentEvent)
        ensures acting { self.new.acting
            ≡ record self.old.acting { event = event; launched = None; text = [] } }
        ensures worked { self.new.worked ≡ self.old.worked }
    {
        self.event = event;
        self.launched = None;
        self.text.clear();
    }

    /// Whether a script launched another document.
    pub fn has_launched(&self) -> bool
        ensures { result ≡ is_some self.now.acting.launched }
    {
        self.launched.is_some()
    }

    /// Takes the path of the document that was launched.
    pub fn take_launched(&mut self) -> Option<Path>
        ensures path { result ≡ self.old.acting.launched }
        ensures acting { self.new.acting ≡ record self.old.acting { launched = None } }
        ensures worked { self.new.worked ≡ self.old.worked }
        ensures owed { self.new.owed ≡ self.old.owed }
    {
        mem::replace(&mut self.launched, None)
    }

    /// The function of the timer of a number, and None exactly where no timer has it.
    pub fn timer_function(&self, number: u32) -> Result<Option<Text>, NoMemory>
        ensures { IfOk result (λ function. function ≡ option_map (λ timer. timer.function)
            (timer_of number self.now.acting.browser.timers)) }
    {
        match self.browser.timers.function(number) {
            Some(function) => Ok(Some(function.share()?)),
            None => Ok(None),
        }
    }

    /// An event of the timer of a number was taken or lost: it ends where it goes on no more.
    pub fn settle_timer(&mut self, number: u32)
        ensures acting { self.new.acting ≡ with_timer_settled number self.old.acting }
        ensures worked { self.new.worked ≡ self.old.worked }
    {
        self.browser.timers.settle(number);
    }

    /// The clock goes to a moment, and all timers that are due then fire, in ascending number: their
    /// events are posted. Each fires once where the moment doesn't go past one at which a timer was
    /// due, as the moments that a page passes don't.
    pub fn post_due(&mut self, moment: u64) -> Result<(), NoMemory>
        requires { moment < 2 ^ 62 }
        ensures posted { OnOk result (self.new.acting
            ≡ with_due_events moment (record self.old.acting { now = moment })) }
        ensures worked { self.new.worked ≡ self.old.worked }
    {
        self.time = moment;
        'firings: for _firing in 0..TIMER_LIMIT {
            if !self.fire_timer(moment)? {
                return Ok(());
            }
        }
        Ok(())
    }

    // The first timer that is due at the moment fires. Answers whether there was one.
    fn fire_timer(&mut self, moment: u64) -> Result<bool, NoMemory>
        requires { moment < 2 ^ 62 }
        ensures there { IfOk result (λ there. there
            ≡ is_some (first_due moment self.old.acting.browser.timers)) }
        ensures fired { OnOk result (self.new.acting
            ≡ option_map_or (λ number. with_timer_fired moment number self.old.acting)
            (first_due moment self.old.acting.browser.timers) self.old.acting) }
        ensures worked { self.new.worked ≡ self.old.worked }
    {
        let Some(number) = self.browser.timers.fire(moment) else {
            return Ok(false);
        };
        self.post_timer(number)?;
        Ok(true)
    }

    // Posts the event of a timer that fired, which is settled where it is lost.
    fn post_timer(&mut self, number: u32) -> Result<(), NoMemory>
        ensures posted { OnOk result (self.new.acting ≡ with_timer_event number self.old.acting) }
        ensures worked { self.new.worked ≡ self.old.worked }
    {
        if !self.post_or_lose(Event::Timer(number))? {
            self.settle_timer(number);
        }
        Ok(())
    }

    /// Drops the events that wait, and the timers; their numbers go on.
    pub fn drop_waiting(&mut self)
        ensures acting { self.new.acting ≡ record self.old.acting {
          queue = [];
          browser = with_timers (record self.old.acting.browser.timers { timers = [] })
              self.old.acting.browser;
        } }
        ensures worked { self.new.worked ≡ self.old.worked }
    {
        self.queue.clear();
        self.browser.timers.drop_all();
    }

    /// The element that has the focus.
    pub fn focused(&self) -> Option<NodeId>
        ensures { result ≡ self.now.acting.tree.focus.focus }
    {
        self.focus.focus
    }

    /// No element is active any more.
    pub fn deactivate(&mut self)
        ensures acting { self.new.acting
            ≡ with_focus (record self.old.acting.tree.focus { active = None }) self.old.acting }
        ensures worked { self.new.worked ≡ self.old.worked }
    {
        self.set_focus(Focus {
            focus: self.focus.focus,
            active: None,
        });
    }

    /// Makes the default action of a key: the focus moves, or it becomes active and is clicked, or
    /// an element is given it and clicked.
    pub fn act_by_default(&mut self, key: u8) -> Result<(), NoMemory>
        ensures acted { OnOk result (self.new.acting
            ≡ with_action (action_of self.old.acting.tree key) self.old.acting) }
    {
        match default_of(key, &self.tree, &mut self.styles, &self.focus) {
            KeyDefault::Nothing => Ok(()),
            KeyDefault::Move(node) => self.move_focus(node),
            KeyDefault::Activate(node) => self.activate(node),
            KeyDefault::Access(node) => {
                self.move_focus(node)?;
                self.post(Event::Click(node.0))
            }
        }
    }

    // The element is active, and is clicked.
    fn activate(&mut self, node: NodeId) -> Result<(), NoMemory>
        requires element { IsElement self.old.acting.tree.items node.0 }
        ensures activated { OnOk result (self.new.acting ≡ with_active node.0 self.old.acting) }
        ensures worked { self.new.worked ≡ self.old.worked }
    {
        self.set_focus(Focus {
            focus: self.focus.focus,
            active: Some(node),
        });
        self.post(Event::Click(node.0))
    }

    /// Begins a document whose scripts have run: where none gave the focus to an element, that with
    /// the nav-index 0 gets it; `load` is posted, and then that element's `focus`.
    pub fn begin(&mut self) -> Result<(), NoMemory>
        ensures begun { OnOk result (self.new.acting
            ≡ with_first_events (first_focus self.old.acting) self.old.acting) }
    {
        let first = self.first_focus();
        if let Some(node) = first {
            self.set_focus(Focus {
                focus: Some(node),
                active: None,
            });
        }
        self.post(Event::Load)?;
        match first {
            Some(node) => self.post(Event::Focus(node.0)),
            None => Ok(()),
        }
    }

    // The element that gets the focus where none has it.
    fn first_focus(&mut self) -> Option<NodeId>
        ensures target { number_of result ≡ first_focus self.old.acting }
        ensures within { IsElementOf self.old.acting.tree.items result }
        ensures acting { self.new.acting ≡ self.old.acting }
    {
        if self.focus.focus.is_some() {
            return None;
        }
        nav_target(&self.tree, &mut self.styles, &self.focus, 0)
    }

    /// Whether the used-key-list of the body lets a key pass.
    pub fn passes(&mut self, body: NodeId, key: u8) -> bool
        requires element { IsElement self.old.acting.tree.items body.0 }
        ensures passes { result ≡ passes_list
            (normal_value self.old.acting.tree body.0 property.UsedKeyList) key }
        ensures acting { self.new.acting ≡ self.old.acting }
    {
        let list = self.styles.get(
            &self.tree,
            body,
            State::Normal,
            &self.focus,
            Property::UsedKeyList,
        );
        passes(list, key)
    }

    /// Posts what a key does that passes: `keydown` and then `default` where it is pressed, behind
    /// which the data button is told to the items, and `keyup` where it is released.
    pub fn post_key(&mut self, key: u8, down: bool) -> Result<(), NoMemory>
        ensures posted { OnOk result (self.new.acting ≡ key_posts down key self.old.acting) }
        ensures worked { self.new.worked ≡ self.old.worked }
    {
        if down {
            self.post(Event::KeyDown(key))?;
            self.post(Event::Default(key))?;
            self.tell_button(key)
        } else {
            self.post(Event::KeyUp(key))
        }
    }

    /// Appends the display list: the boxes, texts and pictures, and the focus. No more values are
    /// worked out than were owed.
    pub fn show(&mut self, out: &mut Vec<u8>) -> Result<(), NoMemory>
        ensures shown { OnOk result
            (out.new.items ≡ out.old.items ++ tree_lines self.old.acting.tree) }
        ensures acting { self.new.acting ≡ self.old.acting }
        ensures worked { self.new.worked ≤ self.old.worked + self.old.owed }
        ensures owed { self.new.worked + self.new.owed ≤ self.old.worked + self.old.owed }
        ensures grows { StartsWith out.new.items out.old.items }
    {
        Shower::new().show(&self.tree, &mut self.styles, &self.focus, out)
    }

    /// How many values its styles worked out.
    pub fn worked(&self) -> u64
        ensures { result ≡ self.now.worked }
    {
        self.styles.worked()
    }
}

// What stands in the place of what is lent, as long as nothing is. This takes no memory.
fn placeholder(alloc: Global) -> BrowserState {
    BrowserState {
        ureg: Vec::new(alloc),
        greg: Vec::new(alloc),
        area: AreaBytes::zeros(),
        timers: Timers::new(),
        random: VecDeque::new(alloc),
        date: None,
        tables: OpenTables::new(alloc),
    }
}

// The styles follow a change of the focus and of the active element: each element whose state may
// have changed is told.
fn follow_focus(tree: &Tree, styles: &mut Styles, before: &Focus, after: &Focus)
    requires right { AreStylesOf tree.now before.now styles.old }
    requires old_focus { IsElementOf tree.now before.now.focus }
    requires old_active { IsElementOf tree.now before.now.active }
    requires new_focus { IsElementOf tree.now after.now.focus }
    requires new_active { IsElementOf tree.now after.now.active }
    ensures right { AreStylesOf tree.now after.now styles.new }
    ensures sources { styles.new.sources ≡ styles.old.sources }
    ensures worked { styles.new.worked ≡ styles.old.worked }
{
    touch(tree, styles, before.focus);
    touch(tree, styles, before.active);
    touch(tree, styles, after.focus);
    touch(tree, styles, after.active);
}

// Tells the styles of an element whose state may have changed, where there is one.
fn touch(tree: &Tree, styles: &mut Styles, node: Option<NodeId>)
    requires { IsElementOf tree.now node }
    ensures sources { styles.new.sources ≡ styles.old.sources }
    ensures worked { styles.new.worked ≡ styles.old.worked }
    ensures right { (before after : ℕ → State)
        → ((other : ℕ) → is_node other node ≡ false → after other ≡ before other)
        → IsRight tree.now before styles.old → IsRight tree.now after styles.new }
{
    if let Some(node) = node {
        styles.touch(tree, node);
    }
}

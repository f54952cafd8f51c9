//! The components of a program.

ghost use Rattle.std.specs.Prelude.{◌≡◌, ◌≤◌, length, AllPairs, true, false};
ghost use Rattle.psi_tables.specs.Components.{AreApart, components_of, component_of_stream, is_taken as taken_by, pid_in, tag_in, AreSameMap};
ghost use Rattle.psi_tables.specs.Step.{agree_on as agrees_on, is_same_pid as same_pid, with_next, with_option};

use crate::pmt::PmtStream;
use arrayvec::ArrayVec;

/// The most components of a program.
pub const COMPONENT_LIMIT: usize = 16;

/// A component: a data carousel with its component_tag and the PID of its packets.
#[derive(Clone, Copy, Debug, Default, PartialEq, Eq)]
pub struct Component {
    pub tag: u8,
    pub pid: u16,
}

/// The components that a PMT's streams bring: the first 16 with distinct tags and distinct PIDs.
pub fn components(streams: &[PmtStream]) -> ArrayVec<Component, COMPONENT_LIMIT>
    ensures components { result.items ≡ components_of streams.now }
    ensures apart { AllPairs AreApart result.items }
{
    let mut taken = ArrayVec::new();
    for stream in streams {
        add(&mut taken, component_of(stream));
    }
    taken
}

const DATA_CAROUSEL: u8 = 0x0D;

// The component that a stream brings.
fn component_of(stream: &PmtStream) -> Option<Component>
    ensures { result ≡ component_of_stream stream.now }
{
    if stream.kind != DATA_CAROUSEL {
        return None;
    }
    let tag = stream.component?;
    Some(Component {
        tag,
        pid: stream.pid,
    })
}

// Takes a component where there is one, and room for it, and its tag and PID are new.
fn add(taken: &mut ArrayVec<Component, COMPONENT_LIMIT>, component: Option<Component>)
    ensures { taken.new.items ≡ with_option taken.old.items component }
{
    let Some(component) = component else {
        return;
    };
    if !taken.is_full() && !is_taken(taken.as_slice(), component) {
        taken.push(component);
    }
}

fn is_taken(taken: &[Component], component: Component) -> bool
    ensures { result ≡ taken_by taken.now component }
{
    taken.iter().any(|other| other.tag == component.tag || other.pid == component.pid)
}

/// The PID of a component, where there is such a component.
pub fn pid_of(map: &[Component], tag: u8) -> Option<u16>
    ensures { result ≡ pid_in map.now tag }
{
    map.iter()
        .find(|component| component.tag == tag)
        .map(|component| component.pid)
}

/// The component with a PID, where there is one.
pub fn tag_of(map: &[Component], pid: u16) -> Option<u8>
    ensures { result ≡ tag_in map.now pid }
{
    map.iter()
        .find(|component| component.pid == pid)
        .map(|component| component.tag)
}

/// Whether two lists of components are one map from tags to PIDs.
pub fn are_same_map(map: &[Component], other: &[Component]) -> bool
    ensures same { result ≡ true → AreSameMap map.now other.now }
    ensures differ { result ≡ false → ¬ AreSameMap map.now other.now }
{
    agree_on(map, map, other) && agree_on(other, map, other)
}

// Whether both maps have one PID for the tag of each component of the list.
fn agree_on(list: &[Component], map: &[Component], other: &[Component]) -> bool
    ensures { result ≡ agrees_on list.now map.now other.now }
{
    list.iter().all(|component| is_same_pid(
        pid_of(map, component.tag),
        pid_of(other, component.tag),
    ))
}

// Whether both are the same PID, or both are none.
fn is_same_pid(pid: Option<u16>, other: Option<u16>) -> bool
    ensures { result ≡ same_pid pid other }
{
    match (pid, other) {
        (None, None) => true,
        (Some(pid), Some(other)) => pid == other,
        _ => false,
    }
}

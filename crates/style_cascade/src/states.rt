//! The states of elements.

ghost use Rattle.std.specs.Prelude.{◌≡◌};
ghost use Rattle.style_cascade.specs.States.{is_node as spec_is_node, present_state};

use dom_tree::NodeId;

/// The state for which an element has a style.
#[derive(Clone, Copy, Debug, PartialEq, Eq)]
pub enum State {
    Normal,
    Focus,
    Active,
}

/// Which element has the focus, and which one is active.
#[derive(Clone, Copy, Debug)]
pub struct Focus {
    pub focus: Option<NodeId>,
    pub active: Option<NodeId>,
}

impl Focus {
    /// The state that a node has: an active one is that, also where it has the focus.
    #[tactic(auto, unfolding(crate::specs::States::present_state))]
    pub fn state_of(&self, node: NodeId) -> State
        ensures { result ≡ present_state self.now node.0 }
    {
        if is_node(self.active, node) {
            State::Active
        } else if is_node(self.focus, node) {
            State::Focus
        } else {
            State::Normal
        }
    }
}

fn is_node(found: Option<NodeId>, node: NodeId) -> bool
    ensures { result ≡ spec_is_node node.0 found }
{
    match found {
        Some(found) => found.0 == node.0,
        None => false,
    }
}

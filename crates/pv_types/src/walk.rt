ghost use Rattle.std.specs.Prelude.{◌≡◌};
ghost use Rattle.pv_ast.specs.Rules.Scoping.{nothing_visible};
ghost use Rattle.pv_ast.specs.Rules.Statements.{no_messages};
ghost use Rattle.pv_types.specs.Walks.{messages_in, labels_in};

use crate::Visible;
use crate::labels::Messages;
use pv_ast::Fault;
use std::alloc::Global;
use std::mem;

/// What is kept on the way through a body: the names in scope, the first fault so far, and the labels of the messages of the
/// counted loop around.
#[derive(Drop)]
pub(crate) struct Walk {
    pub visible: Visible,
    pub first: Option<Fault>,
    pub messages: Messages,
}

impl Walk {
    /// With no name in scope and no message.
    pub(crate) fn new(alloc: Global, first: Option<Fault>) -> Walk
        ensures visible { result.visible ≡ nothing_visible }
        ensures first { result.first ≡ first }
        ensures messages { messages_in result ≡ no_messages }
    {
        Walk {
            visible: Visible::new(alloc),
            first,
            messages: Messages::new(alloc),
        }
    }

    /// Takes the messages out, and leaves none.
    pub(crate) fn take_messages(&mut self) -> Messages
        ensures took { labels_in result ≡ messages_in self.old }
        ensures left { messages_in self.new ≡ no_messages }
        ensures visible { self.new.visible ≡ self.old.visible }
        ensures first { self.new.first ≡ self.old.first }
    {
        let none = Messages::new(self.messages.alloc);
        mem::replace(&mut self.messages, none)
    }
}

use port_inbox::{ContInbox, EventInbox, MessageInbox};

/// What stands at a port: nothing at an output, an input for values that no connection feeds, or an inbox.
#[derive(Debug, Drop)]
pub enum PortInbox {
    Silent,
    Unfed,
    Hears(EventInbox),
    Listens(MessageInbox),
    Follows(ContInbox),
}

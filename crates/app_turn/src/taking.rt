//! Room for a block, and a block more.
ghost use Rattle.std.specs.Prelude.{◌≡◌, ◌<◌, ◌-◌, ◌^◌, OnOk, length, slice_set};
ghost use Rattle.port_inbox.specs.Due.{AreShort};
ghost use Rattle.app_turn.specs.PortInboxes.{HasPlace, HasRoom, IsRoomier, IsRoomierAt, admitted_by, inbox_at, with_admitted};

use crate::PortInbox;
use music_base::{Block, NoMemory, PortId};

/// Makes room for one block more of the connection at this place of a port.
pub fn make_room(inboxes: &mut Vec<PortInbox>, port: PortId, place: u32) -> Result<(), NoMemory>
    requires port { port < length inboxes.old.items }
    requires place { HasPlace (inbox_at inboxes.old.items port) place }
    ensures same { IsRoomier inboxes.old.items port place inboxes.new.items }
    ensures room { OnOk result (HasRoom (inbox_at inboxes.new.items port) place) }
{
    room_at(&mut inboxes[port.0 as usize], place)
}

fn room_at(inbox: &mut PortInbox, place: u32) -> Result<(), NoMemory>
    requires { HasPlace inbox.old place }
    ensures same { IsRoomierAt inbox.old place inbox.new }
    ensures room { OnOk result (HasRoom inbox.new place) }
{
    match inbox {
        PortInbox::Hears(inbox) => inbox.reserve(place),
        PortInbox::Listens(inbox) => inbox.reserve(place),
        _ => Ok(()),
    }
}

/// Admits the next block of the connection at this place of a port. It takes no memory.
pub fn admit(inboxes: &mut Vec<PortInbox>, port: PortId, place: u32, block: Block)
    requires port { port < length inboxes.old.items }
    requires place { HasPlace (inbox_at inboxes.old.items port) place }
    requires room { HasRoom (inbox_at inboxes.old.items port) place }
    requires number { block.number ≡ admitted_by (inbox_at inboxes.old.items port) place }
    requires short { AreShort block.items }
    requires count { block.number < 2 ^ 64 - 1 }
    ensures { inboxes.new.items ≡ slice_set inboxes.old.items port (with_admitted (inbox_at inboxes.old.items port) place block) }
{
    admit_at(&mut inboxes[port.0 as usize], place, block)
}

fn admit_at(inbox: &mut PortInbox, place: u32, block: Block)
    requires place { HasPlace inbox.old place }
    requires room { HasRoom inbox.old place }
    requires number { block.number ≡ admitted_by inbox.old place }
    requires short { AreShort block.items }
    requires count { block.number < 2 ^ 64 - 1 }
    ensures { inbox.new ≡ with_admitted inbox.old place block }
{
    match inbox {
        PortInbox::Hears(inbox) => inbox.admit(place, block),
        PortInbox::Listens(inbox) => inbox.admit(place, block),
        PortInbox::Follows(inbox) => inbox.admit(block),
        _ => drop(block),
    }
}

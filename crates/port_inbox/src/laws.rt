//! Laws over inboxes for events and messages: whose they are, what they hold of a table, and what they answer of it. They
//! speak of the changes that the calls make: room is reserved, a block is admitted, a step is delivered.
ghost use Rattle.std.specs.Prelude.{◌≡◌, ◌<◌, ◌≤◌, ℕ, Bool, List, [], length, slice_index};
ghost use Rattle.std.specs.List.{filter};
ghost use Rattle.music_base.specs.Pairs.{AllPaired};
ghost use Rattle.music_base.specs.declared.item.Block.{Block};
ghost use Rattle.music_base.specs.declared.item.Item.{Item};
ghost use Rattle.scene_model.specs.Scenes.{links_to};
ghost use Rattle.scene_model.specs.Tables.{Table, block_on};
ghost use Rattle.scene_model.specs.declared.scene.Scene.{Scene};
ghost use Rattle.event_routes.specs.Routing.{Route};
ghost use Rattle.port_inbox.specs.Arrivals.{delivered};
ghost use Rattle.port_inbox.specs.Due.{IsNumbered, items_numbered, left_in};
ghost use Rattle.port_inbox.specs.Holding.{HasLinesOf, HoldsFrom, IsFed, IsInboxOf, IsMadeFor, IsMessageInboxOf, IsRoutesOf, IsTold, heard, words_heard};
ghost use Rattle.port_inbox.specs.Inboxes.{Inbox, Line, fresh_inbox, line_at, moved_to, with_block, with_line};
ghost use Rattle.port_inbox.specs.Words.{words_delivered};
ghost use Rattle.port_inbox.specs.declared.arrivals.InboxLink.{InboxLink};

/// An inbox that was made for the connections to a port is that of the port, and holds every table from every step on.
pub fn made_inboxes_hold()
    ensures events { (scene : Scene) (b p : ℕ) (links : List InboxLink) (routes : List (List Route)) (starts ticks : ℕ) →
        IsMadeFor scene b p links starts ticks → AllPaired (IsRoutesOf scene) (links_to scene b p) routes →
        IsInboxOf scene b p (fresh_inbox links routes starts ticks) }
    ensures messages { (scene : Scene) (b p : ℕ) (links : List InboxLink) (starts ticks : ℕ) →
        IsMadeFor scene b p links starts ticks → IsMessageInboxOf scene b p (fresh_inbox links [] starts ticks) }
    ensures holds { (scene : Scene) (b p j : ℕ) (table : Table) (links : List InboxLink) (routes : List (List Route)) (starts ticks : ℕ) →
        IsMadeFor scene b p links starts ticks → HoldsFrom scene b p (fresh_inbox links routes starts ticks).lines table j }
{}

/// The inbox of a port stays its inbox.
pub fn inboxes_stay()
    ensures reserved { (scene : Scene) (b p link spare : ℕ) (inbox : Inbox) → link < length inbox.lines →
        HasLinesOf scene b p inbox → HasLinesOf scene b p (with_line inbox link (record (line_at inbox link) { spare = spare })) }
    ensures admitted { (scene : Scene) (b p link : ℕ) (inbox : Inbox) (block : Block) → link < length inbox.lines →
        block.number ≡ (line_at inbox link).admitted →
        HasLinesOf scene b p inbox → HasLinesOf scene b p (with_line inbox link (with_block (line_at inbox link) block)) }
    ensures delivered { (scene : Scene) (b p step : ℕ) (inbox : Inbox) →
        HasLinesOf scene b p inbox → HasLinesOf scene b p (moved_to step inbox) }
{}

/// What an inbox holds of a table from a step on, it holds from a later one on, after room was reserved, after the next block of
/// the table was admitted, and after that step was delivered.
pub fn inboxes_hold()
    ensures later { (scene : Scene) (b p i j : ℕ) (table : Table) (lines : List Line) → i ≤ j →
        HoldsFrom scene b p lines table i → HoldsFrom scene b p lines table j }
    ensures reserved { (scene : Scene) (b p link spare j : ℕ) (table : Table) (inbox : Inbox) → link < length inbox.lines →
        HoldsFrom scene b p inbox.lines table j →
        HoldsFrom scene b p (with_line inbox link (record (line_at inbox link) { spare = spare })).lines table j }
    ensures admitted { (scene : Scene) (b p link j : ℕ) (table : Table) (inbox : Inbox) (block : Block) → link < length inbox.lines →
        block.number ≡ (line_at inbox link).admitted →
        block.items ≡ block_on scene table (slice_index (links_to scene b p) link) block.number →
        HasLinesOf scene b p inbox → HoldsFrom scene b p inbox.lines table j →
        HoldsFrom scene b p (with_line inbox link (with_block (line_at inbox link) block)).lines table j }
    ensures delivered { (scene : Scene) (b p step : ℕ) (table : Table) (inbox : Inbox) →
        HasLinesOf scene b p inbox → HoldsFrom scene b p inbox.lines table step →
        HoldsFrom scene b p (moved_to step inbox).lines table step }
{}

/// An inbox for events that holds a proper table, and to which just the wanted blocks were admitted, answers the arrivals of the
/// step with their targets. A second delivery of the step answers the same.
pub fn inboxes_answer()
    ensures heard { (scene : Scene) (b p : ℕ) (table : Table) (step : ℕ) (inbox : Inbox) →
        IsFed scene b p inbox table step → delivered step inbox ≡ heard scene table b p step }
    ensures again { (step : ℕ) (inbox : Inbox) → delivered step (moved_to step inbox) ≡ delivered step inbox }
{}

/// An inbox for messages answers the words of the step in the same way.
pub fn message_inboxes_answer()
    ensures heard { (scene : Scene) (b p : ℕ) (table : Table) (step : ℕ) (inbox : Inbox) →
        IsTold scene b p inbox table step → words_delivered step inbox ≡ words_heard scene table b p step }
    ensures again { (step : ℕ) (inbox : Inbox) → words_delivered step (moved_to step inbox) ≡ words_delivered step inbox }
{}

/// What is left of the block of a number, where items are left out, are those of its items that pass.
pub fn blocks_left_by_number()
    ensures { (test : Item → Bool) (a n k : ℕ) (blocks : List Block) → IsNumbered a n blocks →
        items_numbered (left_in test blocks) k ≡ filter test (items_numbered blocks k) }
{}

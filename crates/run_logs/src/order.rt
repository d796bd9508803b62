//! The order of rows.
ghost use Rattle.std.specs.Prelude.{◌≡◌};
ghost use Rattle.scene_model.specs.Logs.{row_cmp};

use scene_model::Row;
use std::cmp::Ordering;

/// Compares two rows by clock, application, port and rank, in this order. Of rows that are equal in these, the log
/// keeps the places in the list of their step.
pub fn row_order(a: &Row, b: &Row) -> Ordering
    ensures { result ≡ row_cmp a.now b.now }
{
    a.clock
        .cmp(&b.clock)
        .then(a.app.cmp(&b.app))
        .then(a.port.cmp(&b.port))
        .then(a.rank.cmp(&b.rank))
}

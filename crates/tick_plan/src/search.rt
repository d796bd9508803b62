ghost use Rattle.std.specs.Prelude.{◌≡◌, ℕ, List, IfOk};
ghost use Rattle.scene_model.specs.declared.wait.Wait.{Wait};
ghost use Rattle.tick_plan.specs.Heights.{IsSearch};

use crate::heights::no_heights;
use music_base::NoMemory;
use scene_model::Wait;
use std::alloc::Global;

/// A search for potentials or a cycle that is not covered, application by application.
#[derive(Drop)]
pub(crate) struct Search {
    /// How high it lies now.
    pub(crate) heights: Vec<u128>,
    /// A walk from it that gives it this height: each wait raises its waiter above the application that it awaits.
    pub(crate) walks: Vec<Vec<Wait>>,
}

/// The search before any wait is relaxed: each application lies at 0.
pub(crate) fn start(alloc: Global, applications: u32) -> Result<Search, NoMemory>
    ensures { IfOk result (λ search. (all : List Wait) → IsSearch applications all search) }
{
    let heights = no_heights(alloc, applications)?;
    let mut walks = Vec::new(alloc);
    for _ in 0..applications {
        walks.push(Vec::new(alloc))?;
    }
    Ok(Search { heights, walks })
}

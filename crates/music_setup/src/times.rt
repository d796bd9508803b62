//! When an application runs.
ghost use Rattle.std.specs.Prelude.{◌≡◌, ◌≤◌};
ghost use Rattle.music_base.specs.Clocks.{steps_until};
ghost use Rattle.music_setup.specs.Apps.{span_of};

use music_base::{Nanos, steps_of};

/// When an application runs, in ns: each tick from its start on, before its stop.
#[derive(Clone, Copy)]
pub(crate) struct Times {
    pub(crate) start: Nanos,
    pub(crate) stop: Nanos,
    pub(crate) tick: Nanos,
}

/// How many steps an application of these times makes.
pub(crate) fn steps_in(times: Times) -> u64
    requires { 1 ≤ times.tick }
    ensures { result ≡ steps_until (span_of times) times.tick }
{
    steps_of(
        Nanos(times.stop.0.saturating_sub(times.start.0)),
        times.tick,
    )
}

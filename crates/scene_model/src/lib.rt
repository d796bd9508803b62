//! Scenes, as plain data, and the model of what happens in one.
//!
//! The model stands in specs/: clocks, the table of what every application's steps put out, what a step of an input
//! reads of it, the turn that an application's rules make of that, the one history of a scene, its log, and what a scene
//! without a fault is. No buffer, route or worker stands in it. Whatever runs a scene is held to it.
#![tactic(auto)]

mod accepted_laws;
mod act;
mod clocks;
mod cover_laws;
mod ends;
mod fault_laws;
mod laws;
mod life_laws;
mod limits;
mod order_laws;
mod port;
mod row;
mod rule;
mod scene;
mod table_laws;
mod time_laws;
mod together_laws;
mod wait;
mod worked_orders;
mod worked_times;

pub use accepted_laws::{
    accepted_scenes_are_not_refused, faultless_accepted_scenes_are_live,
    scenes_are_accepted_or_refused,
};
pub use act::Act;
pub use clocks::{allowance_of, delay_of, latency_of, wanted_blocks};
pub use cover_laws::passed_waits_are_covered;
pub use fault_laws::{faultless_by_place, worked_faults_show, worked_scenes_have_no_fault};
pub use laws::{worked_events_hold, worked_log_holds, worked_turns_hold, worked_values_hold};
pub use life_laws::{history_can_be_written, lives_are_proper, values_of_the_history_fit};
pub use limits::{
    GREATEST_DENOMINATOR, GREATEST_INDEX, GREATEST_NUMERATOR, GREATEST_SHIFT, LONGEST_TICK,
    MOST_PERIODS, MOST_PORTS, MOST_RANKS, MOST_RULES, MOST_STEPS, MOST_VALUES,
};
pub use order_laws::{
    accepted_scenes_are_live, accepted_scenes_have_limits, acts_are_of_unfinished,
    acts_keep_counts_sound, covered_waits_have_potentials, limits_are_one, live_scenes_can_finish,
    plans_that_fit_are_live, plans_that_fit_leave_an_act,
};
pub use port::{Direction, PortDecl, PortKind};
pub use row::{Row, RowItem};
pub use rule::Rule;
pub use scene::{AppDecl, Link, Scene};
pub use table_laws::{
    accepted_scenes_have_one_history, dues_are_by_clock, one_table_is_fixed,
    stable_sorts_put_in_order, step_rows_are_of_what_is_read, steps_want_what_they_read,
    what_passed_begins_a_table, what_passed_is_the_history,
};
pub use time_laws::times_are_periods_apart;
pub use together_laws::{connections_that_state_nothing, scenes_that_run_together};
pub use wait::{Wait, WaitKind};
pub use worked_orders::{
    worked_cycles_hold, worked_limits_hold, worked_order_holds, worked_scenes_are_accepted,
};
pub use worked_times::{
    worked_connections_hold, worked_dues_hold, worked_late_values_hold, worked_latencies_hold,
    worked_starts_and_stops_hold, worked_starts_in_cycles_hold,
};

//! The commands `check` and `plan`: each kind of fault, each limit and what lies past it, the first of two faults, cycles of
//! waits, and limits of connections.
use crate::cycle_tables::{
    BOTH_ROOM, DETOUR_PLANS, DETOURS, FIRST_LOOPS, LATE_LOOPS, LOOP_PLANS, LOOPS, MESSAGE_LOOPS,
    OWN_LOOPS, RINGS_OF_THREE, ROOM, ROOM_PLANS, SLOW_PLANS, SLOW_VALUES, STATED_LATENCIES,
    TWO_LOOPS, VALUE_LOOPS, WHOLE_PLANS,
};
use crate::port_tables::{CONNECTION_LINES, CONNECTIONS, PORTS, PORTS_OF_TWO};
use crate::rule_tables::RULES;
use crate::scene_tables::{
    LAST_ORDERS, ORDERS, PERIODS, SETTINGS, SINKS, SOURCES, STARTS, STEPS, VALUES, WHOLE_TEXTS,
};
use crate::tables::is_answered;

#[test]
fn whole_texts_are_checked(rt: HostRuntime) {
    is_answered(&rt, rt.alloc(), "check", &WHOLE_TEXTS);
    is_answered(&rt, rt.alloc(), "check", &SOURCES);
    is_answered(&rt, rt.alloc(), "check", &SINKS);
    is_answered(&rt, rt.alloc(), "check", &VALUES);
}

#[test]
fn settings_are_checked(rt: HostRuntime) {
    is_answered(&rt, rt.alloc(), "check", &SETTINGS);
    is_answered(&rt, rt.alloc(), "check", &STARTS);
    is_answered(&rt, rt.alloc(), "check", &STEPS);
    is_answered(&rt, rt.alloc(), "check", &PERIODS);
}

#[test]
fn the_first_of_two_faults_is_named(rt: HostRuntime) {
    is_answered(&rt, rt.alloc(), "check", &ORDERS);
    is_answered(&rt, rt.alloc(), "check", &LAST_ORDERS);
}

#[test]
fn ports_and_rules_are_checked(rt: HostRuntime) {
    is_answered(&rt, rt.alloc(), "check", &PORTS);
    is_answered(&rt, rt.alloc(), "check", &PORTS_OF_TWO);
    is_answered(&rt, rt.alloc(), "check", &RULES);
}

#[test]
fn connections_are_checked(rt: HostRuntime) {
    is_answered(&rt, rt.alloc(), "check", &CONNECTIONS);
    is_answered(&rt, rt.alloc(), "check", &CONNECTION_LINES);
}

#[test]
fn loops_are_checked(rt: HostRuntime) {
    is_answered(&rt, rt.alloc(), "check", &LOOPS);
    is_answered(&rt, rt.alloc(), "check", &LATE_LOOPS);
    is_answered(&rt, rt.alloc(), "check", &STATED_LATENCIES);
    is_answered(&rt, rt.alloc(), "check", &MESSAGE_LOOPS);
    is_answered(&rt, rt.alloc(), "check", &FIRST_LOOPS);
}

#[test]
fn other_cycles_are_checked(rt: HostRuntime) {
    is_answered(&rt, rt.alloc(), "check", &OWN_LOOPS);
    is_answered(&rt, rt.alloc(), "check", &VALUE_LOOPS);
    is_answered(&rt, rt.alloc(), "check", &SLOW_VALUES);
    is_answered(&rt, rt.alloc(), "check", &RINGS_OF_THREE);
    is_answered(&rt, rt.alloc(), "check", &TWO_LOOPS);
}

#[test]
fn room_is_checked(rt: HostRuntime) {
    is_answered(&rt, rt.alloc(), "check", &ROOM);
    is_answered(&rt, rt.alloc(), "check", &BOTH_ROOM);
    is_answered(&rt, rt.alloc(), "check", &DETOURS);
}

#[test]
fn limits_are_planned(rt: HostRuntime) {
    is_answered(&rt, rt.alloc(), "plan", &WHOLE_PLANS);
    is_answered(&rt, rt.alloc(), "plan", &SLOW_PLANS);
    is_answered(&rt, rt.alloc(), "plan", &LOOP_PLANS);
    is_answered(&rt, rt.alloc(), "plan", &ROOM_PLANS);
    is_answered(&rt, rt.alloc(), "plan", &DETOUR_PLANS);
}

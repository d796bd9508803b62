//! The commands `run` and `order`: logs and orders, byte by byte.
use crate::log_tables::{BARE_LOGS, LOOP_LOGS, NETWORK_LOG, ORDERS, SPIKE_LOGS, VALUE_LOGS};
use crate::tables::is_answered;

#[test]
fn events_are_logged(rt: HostRuntime) {
    is_answered(&rt, rt.alloc(), "run", &BARE_LOGS);
    is_answered(&rt, rt.alloc(), "run", &SPIKE_LOGS);
    is_answered(&rt, rt.alloc(), "run", &LOOP_LOGS);
}

#[test]
fn every_kind_of_port_is_logged(rt: HostRuntime) {
    is_answered(&rt, rt.alloc(), "run", &VALUE_LOGS);
    is_answered(&rt, rt.alloc(), "run", &NETWORK_LOG);
}

#[test]
fn the_one_order_is_written(rt: HostRuntime) {
    is_answered(&rt, rt.alloc(), "order", &ORDERS);
}

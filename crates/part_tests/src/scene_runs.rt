//! Scenes that one worker runs to their ends.
ghost use Rattle.std.specs.Prelude.{◌≤◌, ◌^◌};

use crate::logs::{LOG, SCENE};
use music_base::{AppId, MemorySink, NoMemory};
use music_setup::setup;
use run_logs::{LogSize, WriteFault};
use scene_model::Act;
use std::alloc::Global;
use step_core::{run_alone, run_counted, run_to_sink};

/// A spike each millisecond, for three steps.
const SPIKES: &[u8] = b"stoptime=0.003
binary=script
timestep=0.001
[gen]
ports=out event spikes 0+10
args=emit spikes 3 every 0.001 from 0.0005
[sink]
ports=in event in 0+10
gen.spikes -> sink.in [10]
";

/// The same for ten thousand steps.
const MANY_SPIKES: &[u8] = b"stoptime=10
binary=script
timestep=0.001
[gen]
ports=out event spikes 0+10
args=emit spikes 3 every 0.001 from 0.0005
[sink]
ports=in event in 0+10
gen.spikes -> sink.in [10]
";

/// What a run wrote into a sink with room for so many bytes, and why it was not all.
fn written(
    alloc: Global,
    text: &[u8],
    room: u64,
) -> Result<(MemorySink, Option<WriteFault>), NoMemory>
    requires { room ≤ 10 ^ 9 }
{
    let Ok(ready) = setup(alloc, text) else {
        return Err(NoMemory);
    };
    let mut sink = MemorySink::make(alloc, 1000, room)?;
    let fault = run_to_sink(alloc, ready.scene(), ready.plan(), &mut sink).err();
    Ok((sink, fault))
}

/// How large a run's log is counted.
fn counted(alloc: Global, text: &[u8]) -> Result<LogSize, NoMemory> {
    let Ok(ready) = setup(alloc, text) else {
        return Err(NoMemory);
    };
    run_counted(alloc, ready.scene(), ready.plan())
}

/// How many acts a run did, and whether the last one was a step of this application.
fn acts_of(alloc: Global, text: &[u8], last: AppId) -> Result<(usize, bool), NoMemory> {
    let Ok(ready) = setup(alloc, text) else {
        return Err(NoMemory);
    };
    let (_, acts) = run_alone(alloc, ready.scene(), ready.plan())?;
    let is_last = match acts.as_slice().last() {
        Some(Act::Run(app)) => *app == last,
        _ => false,
    };
    Ok((acts.len(), is_last))
}

#[test]
fn a_run_writes_the_log(rt: HostRuntime) {
    let Ok((sink, fault)) = written(rt.alloc(), SCENE, 2000) else {
        panic!(rt; "the scene is run");
    };
    assert!(rt; fault.is_none());
    assert!(rt; sink.taken() == LOG);
}

#[test]
fn a_full_sink_has_a_first_part_of_the_log(rt: HostRuntime) {
    let Ok((sink, fault)) = written(rt.alloc(), SCENE, 100) else {
        panic!(rt; "the scene is run");
    };
    assert!(rt; fault == Some(WriteFault::Sink));
    assert!(rt; sink.taken().len() == 100 && LOG.starts_with(sink.taken()));
}

// The rows are more than are held at once.
#[test]
fn a_long_run_writes_each_line(rt: HostRuntime) {
    let Ok((sink, fault)) = written(rt.alloc(), MANY_SPIKES, 1_000_000) else {
        panic!(rt; "the scene is run");
    };
    assert!(rt; fault.is_none());
    let lines = sink.taken().iter().filter(|byte| **byte == b'\n').count();
    assert!(rt; lines == 10_001);
    let last = b"\n9999000000,sink,in,event,0,3,3,9999500000,\n";
    assert!(rt; sink.taken().ends_with(last));
}

#[test]
fn a_log_is_counted(rt: HostRuntime) {
    let bytes = LOG.len() as u64;
    assert!(rt; counted(rt.alloc(), SCENE) == Ok(LogSize { rows: 16, bytes }));
}

// The rows are more than are held at once.
#[test]
fn a_long_log_is_counted_as_it_is_written(rt: HostRuntime) {
    let Ok((sink, _)) = written(rt.alloc(), MANY_SPIKES, 1_000_000) else {
        panic!(rt; "the scene is run");
    };
    let bytes = sink.taken().len() as u64;
    let size = LogSize {
        rows: 10_000,
        bytes,
    };
    assert!(rt; counted(rt.alloc(), MANY_SPIKES) == Ok(size));
}

// Each application has three steps, and each of three blocks is put and taken. The last step of the receiver needs all else.
#[test]
fn a_run_does_each_act_once(rt: HostRuntime) {
    assert!(rt; acts_of(rt.alloc(), SPIKES, AppId(1)) == Ok((12, true)));
}

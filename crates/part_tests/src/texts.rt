//! Texts of scenes.
use std::alloc::{AllocError, Global};

/// A source of events, and a sink of which one step lasts as long as ten of the source.
pub const SPIKES: &[u8] = b"stoptime=0.02
[gen]
np=1
binary=script
timestep=0.001
ports=out event spikes 0+10
args=emit spikes 3 every 0.004 from 0.0005
[sink]
np=1
binary=script
timestep=0.01
ports=in event in 0+10
gen.spikes -> sink.in [10]
";

/// An application of two processes with ports of every kind, a rule of every form, a start and a stop of its own, and a
/// connection to itself that states all that it can.
pub const EVERY_RULE: &[u8] = b"stoptime=0.003
binary=script
timestep=0.001
[app]
np=2
start=0.0005
stoptime=0.0025
ports=out event spikes 0+4/4+6; in event in 3,1/2,0 latency 2e-9; out cont level split:0+4; \
    in cont seen split:2+5 delay 1e-9 hold buffered 7; out message note; in message cmd
args=emit spikes 3 at 0.0005; emit spikes 3 every 0.001 from 5e-4; \
    pass in to spikes shift -2 after 0; set level 1 0.5; ramp level 0 from -1 by 0.001; \
    copy seen to level scale -1/2 add 0.25; when seen 3 over 0.25 emit spikes 9; \
    say note go-1.5 every 0.002 from 0; reply cmd to note after 0.0009
app.in <- app.spikes [10] latency=3e-9 buffered=9
";

/// A text of so many blanks.
pub fn blanks(alloc: Global, count: usize) -> Result<Vec<u8>, AllocError> {
    vec![in alloc; b' '; count]
}

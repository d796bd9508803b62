//! The scene of the spikes and its log, and words.
use std::alloc::{AllocError, Global};

pub const SPIKES: &str = "stoptime=0.003
[gen]
np=1
binary=script
timestep=0.001
ports=out event spikes 0+10
args=emit spikes 3 every 0.001 from 0.0005
[sink]
np=1
binary=script
timestep=0.001
ports=in event in 0+10
gen.spikes -> sink.in [10]
";

/// The same, where the sink maps two indices that no event has.
pub const UNHEARD: &str = "stoptime=0.003
[gen]
np=1
binary=script
timestep=0.001
ports=out event spikes 0+10
args=emit spikes 3 every 0.001 from 0.0005
[sink]
np=1
binary=script
timestep=0.001
ports=in event in 0+2
gen.spikes -> sink.in [10]
";

/// The same, where the sink's ticks are ten of the source's, and an event comes every four.
pub const SLOW: &str = "stoptime=0.02
[gen]
np=1
binary=script
timestep=0.001
ports=out event spikes 0+10
args=emit spikes 3 every 0.004 from 0.0005
[sink]
np=1
binary=script
timestep=0.01
ports=in event in 0+10
gen.spikes -> sink.in [10]
";

/// Five applications and six connections, of events, values and messages.
pub const TWO_NETWORKS: &str = "stoptime=0.004
binary=script
[clk]
np=1
timestep=0.001
ports=out event tick 0+4; out message note
args=emit tick 0 every 0.001 from 0; say note go every 0.002 from 0.0005
[left]
np=2
timestep=0.001
ports=in event in split:0+4 latency 0.001; out event out split:0+4
args=pass in to out shift 1 after 0.0002
[right]
np=1
timestep=0.002
ports=in event in 0+4 latency 0.002; out event out 0+4
args=pass in to out shift 1 after 0
[wave]
np=1
timestep=0.002
ports=out cont level 0+2; in message cmd
args=ramp level 0 from 0 by 1; set level 1 0.5
[watch]
np=1
timestep=0.001
ports=in cont level 0+2 delay 0.002; in event seen 0+4; out event alarm 0+1
args=when level 0 over 0.25 emit alarm 0
clk.tick -> left.in [4]
left.out -> right.in [4]
right.out -> left.in [4]
right.out -> watch.seen [4]
clk.note -> wave.cmd
wave.level -> watch.level [2]
";

pub const HEADER: &str = "clock,app,port,kind,rank,local,global,time,value\n";

pub const SPIKES_LOG: &str = "clock,app,port,kind,rank,local,global,time,value
0,sink,in,event,0,3,3,500000,
1000000,sink,in,event,0,3,3,1500000,
2000000,sink,in,event,0,3,3,2500000,
";

pub const SLOW_LOG: &str = "clock,app,port,kind,rank,local,global,time,value
0,sink,in,event,0,3,3,500000,
0,sink,in,event,0,3,3,4500000,
0,sink,in,event,0,3,3,8500000,
10000000,sink,in,event,0,3,3,12500000,
10000000,sink,in,event,0,3,3,16500000,
";

pub const USAGE: &str =
    "usage: music check | plan | order | run [--workers N] | load --number N [--workers N]\n";

/// Words as the program gets them.
pub fn words_of(alloc: Global, words: &[&str]) -> Result<Vec<String>, AllocError> {
    let mut list = Vec::new(alloc);
    for word in words {
        list.push(String::from_str(alloc, word)?)?;
    }
    Ok(list)
}

/// A text of so many blanks.
pub fn blanks(alloc: Global, count: usize) -> Result<Vec<u8>, AllocError> {
    vec![in alloc; b' '; count]
}

//! A run to which memory may be refused: it is made to fail at each request in turn, apart from the ordinary run of the
//! tests. Here memory is found.
use crate::runs::{RUN, ends_of};
use crate::texts::SPIKES_LOG;
use music_cli::music_alone;

fn is_log_or_prefix(status: u8, taken: &[u8]) -> bool {
    let log = SPIKES_LOG.as_bytes();
    if status == 0 {
        taken == log
    } else {
        status == 8 && log.starts_with(taken)
    }
}

#[test]
fn a_log_or_a_prefix_of_it(rt: HostRuntime) {
    let alloc = rt.alloc();
    // Where memory is refused to what the run needs to begin, there is no case.
    if let Ok(mut ends) = ends_of(alloc, &RUN) {
        let status = music_alone(alloc, &ends.words, &mut ends.source, &mut ends.sink);
        let taken = ends.sink.taken();
        assert!(rt; is_log_or_prefix(status, taken), "status {status}");
    }
}

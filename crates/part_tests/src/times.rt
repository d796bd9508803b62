//! Times, read and written.
use music_base::{Nanos, NoMemory, TimeFault, read_time, write_time};
use std::alloc::Global;

/// Texts, and the time in ns that each spells, or its fault.
const READ: &[(&[u8], Result<u64, TimeFault>)] = &[
    (b"1e-3", Ok(1_000_000)),
    (b".5", Ok(500_000_000)),
    (b"1.50e0", Ok(1_500_000_000)),
    (b"0e-99", Ok(0)),
    (b"1000000", Ok(1_000_000_000_000_000)),
    (b"1000001", Err(TimeFault::Range)),
    (b"1e-10", Err(TimeFault::NotWhole)),
    (b"", Err(TimeFault::Spelling)),
    (b".", Err(TimeFault::Spelling)),
    (b"1e", Err(TimeFault::Spelling)),
    (b"-1", Err(TimeFault::Spelling)),
];

/// Times in ns, and how each is written.
const WRITTEN: &[(u64, &[u8])] = &[
    (1_500_000_000, b"1.5"),
    (0, b"0"),
    (1_000_000, b"0.001"),
    (1_000_000_000_000_000, b"1000000"),
];

fn nanos_in(text: &[u8]) -> Result<u64, TimeFault> {
    Ok(read_time(text)?.0)
}

fn is_written_as(alloc: Global, time: u64, text: &[u8]) -> Result<bool, NoMemory> {
    let written = write_time(alloc, Nanos(time))?;
    Ok(written.as_slice() == text)
}

#[test]
fn times_are_read(rt: HostRuntime) {
    for (text, time) in READ {
        assert_eq!(rt; nanos_in(text), *time);
    }
}

#[test]
fn times_are_written(rt: HostRuntime) {
    for (time, text) in WRITTEN {
        assert!(rt;
            is_written_as(rt.alloc(), *time, text) == Ok(true),
            "at {time}"
        );
    }
}

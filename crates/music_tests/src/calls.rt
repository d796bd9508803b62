//! Calls that ask for memory, where there is enough of it.
use crate::texts::SPIKES;
use music_base::{MemorySource, NoMemory, read_all};
use std::alloc::Global;

fn source_of(alloc: Global, text: &[u8]) -> Result<MemorySource, NoMemory> {
    let fails = Vec::new(alloc);
    Ok(MemorySource::make(text.to_vec(alloc)?, 100, fails))
}

// Whether the text is read as it is.
fn is_read_whole(alloc: Global, text: &[u8]) -> Result<bool, NoMemory> {
    let mut source = source_of(alloc, text)?;
    match read_all(alloc, &mut source, 1000) {
        Ok(bytes) => Ok(bytes.as_slice() == text),
        Err(_) => Ok(false),
    }
}

#[test]
fn a_text_is_read_whole(rt: HostRuntime) {
    assert!(rt; is_read_whole(rt.alloc(), SPIKES.as_bytes()) == Ok(true));
}

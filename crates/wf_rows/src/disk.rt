//! Files of the disk at a limit.

use std::alloc::Global;
use std::rt::Files;
use wf_outside::{LoadFault, Loaded, Shelf};
use wf_system::DiskShelf;

// A file of ten bytes, and one that is not there.
const TEN: &str = "ten";

const NONE: &str = "eleven";

/// How many of three loads are right: of a file as long as the limit, which is given whole; of one
/// that is a byte longer; and of one that is not there.
pub fn count_loads(rt: &impl Files, alloc: Global) -> u32 {
    let mut disk = DiskShelf::new(rt);
    is_whole(disk.load(alloc, TEN, 10)) as u32
        + is_too_long(disk.load(alloc, TEN, 9)) as u32
        + is_failed(disk.load(alloc, NONE, 10)) as u32
}

fn is_whole(loaded: Result<Loaded, LoadFault>) -> bool {
    match loaded {
        Ok(bytes) => bytes.as_bytes() == b"0123456789".as_slice(),
        Err(_) => false,
    }
}

fn is_too_long(loaded: Result<Loaded, LoadFault>) -> bool {
    matches!(loaded, Err(LoadFault::TooLong))
}

fn is_failed(loaded: Result<Loaded, LoadFault>) -> bool {
    matches!(loaded, Err(LoadFault::Failed))
}

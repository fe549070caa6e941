// The calls that a disk in memory keeps a record of.
use crate::Half;

/// What a call did to a half.
#[derive(Drop)]
pub enum What {
    Looked,
    Wrote { at: u64, bytes: Vec<u8> },
    // the same on a disk that mixes
    WroteMixing { at: u64, bytes: Vec<u8> },
    Shortened { len: u64 },
    Synced,
}

#[derive(Drop)]
pub struct DiskCall {
    pub half: Half,
    pub what: What,
}

//! What the options may say, and what stands where they say nothing.

/// The greatest number of tuples of a level that is explored, where `--limit` isn't given.
pub const STANDING_LIMIT: u32 = 10000;

/// The greatest number of workers.
pub const MOST_WORKERS: u32 = 64;

/// The number of workers, where `--workers` isn't given.
pub const STANDING_WORKERS: u32 = 1;

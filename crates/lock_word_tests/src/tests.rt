//! The word in a `World` and under threads, and what sleeps on words.
mod counter;
mod deadlines;
mod events;
mod permits;
mod refused_memory;
mod seated;
mod shared_permits;
mod sleeper;
mod threads;
mod word_lock;
mod world;

/// The word of a writer: bit 33 alone.
const WRITER: u64 = 8_589_934_592;

/// The word of an upgradable reader: bit 32, and one reader.
const UPGRADER: u64 = 4_294_967_297;

/// The word of an announced party: the bar alone, which is bit 34.
const BAR: u64 = 17_179_869_184;

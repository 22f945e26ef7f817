//! The raw lock over a table of places.
use crate::monitor::Monitor;
use crate::token_arbiter::TokenArbiter;
use lock_raws::RawLock;
use lock_states::table::TokenTable;

/// An arbiter over a table of places.
pub type TableArbiter = TokenArbiter<TokenTable>;

/// A raw lock over a table of places: a std `Mutex` around the table, and an event count on which waiters sleep. It checks each
/// token.
///
/// It has as many places as readers; as a `RawMutex` both are 1. A call with a token that is not held in its mode is
/// ignored: an unlock changes nothing, and a change of mode returns a token of the new mode. A timed try is a plain
/// try. While a writer waits in `lock_exclusive`, later readers are refused until it had its turn. Tries refuse no
/// other thread.
pub type TokenRaw<W> = RawLock<Monitor<TableArbiter, W>>;

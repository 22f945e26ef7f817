//! Guards that own a reference to a lock: each acquisition, and the lock that a guard returns.
mod acquisitions;
mod same_lock;

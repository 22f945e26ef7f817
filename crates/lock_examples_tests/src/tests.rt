//! The examples on threads, and with ample memory.
mod desk;
mod first_lock;
mod in_threads;
mod parts;
mod pool;
mod queue;
mod registry;
mod shelf;
mod spin_lock;

//! What others may do between a worker's turns.

/// Calls that a turn makes while it holds no lock, so that a test can hold a worker there.
pub trait Gate: Sync {
    /// Is called by each turn of the worker before it takes the lock.
    fn before_commit(&self, worker: u16);
}

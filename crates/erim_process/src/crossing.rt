//! That a process may be given to another thread, and be shared by threads.

use crate::process::Process;

/// Is there for each type whose values may be given to another thread.
pub fn may_be_sent<T: Send>() {}

/// Is there for each type whose values several threads may look at.
pub fn may_be_shared<T: Sync>() {}

/// Both are there for processes.
pub fn processes_cross() {
    may_be_sent::<Process>();
    may_be_shared::<Process>();
}

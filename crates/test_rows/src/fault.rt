//! What goes wrong with a row or with a file of rows.

use erim_defs::NoMemory;
use std::alloc::{AllocError, AllocFailed};
use thiserror::Error;

/// Why a row isn't done.
#[derive(Debug, Drop, Error)]
pub enum RowFault {
    #[error("{0}")]
    Shape(&'static str),
    #[error("out of memory")]
    Memory,
}

impl From<AllocError> for RowFault {
    fn from(_refused: AllocError) -> RowFault {
        RowFault::Memory
    }
}

impl<T: Drop> From<AllocFailed<T>> for RowFault {
    fn from(_refused: AllocFailed<T>) -> RowFault {
        RowFault::Memory
    }
}

impl From<NoMemory> for RowFault {
    fn from(_refused: NoMemory) -> RowFault {
        RowFault::Memory
    }
}

//! Why an operator has no batch.

use mem_num::Full;

/// Why rows weren't stored: a level is full, or no memory is left.
#[derive(Clone, Copy, Debug, PartialEq, Eq)]
pub enum OpRefused {
    Full(Full),
    NoMemory,
}

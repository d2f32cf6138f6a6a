//! Why bytes are no message.

ghost use Rattle.std.specs.Prelude.{◌≡◌};

use dsm_base::MemFault;
use std::alloc::{AllocError, AllocFailed};
use thiserror::Error;

/// Why bytes are no message: the first fault from the left.
#[derive(Clone, Copy, Debug, PartialEq, Eq, Error)]
pub enum MsgErr {
    /// The bytes end before the message does.
    #[error("short")]
    Short,
    /// The first byte is no kind.
    #[error("bad kind {0}")]
    BadKind(u8),
    /// The place, from 0, of the first byte of the first field that breaks its range or its order.
    #[error("bad field at {place}")]
    BadField { place: u32 },
    /// How many bytes follow a whole message.
    #[error("{count} bytes too many")]
    Rest { count: u32 },
    /// Out of memory, also where a place or a count is over 32 bits.
    #[error("out of memory")]
    Memory,
}

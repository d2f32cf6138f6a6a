//! Errors that several crates answer: out of memory, a failure of what was handed in, and what is
//! wrong with a checkpoint image.

ghost use Rattle.std.specs.Prelude.{◌≡◌};

use std::alloc::{AllocError, AllocFailed};

/// Out of memory.
#[derive(Clone, Copy, Debug, PartialEq, Eq)]
pub struct MemFault;

impl From<AllocError> for MemFault {
    fn from(_error: AllocError) -> MemFault {
        MemFault
    }
}

impl<T: Drop> From<AllocFailed<T>> for MemFault {
    fn from(_error: AllocFailed<T>) -> MemFault {
        MemFault
    }
}

/// A failure of the object that was handed in: its count of failures rose.
#[derive(Clone, Copy, Debug, PartialEq, Eq)]
pub struct Failed;

/// Why a read or a write didn't succeed.
#[derive(Clone, Copy, Debug, PartialEq, Eq)]
pub enum ReadErr {
    /// The object failed: its count of failures rose.
    Failed,
    /// Out of memory.
    Memory,
}

impl From<AllocError> for ReadErr {
    ghost use Rattle.dsm_base.specs.declared.errors.ReadErr.TheVariants.{Memory};

    ghost from_gives = { λ _ e. e ≡ Memory };

    fn from(_error: AllocError) -> ReadErr {
        ReadErr::Memory
    }
}

impl<T: Drop> From<AllocFailed<T>> for ReadErr {
    ghost use Rattle.dsm_base.specs.declared.errors.ReadErr.TheVariants.{Memory};

    ghost from_gives = { λ _ e. e ≡ Memory };

    fn from(_error: AllocFailed<T>) -> ReadErr {
        ReadErr::Memory
    }
}

impl From<MemFault> for ReadErr {
    ghost use Rattle.dsm_base.specs.declared.errors.ReadErr.TheVariants.{Memory};

    ghost from_gives = { λ _ e. e ≡ Memory };

    fn from(_error: MemFault) -> ReadErr {
        ReadErr::Memory
    }
}

/// A digest of 32 bytes.
#[derive(Clone, Copy, Debug, PartialEq, Eq)]
pub struct Digest(pub [u8; 32]);

/// Why a checkpoint image, or the saved state of a thread, couldn't be loaded.
#[derive(Clone, Copy, Debug, PartialEq, Eq)]
pub enum LoadErr {
    /// The digest that stands in the image isn't that of its bytes.
    Damaged { kept: Digest, found: Digest },
    /// The bytes are no image. `place` is the first byte at which no image goes on, from 0.
    BadImage { place: u32 },
    /// The store failed: its count of failures rose.
    StoreFault,
    /// Out of memory.
    Memory,
}

impl From<AllocError> for LoadErr {
    ghost use Rattle.dsm_base.specs.declared.errors.LoadErr.TheVariants.{Memory};

    ghost from_gives = { λ _ e. e ≡ Memory };

    fn from(_error: AllocError) -> LoadErr {
        LoadErr::Memory
    }
}

impl<T: Drop> From<AllocFailed<T>> for LoadErr {
    ghost use Rattle.dsm_base.specs.declared.errors.LoadErr.TheVariants.{Memory};

    ghost from_gives = { λ _ e. e ≡ Memory };

    fn from(_error: AllocFailed<T>) -> LoadErr {
        LoadErr::Memory
    }
}

impl From<MemFault> for LoadErr {
    ghost use Rattle.dsm_base.specs.declared.errors.LoadErr.TheVariants.{Memory};

    ghost from_gives = { λ _ e. e ≡ Memory };

    fn from(_error: MemFault) -> LoadErr {
        LoadErr::Memory
    }
}

impl From<Failed> for LoadErr {
    ghost use Rattle.dsm_base.specs.declared.errors.LoadErr.TheVariants.{StoreFault};

    ghost from_gives = { λ _ e. e ≡ StoreFault };

    fn from(_error: Failed) -> LoadErr {
        LoadErr::StoreFault
    }
}

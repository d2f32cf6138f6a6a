//! Why a field can't be read.

ghost use Rattle.std.specs.Prelude.{◌≡◌};

use dsm_base::MemFault;
use std::alloc::{AllocError, AllocFailed};

/// Why a field can't be read.
#[derive(Clone, Copy, Debug, PartialEq, Eq)]
pub enum FieldErr {
    /// The bytes end within it; it begins where so many are left.
    Short { left: usize },
    /// It breaks its range or its order; it begins where so many bytes are left.
    Broken { left: usize },
    /// Out of memory.
    Memory,
}

impl From<AllocError> for FieldErr {
    ghost use Rattle.dsm_fields.specs.declared.error.FieldErr.TheVariants.{Memory};

    ghost from_gives = { λ _ e. e ≡ Memory };

    fn from(_error: AllocError) -> FieldErr {
        FieldErr::Memory
    }
}

impl<T: Drop> From<AllocFailed<T>> for FieldErr {
    ghost use Rattle.dsm_fields.specs.declared.error.FieldErr.TheVariants.{Memory};

    ghost from_gives = { λ _ e. e ≡ Memory };

    fn from(_error: AllocFailed<T>) -> FieldErr {
        FieldErr::Memory
    }
}

impl From<MemFault> for FieldErr {
    ghost use Rattle.dsm_fields.specs.declared.error.FieldErr.TheVariants.{Memory};

    ghost from_gives = { λ _ e. e ≡ Memory };

    fn from(_error: MemFault) -> FieldErr {
        FieldErr::Memory
    }
}

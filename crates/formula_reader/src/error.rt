ghost use Rattle.std.specs.Prelude.{◌≡◌};

use formula_grammar::{Fault, FaultKind};
use std::alloc::{AllocError, AllocFailed};
use thiserror::Error;
use tree_model::NoMemory;

/// Why a reading call gives nothing.
#[derive(Clone, Copy, Debug, PartialEq, Eq, Drop, Error)]
pub enum ReadError {
    /// The input is refused.
    #[error("byte {}: {:?}", .0.offset, .0.kind)]
    Refused(Fault),
    /// There was no memory for what was read.
    #[error("out of memory")]
    NoMemory,
}

impl From<AllocError> for ReadError {
    ghost use Rattle.std.specs.Prelude.{◌≡◌};
    ghost use Rattle.formula_reader.specs.declared.error.ReadError.TheVariants.{NoMemory};

    ghost from_gives = { λ _ e. e ≡ NoMemory };

    fn from(_: AllocError) -> ReadError {
        ReadError::NoMemory
    }
}

impl<T: Drop> From<AllocFailed<T>> for ReadError {
    ghost use Rattle.std.specs.Prelude.{◌≡◌};
    ghost use Rattle.formula_reader.specs.declared.error.ReadError.TheVariants.{NoMemory};

    ghost from_gives = { λ _ e. e ≡ NoMemory };

    fn from(_: AllocFailed<T>) -> ReadError {
        ReadError::NoMemory
    }
}

impl From<NoMemory> for ReadError {
    ghost use Rattle.std.specs.Prelude.{◌≡◌};
    ghost use Rattle.formula_reader.specs.declared.error.ReadError.TheVariants as answer;

    ghost from_gives = { λ _ e. e ≡ answer.NoMemory };

    fn from(_: NoMemory) -> ReadError {
        ReadError::NoMemory
    }
}

// The input is refused with this fault.
pub(crate) fn refused(offset: usize, kind: FaultKind) -> ReadError
    ensures { result ≡ ReadError.Refused (record { offset = offset; kind = kind }) }
{
    ReadError::Refused(Fault { offset, kind })
}

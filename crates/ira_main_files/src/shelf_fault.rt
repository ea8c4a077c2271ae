ghost use Rattle.std.specs.Prelude.{◌≡◌};
ghost use Rattle.std.specs.IoError.{error_kind};
ghost use Rattle.ira_main_files.specs.ShelfFault.{kind_fault};
ghost use Rattle.ira_main_files.specs.declared.shelf_fault.ShelfFault.TheVariants as fault;

use ira_event::WriteFault;
use std::alloc::AllocError;
use std::io::{Error, ErrorKind};

/// Why a file could not be read, made or written.
#[derive(Clone, Copy, Debug, PartialEq, Eq, thiserror::Error)]
pub enum ShelfFault {
    /// There is no such file.
    #[error("no such file")]
    NotFound,
    /// The file, or the device that it lies on, refused.
    #[error("the file can't be used")]
    Device,
    /// A growth was refused.
    #[error("out of memory")]
    OutOfMemory,
}

impl From<Error> for ShelfFault {
    ghost from_gives = { λ e f. f ≡ kind_fault (error_kind e) };

    fn from(error: Error) -> ShelfFault {
        match error.kind() {
            ErrorKind::NotFound => ShelfFault::NotFound,
            ErrorKind::OutOfMemory => ShelfFault::OutOfMemory,
            _ => ShelfFault::Device,
        }
    }
}

impl From<AllocError> for ShelfFault {
    ghost from_gives = { λ _ f. f ≡ fault.OutOfMemory };

    fn from(_refused: AllocError) -> ShelfFault {
        ShelfFault::OutOfMemory
    }
}

impl From<WriteFault> for ShelfFault {
    ghost from_gives = { λ _ f. f ≡ fault.Device };

    fn from(_failed: WriteFault) -> ShelfFault {
        ShelfFault::Device
    }
}

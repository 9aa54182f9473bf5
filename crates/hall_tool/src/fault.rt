//! Why a command gave up.
ghost use Rattle.std.specs.Prelude.{◌≡◌, ◌⊎◌};

use hall_http::DeviceFault;
use hall_sql::OpenFault;
use hall_store::StoreFault;
use std::alloc::{AllocError, AllocFailed};
use std::io;

/// Why a command gave up. It then ends with status 3.
#[derive(Clone, Copy, Debug, PartialEq, Eq)]
pub enum ToolFault {
    /// Out of memory.
    Memory,
    /// A call of a reader or writer failed.
    Device,
    /// The store refused.
    Store,
}

/// Why a command over a hall gave up. It then ends with status 3.
#[derive(Drop)]
pub enum CommandFault {
    /// A fault of what the command does.
    Tool(ToolFault),
    /// The entry list can't be read.
    List(io::Error),
    /// The database can't be had.
    Database(OpenFault),
    /// The port can't be listened on.
    Port,
    /// No more connections come in.
    Client,
}

impl From<AllocError> for ToolFault {
    ghost use Rattle.std.specs.Prelude.{◌≡◌};
    ghost use Rattle.hall_tool.specs.declared.fault.ToolFault.TheVariants.{Memory};

    ghost from_gives = { λ _ e. e ≡ Memory };

    fn from(_e: AllocError) -> ToolFault {
        ToolFault::Memory
    }
}

impl<T: Drop> From<AllocFailed<T>> for ToolFault {
    ghost use Rattle.std.specs.Prelude.{◌≡◌};
    ghost use Rattle.hall_tool.specs.declared.fault.ToolFault.TheVariants.{Memory};

    ghost from_gives = { λ _ e. e ≡ Memory };

    fn from(_e: AllocFailed<T>) -> ToolFault {
        ToolFault::Memory
    }
}

impl From<DeviceFault> for ToolFault {
    ghost use Rattle.std.specs.Prelude.{◌≡◌};
    ghost use Rattle.hall_tool.specs.declared.fault.ToolFault.TheVariants.{Device};

    ghost from_gives = { λ _ e. e ≡ Device };

    fn from(_e: DeviceFault) -> ToolFault {
        ToolFault::Device
    }
}

/// A fault of the store, as it is told.
pub(crate) fn told(fault: StoreFault) -> ToolFault
    ensures { ((fault ≡ StoreFault.Memory) × (result ≡ ToolFault.Memory))
        ⊎ ((fault ≡ StoreFault.Failed) × (result ≡ ToolFault.Store)) }
{
    match fault {
        StoreFault::Memory => ToolFault::Memory,
        StoreFault::Failed => ToolFault::Store,
    }
}

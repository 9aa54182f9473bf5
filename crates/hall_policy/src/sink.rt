//! What takes the rows of a round one at a time.
use std::alloc::AllocError;

/// Why a sink takes no row.
#[derive(Clone, Copy, Debug, PartialEq, Eq)]
pub enum SinkFault {
    /// No memory was left.
    Memory,
    /// The sink has taken as many rows as it can, or the row isn't one that follows those taken.
    Refused,
}

impl From<AllocError> for SinkFault {
    ghost use Rattle.std.specs.Prelude.{◌≡◌};
    ghost use Rattle.hall_policy.specs.declared.sink.SinkFault.TheVariants.{Memory};

    ghost from_gives = { λ _ e. e ≡ Memory };

    fn from(_: AllocError) -> SinkFault {
        SinkFault::Memory
    }
}

/// What takes rows of a kind, one after another.
pub trait Sink<R> {
    ghost use Rattle.std.specs.Prelude.{◌≡◌, OnOk, OnErr, IfErr};
    ghost use Rattle.hall_policy.specs.declared.sink.SinkFault.TheVariants.{Refused};

    // The sink before, the row, the sink after.
    ghost takes: { Self → R → Self → Type 0 };

    // The sink has taken as many rows as it can, or this one doesn't follow those taken.
    ghost refuses: { Self → R → Type 0 };

    /// Takes the row, or refuses it and stays as it was.
    fn take(&mut self, row: &R) -> Result<(), SinkFault>
        ensures took { OnOk result (takes self.old row.now self.new) }
        ensures same { OnErr result (self.new ≡ self.old) }
        ensures refused { IfErr result (λ fault. fault ≡ Refused → refuses self.old row.now) };
}

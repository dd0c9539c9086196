//! Why a source takes up nothing more.
ghost use Rattle.std.specs.Prelude.{◌≡◌};
ghost use Rattle.source.specs.Faults.{fault_number};

/// Why an addition to a source is refused. Its value is the number of the refusal.
#[derive(Clone, Copy, PartialEq, Eq, Debug)]
pub enum SourceFault {
    /// There are as many equations, unknowns or sensors as there may be.
    Limit = 9,
    /// The pairs would outnumber the room.
    Room = 10,
    /// A number stands for no unknown of the source.
    NoSuchUnknown = 11,
}

impl From<SourceFault> for u32 {
    ghost from_gives = { λ fault n. n ≡ fault_number fault };

    /// The number of the refusal.
    fn from(fault: SourceFault) -> u32 {
        fault as u32
    }
}

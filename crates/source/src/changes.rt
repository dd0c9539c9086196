//! What can be asked of a growing source.
use sets::numbers::UnknownSet;

/// One step in the growth of a source.
#[derive(Clone, Copy)]
pub enum Change {
    /// Let go of everything.
    Clear,
    /// One unknown more.
    AddUnknown,
    /// One equation more, which holds these unknowns.
    AddEquation(UnknownSet),
}

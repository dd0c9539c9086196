//! Sources that take up equations and unknowns.
ghost use Rattle.std.specs.Prelude.{◌≡◌, ℕ};
ghost use Rattle.sets.specs.Members.{member_of};
ghost use Rattle.source.specs.Growth.{vacant, with_column, with_row, has_room, unknown_refusal, row_refusal, AgainstRow, LowestGround, Decided, AddsBy, AnswerAlike, Comes, change_refusal, changed, after_changes};

use crate::changes::Change;
use crate::faults::SourceFault;
use crate::questions::Source;
use sets::numbers::UnknownSet;

/// The most equations that a growing source takes up.
pub const MOST_EQUATIONS: usize = 112;

/// The most unknowns that a growing source takes up.
pub const MOST_UNKNOWNS: usize = 128;

/// Whether a source with room for `room` pairs can take up `more` of them.
// Kept: source and room stay two parameters here and below, since the rule is asked of any source and any room, and a growing source would be more to ask for.
pub fn has_room<S: Source>(source: &S, room: usize, more: usize) -> bool
    ensures { result ≡ has_room room (S.Source.means source.now) more }
{
    room.checked_sub(source.pairs())
        .is_some_and(|left| more <= left)
}

/// Whether an unknown can be added, by the rule for every growing source.
pub fn admits_unknown<S: Source>(source: &S) -> Result<(), SourceFault>
    ensures { Decided (unknown_refusal (S.Source.means source.now)) result }
{
    if source.unknowns() >= MOST_UNKNOWNS {
        return Err(SourceFault::Limit);
    }
    Ok(())
}

/// Whether an equation that holds `unknowns` can be added, by the rule for every growing source with room for `room` pairs.
pub fn admits_equation<S: Source>(
    source: &S,
    room: usize,
    unknowns: UnknownSet,
) -> Result<(), SourceFault>
    ensures rule { Decided (row_refusal room (S.Source.means source.now) (member_of unknowns.bits)) result }
    ensures grounds { LowestGround (AgainstRow room (S.Source.means source.now) (member_of unknowns.bits)) (row_refusal room (S.Source.means source.now) (member_of unknowns.bits)) }
{
    if source.equations() >= MOST_EQUATIONS {
        return Err(SourceFault::Limit);
    }
    if !has_room(source, room, unknowns.len()) {
        return Err(SourceFault::Room);
    }
    if unknowns.next_from(source.unknowns() + 1).is_some() {
        return Err(SourceFault::NoSuchUnknown);
    }
    Ok(())
}

/// A source that can be added to.
pub trait Growing: Source {
    /// How many pairs it takes up at most.
    const ROOM: usize;

    /// The room, as promises speak of it.
    ghost ROOM: { ℕ };

    /// How many pairs it takes up at most.
    fn capacity() -> usize
        ensures { result ≡ ROOM }
    {
        Self::ROOM
    }

    /// Whether `more` pairs can be taken up.
    fn room_for(&self, more: usize) -> bool
    where
        Self: Sized,
        ensures { result ≡ has_room ROOM (Self.Source.means self.now) more }
    {
        has_room(self, Self::capacity(), more)
    }

    /// Lets go of all equations and unknowns.
    fn clear(&mut self)
        ensures { Self.Source.means self.new ≡ vacant };

    /// One unknown more, which no equation holds.
    fn add_unknown(&mut self) -> Result<(), SourceFault>
        ensures { AddsBy (unknown_refusal (Self.Source.means self.old)) (Self.Source.means self.old) (with_column (Self.Source.means self.old)) (Self.Source.means self.new) result };

    /// One equation more, which holds just `unknowns`.
    fn add_equation(&mut self, unknowns: UnknownSet) -> Result<(), SourceFault>
        ensures { AddsBy (row_refusal ROOM (Self.Source.means self.old) (member_of unknowns.bits)) (Self.Source.means self.old) (with_row (Self.Source.means self.old) (member_of unknowns.bits)) (Self.Source.means self.new) result };
}

/// Carries out one change; a refused one leaves the source as it was.
pub fn apply<G: Growing>(source: &mut G, change: Change) -> Result<(), SourceFault>
    ensures answer { Decided (change_refusal G.Growing.ROOM (G.Source.means source.old) change) result }
    ensures meaning { G.Source.means source.new ≡ changed G.Growing.ROOM (G.Source.means source.old) change }
    ensures words { Comes G.Growing.ROOM (G.Source.means source.old) change (changed G.Growing.ROOM (G.Source.means source.old) change) }
{
    // Kept: no plainer as closures, since a change is a value: the laws of growth speak of lists of changes.
    match change {
        Change::Clear => source.clear(),
        Change::AddUnknown => source.add_unknown()?,
        Change::AddEquation(unknowns) => source.add_equation(unknowns)?,
    }
    Ok(())
}

/// Empties a source and carries out the changes one after the other, passing over those that are refused. What the source then stands for depends on
/// nothing but its room and the changes.
pub fn replay<G: Growing>(source: &mut G, changes: &[Change])
    ensures { G.Source.means source.new ≡ after_changes G.Growing.ROOM vacant changes.now }
{
    source.clear();
    for change in changes {
        let _ = apply(source, *change);
    }
}

/// Carries out the same changes on two sources. If they have one room, they then stand for the same and answer every question alike.
pub fn replay_both<G: Growing, H: Growing>(first: &mut G, second: &mut H, changes: &[Change])
    ensures first { G.Source.means first.new ≡ after_changes G.Growing.ROOM vacant changes.now }
    ensures second { H.Source.means second.new ≡ after_changes H.Growing.ROOM vacant changes.now }
    ensures alike { G.Growing.ROOM ≡ H.Growing.ROOM → AnswerAlike (G.Source.means first.new) (H.Source.means second.new) }
{
    replay(first, changes);
    replay(second, changes);
}

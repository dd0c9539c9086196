//! How long a line or a text may be.
ghost use Rattle.std.specs.Prelude.{◌≡◌, ◌<◌, ◌≤◌, length, MatchResult};
ghost use Rattle.grammar.specs.Refusals.{fault};

use grammar::grounds::{Ground, LineFault};

/// Refuses more bytes than are allowed, on a ground of the caller's.
pub(crate) fn no_more_than(bytes: &[u8], most: usize, reason: Ground) -> Result<(), LineFault>
    ensures { MatchResult result (λ _. length bytes.now ≤ most) (λ f. (f ≡ fault reason 0) × (most < length bytes.now)) }
{
    if bytes.len() > most {
        return Err(LineFault::from(reason));
    }
    Ok(())
}

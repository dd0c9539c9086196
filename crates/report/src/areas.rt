//! Bytes put into a lent area.
ghost use Rattle.std.specs.Prelude.{◌≡◌, ◌+◌, ◌≤◌, length};
ghost use Rattle.report.specs.Lines.{overwritten};

/// Puts bytes over those of the area from an index on, and answers the index after them.
pub(crate) fn put(area: &mut [u8], at: usize, bytes: &[u8]) -> usize
    requires { at + length bytes.now ≤ length area.old }
    ensures after { area.new ≡ overwritten at bytes.now area.old }
    ensures value { result ≡ at + length bytes.now }
{
    // Kept: report lines are written into lent areas of bytes, so a piece has an index there and no buffer of its own.
    let end = at + bytes.len();
    area[at..end].copy_from_slice(bytes);
    end
}

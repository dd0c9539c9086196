//! A text is checked line by line, up to the first line that cannot be read.
ghost use Rattle.std.specs.Prelude.{◌≡◌, ◌≤◌};
ghost use Rattle.account.specs.Checking.{account, in_line, CheckedText};
ghost use Rattle.account.specs.Noting.{kind_by, FewerThan, Noted};

use crate::accounts::Account;
use grammar::grounds::{LineFault, Refusal};
use grammar::marks::Kind;
use line::reading::read_line;
use line::records::Record;
use line::texts::{Lines, text_fits};

impl Account {
    /// One line more.
    fn note(&mut self, line: Option<Record>)
        requires { FewerThan 32768 self.old }
        ensures { Noted (kind_by line) self.old self.new }
    {
        match line {
            None => self.empty += 1,
            Some(record) => match record.kind {
                Kind::Equation => self.equations += 1,
                Kind::Fault => self.faults += 1,
                Kind::Offer => self.offers += 1,
                Kind::Comment => self.comments += 1,
            },
        }
    }
}

/// The fault of a line as it is shown, with the line's number; a fault of the whole text has the number 0.
fn in_line(line: u32, fault: LineFault) -> Refusal
    requires { fault.byte ≤ 241 }
    ensures { result ≡ in_line line fault }
{
    // Kept: no `From`, since a fault does not know the number of its line.
    Refusal {
        reason: fault.reason,
        line,
        byte: fault.byte as u32,
    }
}

/// Checks a text line by line: what it holds, or the first line that cannot be read.
pub fn check_text(text: &[u8]) -> Result<Account, Refusal>
    ensures value { result ≡ account text.now }
    ensures law { CheckedText text.now result }
{
    text_fits(text).map_err(|fault| in_line(0, fault))?;
    let mut account = Account::default();
    for (index, (start, end)) in Lines::of(text).enumerate() {
        // Kept: tried with `map_err` and `?`, but a record passed on once more is copied, which took 1.7 times as long for empty lines.
        match read_line(&text[start..end]) {
            Ok(line) => account.note(line),
            Err(fault) => return Err(in_line(index as u32 + 1, fault)),
        }
    }
    Ok(account)
}

//! How many lines of each kind a text has.
ghost use Rattle.std.specs.Prelude.{Some};
ghost use Rattle.account.specs.Showing.{account_text};

use std::fmt;

/// The lines of a text, counted by kind.
#[derive(Clone, Copy, Default)]
pub struct Account {
    pub equations: u32,
    pub faults: u32,
    pub offers: u32,
    pub comments: u32,
    pub empty: u32,
}

impl fmt::Display for Account {
    ghost output = { λ a. Some (account_text a) };

    fn fmt<W: fmt::Write>(&self, f: &mut fmt::Formatter<W>) -> fmt::Result {
        let Account {
            equations,
            faults,
            offers,
            comments,
            empty,
        } = *self;
        write!(
            f,
            "equations {equations}, faults {faults}, offers {offers}, comments {comments}, empty lines {empty}"
        )
    }
}

//! What a line is read into.
use crate::places::Places;
use grammar::marks::Kind;

/// One line: what it is, and where its words stand in it.
#[derive(Clone, Copy)]
pub struct Record {
    pub kind: Kind,
    pub words: Places,
}

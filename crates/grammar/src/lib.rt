//! The rules of a model text: the grounds on which it is refused, the marks of its lines, and, in specs/ and proofs/, what
//! lines and words are and the laws that hold of them.
#![tactic(auto)]

pub mod grounds;
pub mod marks;

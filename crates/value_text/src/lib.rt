// The text of a value, in a call, in an answer and on a sheet, how an anchor and a skip are read, and the writers of anchors into a lent buffer.
// Knows nothing of which values a line has, nor of a head.
#![tactic(auto)]

pub mod anchor;
pub mod page;

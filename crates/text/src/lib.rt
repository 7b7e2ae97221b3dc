// Words of a lent line: the tokenizer; and reading on from a place of a line.
// Knows nothing of a head, a call, an answer or a sheet.
#![tactic(auto)]

pub mod place;
pub mod word;

// The eight counters as text; the definitions have the line of an answer, and what writing a whole text at the front of a lent buffer gives.
// Its code knows nothing of an answer's line, nor of a sheet's.
#![tactic(auto)]

pub mod counters;

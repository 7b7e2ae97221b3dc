// The values of a line and of a sheet, from where a reader stands: numbers, hashes, anchors and skips; and texts that have to stand there.
// A reader that hands back `None` has found no such value, so where it stands then is left open.
// Knows nothing of calls, nor of a sheet's lines.
#![tactic(auto)]

pub mod anchor;
pub mod given;
pub mod number;
pub mod skip;

// The lines of the answers of calls that only read: completion, link, report, stats and heads.
// Knows nothing of the other answers, of line feeds, nor of the driver that answers.
#![tactic(auto)]

pub mod lines;

// The calls that only ask: completion, link, report, stats and heads. They leave the driver as it is.
// Knows nothing of the calls that move it, nor of lines.
#![tactic(auto)]

pub mod head_lifecycle;

// One function for all calls: step.
// Knows nothing of lines.
#![tactic(auto)]

pub mod head_lifecycle;

// The calls that move the head: deliver, claim, release and apply.
// Each asks the lifecycle; the waiters are touched only where a preparation ends. Knows nothing of lines.
#![tactic(auto)]

pub mod head_lifecycle;

// The calls that show a view: snapshot, and wait and resume of the sixteen waiters.
// Knows nothing of which calls end a preparation, nor of lines.
#![tactic(auto)]

pub mod head_lifecycle;

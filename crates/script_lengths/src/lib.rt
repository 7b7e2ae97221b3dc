// How long answer lines and sheets can be.
// Theorems only; they stand apart, so that a change to a text is first refused where the text is stated. Knows nothing of buffers.
#![tactic(auto)]

// The edges E1 to E12 of document 01, one table with one claim over it.
// Theorems only. Knows nothing of code, nor of how an answer comes about: it computes each from the definitions.
#![tactic(auto)]

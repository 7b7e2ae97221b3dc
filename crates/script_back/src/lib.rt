// The values that only answers and sheets have: that each is read back as it was written. Those of answers are read here, as definitions.
// Theorems only: no code reads an answer, and a sheet's reader is `sheet_read`'s. Knows nothing of whole lines.
#![tactic(auto)]

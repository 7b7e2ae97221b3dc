// The rules that the customer signs for, over lines and rebuilds: the sheet rule, which lines and sheets are turned away, that a box is put back.
// Theorems only. Knows nothing of code, nor of reads and writes.
#![tactic(auto)]

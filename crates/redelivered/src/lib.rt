// The theorems behind the customer's story: what an apply settled is shown as it settled, delivered again or not, from installed and then from
// previous; so a block that settled cold is not shown as ready.
// Theorems only, over calls and over lines.
#![tactic(auto)]

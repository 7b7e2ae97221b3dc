// A reader of answer lines, as a definition, and that it reads back every answer: so no two answers have one line.
// Theorems only: no code reads an answer. Knows nothing of calls.
#![tactic(auto)]

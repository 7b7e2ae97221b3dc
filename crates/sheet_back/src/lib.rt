// What is read of a sheet: what it shows, of every sheet that a driver wrote, so sheets are equal exactly when they show the same; and a driver exactly where
// the bytes are in sheet form. Theorems only: the reader is `sheet_read`'s. Knows nothing of calls and answers.
#![tactic(auto)]

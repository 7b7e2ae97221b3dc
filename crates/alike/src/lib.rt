// What a sheet may show: the invariant of every driver, what of a driver its sheet shows, and the rule that drivers show the same exactly when they answer alike.
// Theorems only. Knows no byte of text: neither lines nor the sheet's form.
#![tactic(auto)]

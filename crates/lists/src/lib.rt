// Lists: the elements that pass a test, the values of a function, entries (a word with its plan) in ascending order,
// and totals: how many entries each plan has.
// Definitions in specs/, laws in proofs/; no code.

#![tactic(auto)]

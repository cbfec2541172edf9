// The model: the state that settles every answer of the table, and what each call does to it. Definitions and laws, no code.
// specs/ follows document 01: Levels, Model (step, by words), Request (serve, with anything as identifier), Machine and History
// (lists of calls). proofs/Statements.antt restates the laws that others cite: statement 3, "A list of calls". The crate table refines it.

#![tactic(auto)]

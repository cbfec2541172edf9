// The table of document 01 as definitions, exact to the last number: what each call answers and every number of the table after it,
// for any numbers as table and anything as identifier. specs/Calls.antt has a definition for each call, which the contract of that
// call cites. specs/Causes.antt says in document 01's words when each is turned down. proofs/Statements.antt restates what
// is proved of them: the layout, the test of soundness, the causes, the link to the model (every sound table stands for one state, and each
// call follows the model's step), and statement 3 for lists of calls. No code.

#![tactic(auto)]

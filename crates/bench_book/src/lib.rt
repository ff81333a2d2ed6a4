// The starred lines of document 01's bench book, and those that document 02 adds, as a single table under one claim (specs/Table.antt), proved by computation from the definitions
// (proofs/Claim.antt). No functions: the program worked_examples runs the lines.
#![tactic(auto)]

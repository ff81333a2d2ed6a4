// Everything that the library promises, on a page: specs/Claims.antt has the statements, in the documents' order and words, about the calls' own contracts, with
// specs/Looks.antt and specs/Boundary.antt beside it, and specs/Box.antt those of the sixteen-tray box. `claims_256` and `claims_257` (proofs/Claims.antt) and
// `claims_box` (proofs/Box.antt) prove them for every layout over both fields, and for the box. No functions.
#![tactic(auto)]

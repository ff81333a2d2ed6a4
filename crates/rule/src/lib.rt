// Shares, groups and the rule of repair for e lost trays of one rack over any field: definitions (specs/) and theorems (proofs/), no functions. Promises
// that for any shares the rule has exactly one outcome, that on a codeword's shares and sound trays it is the codeword's lost trays, that it hangs on the e·d
// share symbols of the group and on the sound host symbols at its layers alone, and that with e = 1 it is document 01's.
#![tactic(auto)]

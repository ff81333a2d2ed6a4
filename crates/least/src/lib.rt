// Whether less could cross (document 02, W14): definitions (specs/) and theorems (proofs/) over any field, no functions. Promises, for one lost tray and E = 0, that where
// some s of the d helpers send fewer than L symbols together, by any rules from their own trays, two codewords are alike in every message and in the host rack's
// other trays and differ in the lost tray; that therefore no method that always restores the tray has less than d·L/s symbols cross; and that the library's
// shares and rule of repair are a method with just so many.
#![tactic(auto)]

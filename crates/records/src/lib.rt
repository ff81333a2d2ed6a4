// From tray images to records: definitions (specs/) and theorems (proofs/) over any field, no functions. Promises that shares and repairs
// of racks gathered from images depend on the trays present and on nothing else, and that the lost trays of a rack come back from images of
// the helpers' racks and of its own other trays.
#![tactic(auto)]

// What C calls, as a library: one function for each call, with the function names and the struct layouts of c/gesarumbo.h. Each repeats its call's contract: what comes back
// by the definition that gives the documents' numbers for an answer, and what every lent symbol or byte is afterwards. Crate gesarumbo_c exports each of them to C.
// The calls over symbols are written for the field of 256; those of the field modulo 257 are made from them.
#![tactic(auto)]

pub mod checksums;
pub mod field256;
pub mod field257;
pub mod images;
pub mod numbers;
pub mod sixteen;

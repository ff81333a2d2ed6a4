// The C boundary, as a static library: one thin exported function for each call of the crate `gesarumbo`, with the function names and the struct layouts of
// c/gesarumbo.h. Each calls the function of its name there and repeats its contract. A slice crosses as a pointer and a length.
// The exports over symbols are written for the field of 256; those of the field modulo 257 are made from them.
#![tactic(auto)]

mod checksums;
mod field256;
mod field257;
mod images;
mod sixteen;

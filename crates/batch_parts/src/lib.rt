// Many codewords of one layout in one buffer, interleaved: symbol i of codeword q of m stands at i·m + q. The definition of the part of one codeword (specs/Parts.antt),
// its laws, and the test of a buffer's length.
#![tactic(auto)]

ghost use Rattle.std.specs.Prelude.{◌≡◌, ◌*◌, ◌<◌, eqb};

// Whether a length is so many times another; no product is made that could be too large.
pub fn is_times(len: usize, a: usize, many: usize) -> bool
    requires { 0 < a }
    ensures { result ≡ eqb len (a * many) }
{
    if len / a != many {
        return false;
    }
    len % a == 0
}

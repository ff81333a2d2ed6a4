// Lists of helpers and of their shares without one.
ghost use Rattle.std.specs.Prelude.{◌≡◌, ◌+◌, ◌*◌, ◌≤◌, length};
ghost use Rattle.layout.specs.Layout.{layer_limit};
ghost use Rattle.correcting.specs.Inner.{past_one, HelpersLeft, SharesLeft};

// The number of the i-th helper that is left where helper k is not taken.
fn past(k: usize, i: usize) -> usize
    requires { i ≤ layer_limit }
    ensures { result ≡ past_one k i }
{
    if i < k {
        return i;
    }
    i + 1
}

// The helpers but k.
pub fn leave_helpers(out: &mut [u32], helpers: &[u32], k: usize)
    requires { (length out.old + 1 ≡ length helpers.now) × (length helpers.now ≤ layer_limit) }
    ensures { HelpersLeft k helpers.now (length out.old) out.new }
{
    for (i, helper) in out.iter_mut().enumerate() {
        *helper = helpers[past(k, i)];
    }
}

// The shares of n helpers that are left, of so many symbols each.
pub fn leave_shares(out: &mut [u8], shares: &[u8], k: usize, n: usize, each: usize)
    requires { (k ≤ n) × (n ≤ layer_limit) × (length out.old ≡ n * each) × (length shares.now ≡ (n + 1) * each) }
    ensures { SharesLeft k n each shares.now out.new }
{
    kernel::copy(out, 0, k * each, shares, 0);
    kernel::copy(out, k * each, (n - k) * each, shares, (k + 1) * each);
}

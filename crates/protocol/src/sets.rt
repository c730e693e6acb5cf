// Sets of transactions as words: bit t-1 for each transaction t.
ghost use Rattle.std.specs.Prelude.{◌≡◌, ◌≤◌};
ghost use Rattle.protocol.specs.State.{in_set};

// Whether a set has transaction t.
// Apart from has of crate locks: in_set counts transactions from 1, bit counts modes from 0.
pub fn has(w: u16, t: usize) -> bool
    requires { (1 ≤ t) × (t ≤ 16) }
    ensures { result ≡ in_set w t }
{
    (w >> (t - 1)) % 2 == 1
}

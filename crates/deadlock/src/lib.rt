// The test for a ring of transactions each waiting for the next. Sets are words: bit t-1 for each transaction t.
#![tactic(auto)]

ghost use Rattle.std.specs.Prelude.{◌≡◌, ℕ, ◌≤◌, length};
ghost use Rattle.protocol.specs.State.{in_set};
ghost use Rattle.protocol.specs.Rings.{in_ring};
ghost use Rattle.deadlock.specs.Sets.{sets_of, onward};

// Those to whom a path of one wait more leads: the set of t, and the sets of those in reach.
fn round(sets: &[u16; 16], t: usize, reach: u16) -> u16
    requires { (length sets.now ≡ 16) × (1 ≤ t) × (t ≤ 16) }
    ensures { (u : ℕ) → in_set result u ≡ onward (sets_of sets.now) t (in_set reach) u }
{
    let mut next = sets[t - 1];
    for (v, set) in sets.iter().enumerate() {
        if protocol::sets::has(reach, v + 1) {
            next |= *set;
        }
    }
    next
}

// Whether t is in a ring: sixteen rounds reach all to whom any path of waits leads.
pub fn ring(sets: &[u16; 16], t: usize) -> bool
    requires { (length sets.now ≡ 16) × (1 ≤ t) × (t ≤ 16) }
    ensures { result ≡ in_ring (sets_of sets.now) t }
{
    let mut reach = 0;
    for _ in 0..sets.len() {
        reach = round(sets, t, reach);
    }
    protocol::sets::has(reach, t)
}

// Whether only open transactions have a wait set, and only open ones are in it.
ghost use Rattle.std.specs.Prelude.{◌≡◌, ◌≤◌, length};
ghost use Rattle.table.specs.Layout.{state_size, header};
ghost use Rattle.form.specs.Form.{sets_open};
ghost use Rattle.form.specs.Check.{set_open};

use table::layout;

// Whether nobody is in the set w of transaction t, or t and all in it are open. Most sets are empty: they take one test.
fn set_open(opens: u16, t: usize, w: u16) -> bool
    requires { (1 ≤ t) × (t ≤ 16) }
    ensures { result ≡ set_open opens t w }
{
    w == 0 || (protocol::sets::has(opens, t) && w | opens == opens)
}

// The same of all sixteen transactions.
// A loop: in a closure of all it is not known that t is at most 16, which set_open asks for.
pub fn among_open(s: &[u8]) -> bool
    requires { state_size ≤ length s.now }
    ensures { result ≡ sets_open (header s.now) }
{
    let opens = layout::word(s, layout::OPEN);
    for t in 1..=16 {
        if !set_open(opens, t, table::sets::set(s, t)) {
            return false;
        }
    }
    true
}

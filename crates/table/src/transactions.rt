// Transactions in the lent bytes: which are open, and the modes that each was granted on each node.
ghost use Rattle.std.specs.Prelude.{◌≡◌, true, false, cond, not, ◌||◌, ◌<◌, ◌≤◌, length, get_or, eqb};
ghost use Rattle.locks.specs.Modes.{in_word};
ghost use Rattle.protocol.specs.State.{released, with_open, ended};
ghost use Rattle.table.specs.Lists.{modify};
ghost use Rattle.table.specs.Flat.{second};
ghost use Rattle.table.specs.Layout.{is_open, nodes, no_entry, Layout, Left, Kept, header};
ghost use Rattle.table.specs.Fields.{with_modes, unlocked};
ghost use Rattle.table.specs.Transaction.{Loaded};

use crate::{layout, sets};

pub fn is_open(s: &[u8], t: usize) -> bool
    requires { (Layout s.now) × (1 ≤ t) × (t ≤ 16) }
    ensures { result ≡ is_open s.now t }
{
    protocol::sets::has(layout::word(s, layout::OPEN), t)
}

// Transaction t is opened if it was not open, else closed.
fn turn(s: &mut [u8], t: usize)
    requires { (Layout s.old) × (1 ≤ t) × (t ≤ 16) }
    ensures { Left s.old s.new
        (with_open (λ u. cond (eqb u t) (not (is_open s.old t)) (is_open s.old u)) (header s.old))
        (nodes s.old) }
{
    let w = layout::word(s, layout::OPEN);
    layout::set_word(s, layout::OPEN, sets::turned(w, t));
}

pub fn open(s: &mut [u8], t: usize)
    requires { (Layout s.old) × (1 ≤ t) × (t ≤ 16) × (is_open s.old t ≡ false) }
    ensures { Left s.old s.new
        (with_open (λ u. eqb u t || is_open s.old u) (header s.old)) (nodes s.old) }
{
    turn(s, t);
}

// Transaction t is not open; it waits for nobody, and nobody waits for it.
pub fn close(s: &mut [u8], t: usize)
    requires { (Layout s.old) × (1 ≤ t) × (t ≤ 16) × (is_open s.old t ≡ true) }
    ensures { Left s.old s.new (ended t (header s.old)) (nodes s.old) }
{
    turn(s, t);
    sets::strike(s, t);
}

// The modes that transaction t was granted on the node at i, as a word.
pub fn lock(s: &[u8], t: usize, i: usize) -> u16
    requires { (Layout s.now) × (1 ≤ t) × (t ≤ 16) × (i < length (nodes s.now)) }
    ensures { in_word result ≡ (get_or (nodes s.now) i no_entry).1.held t }
{
    layout::word(
        s,
        layout::LOCKS + layout::WORDS * (t - 1) + 2 * crate::slot(s, i),
    )
}

pub fn set_lock(s: &mut [u8], t: usize, i: usize, w: u16)
    requires { (Layout s.old) × (1 ≤ t) × (t ≤ 16) × (i < length (nodes s.old)) }
    ensures { Kept s.old s.new (modify i (second (with_modes t w)) (nodes s.old)) }
{
    let k = crate::slot(s, i);
    layout::set_word(s, layout::LOCKS + layout::WORDS * (t - 1) + 2 * k, w);
}

// Transaction t holds nothing on the node at i.
pub fn release(s: &mut [u8], t: usize, i: usize)
    requires { (Layout s.old) × (1 ≤ t) × (t ≤ 16) × (i < length (nodes s.old)) }
    ensures { Kept s.old s.new (modify i (second (released t)) (nodes s.old)) }
{
    set_lock(s, t, i, 0);
}

// A transaction's mode sets: one word for each slot of a node.
#[derive(Drop)]
pub struct Transaction {
    pub modes: [u16; 1024],
}

// What transaction t was granted.
// A loop: in a closure of array::from_fn it is not known that k is less than 1,024, which word asks for.
pub fn load(s: &[u8], t: usize) -> Transaction
    requires { (Layout s.now) × (1 ≤ t) × (t ≤ 16) }
    ensures { Loaded s.now t result.modes }
{
    let base = layout::LOCKS + layout::WORDS * (t - 1);
    let mut modes = [0; 1024];
    for (k, word) in modes.iter_mut().enumerate() {
        *word = layout::word(s, base + 2 * k);
    }
    Transaction { modes }
}

// Nobody holds anything on the node at i.
pub fn unlock(s: &mut [u8], i: usize)
    requires { (Layout s.old) × (i < length (nodes s.old)) }
    ensures { Kept s.old s.new (modify i (second unlocked) (nodes s.old)) }
{
    for t in 1..=16 {
        set_lock(s, t, i, 0);
    }
}

// Counts of commits in the lent bytes (document 02, A.7): how many there were, and for each node which of them touched it last.
ghost use Rattle.std.specs.Prelude.{◌≡◌, ◌<◌, length, get_or};
ghost use Rattle.protocol.specs.State.{with_count, with_commits};
ghost use Rattle.table.specs.Lists.{modify};
ghost use Rattle.table.specs.Flat.{second};
ghost use Rattle.table.specs.Layout.{commits, nodes, no_entry, Layout, Left, Kept, header};

use crate::layout;

// How many transactions were committed since the last granted start or load.
pub fn commits(s: &[u8]) -> u32
    requires { Layout s.now }
    ensures { result ≡ commits s.now }
{
    layout::double_word(s, layout::COMMITS)
}

pub fn set_commits(s: &mut [u8], v: u32)
    requires { Layout s.old }
    ensures { Left s.old s.new (with_commits v (header s.old)) (nodes s.old) }
{
    layout::set_double_word(s, layout::COMMITS, v);
}

// The count of the commit that inserted the node at i or last updated its content.
pub fn count(s: &[u8], i: usize) -> u32
    requires { (Layout s.now) × (i < length (nodes s.now)) }
    ensures { result ≡ (get_or (nodes s.now) i no_entry).1.count }
{
    layout::double_word(s, layout::CELLS + layout::CELL * crate::slot(s, i) + 70)
}

pub fn set_count(s: &mut [u8], i: usize, v: u32)
    requires { (Layout s.old) × (i < length (nodes s.old)) }
    ensures { Kept s.old s.new (modify i (second (with_count v)) (nodes s.old)) }
{
    let k = crate::slot(s, i);
    layout::set_double_word(s, layout::CELLS + layout::CELL * k + 70, v);
}

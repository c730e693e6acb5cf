// The call of document 02, A.7, that tells which commit last touched a node.
#![tactic(auto)]

ghost use Rattle.std.specs.Prelude.{◌≡◌, ◌<◌, length};
ghost use Rattle.protocol.specs.Calls.{count_of};
ghost use Rattle.table.specs.Layout.{nodes, Layout};
ghost use Rattle.engine.specs.Contract.{Performed};
ghost use Rattle.counts.specs.Committed.{committed_at, answered};

use protocol::{Answer, Cause};
use table::counts;

// Whether the node at p is one of the committed document. Bytes of the form may have nodes with no mark below an inserted one, so the way
// up is looked at too.
fn committed(s: &[u8], p: usize) -> bool
    requires { (Layout s.now) × (p < length (nodes s.now)) }
    ensures { result ≡ committed_at (nodes s.now) p }
{
    if table::inserter(s, p) != 0 {
        return false;
    }
    let mut e = table::depth(s, p);
    for k in (0..p).rev() {
        let d = table::depth(s, k);
        if e <= d {
            continue;
        }
        if table::inserter(s, k) != 0 {
            return false;
        }
        e = d;
    }
    true
}

// The count of the commit that inserted node n of the committed document or last updated its content; 7 for all other numbers.
pub fn count_of(s: &[u8], n: u32) -> Answer
    ensures { Performed s.now s.now result (count_of n) }
{
    try_count_of(s, n).unwrap_or_else(Answer::from)
}

fn try_count_of(s: &[u8], n: u32) -> Result<Answer, Cause>
    ensures { Performed s.now s.now (answered result) (count_of n) }
{
    if !form::formed(s) {
        return Err(Cause::ShortBuffer);
    }
    let p = table::find(s, n).ok_or(Cause::NoSuchNode)?;
    if !committed(s, p) {
        return Err(Cause::NoSuchNode);
    }
    Ok(Answer::Count(counts::count(s, p)))
}

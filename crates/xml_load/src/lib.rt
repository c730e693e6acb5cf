// Load: the input is judged, and where it is accepted the state is replaced by its document.
#![tactic(auto)]

ghost use Rattle.std.specs.Prelude.{◌≡◌, true, ℕ};
ghost use Rattle.tree.specs.Lists.{any};
ghost use Rattle.tree.specs.Document.{node_0_alone};
ghost use Rattle.protocol.specs.State.{transactions, tree_of, with_commits};
ghost use Rattle.protocol.specs.Calls.{Input, load};
ghost use Rattle.table.specs.Flat.{flat};
ghost use Rattle.table.specs.Layout.{is_open, Layout, Left, header};
ghost use Rattle.xml.specs.Reading.{ReadsAs};
ghost use Rattle.form.specs.Form.{form};
ghost use Rattle.engine.specs.Contract.{Performed};
ghost use Rattle.xml_load.specs.Load.{Stands, Replaced};

use protocol::{Answer, Cause};
use table::{counts, outline, transactions};

// Whether any transaction is open.
fn any_open(s: &[u8]) -> bool
    requires { Layout s.now }
    ensures { result ≡ any (is_open s.now) transactions }
{
    (1..17).any(|t| transactions::is_open(s, t))
}

// The document node is held alone: empty, without marks and locks, with count 0. Commits count from 1 again.
fn empty(s: &mut [u8])
    requires { form s.old ≡ true }
    ensures { Left s.old s.new (with_commits 0 (header s.old)) (flat 0 (tree_of node_0_alone)) }
{
    outline::cut(s, 1);
    table::clear_writer(s, 0);
    table::set_content(s, 0, b"");
    counts::set_count(s, 0, 0);
    transactions::unlock(s, 0);
    counts::set_commits(s, 0);
}

// The nodes replaced by those of the input.
fn replace(s: &mut [u8], x: &[u8])
    requires { (form s.old ≡ true) × ((left : ℕ) × Stands 1024 x.now left) }
    ensures { Replaced x.now s.old s.new }
{
    empty(s);
    xml_filling::fill(s, x);
}

// Load: the node count, or why the input is refused. Every input reads as one thing (the theorems `reading` and `one_reading` of crate
// xml).
pub fn load(s: &mut [u8], x: &[u8]) -> Answer
    ensures { (i : Input) → ReadsAs x.now i → Performed s.old s.new result (load i) }
{
    if !form::formed(s) {
        return Answer::from(Cause::ShortBuffer);
    }
    if any_open(s) {
        return Answer::from(Cause::OpenAtLoad);
    }
    match xml_judging::judge(x, 1024) {
        Err(refusal) => Answer::RefusedAt(u8::from(refusal.cause), refusal.offset as u32),
        Ok(left) => {
            replace(s, x);
            Answer::Count((1024 - left) as u32)
        }
    }
}

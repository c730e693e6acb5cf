// The steps that change the tree: U, D, I and UU. Each is tried first: what it answers if it is granted, or what stops it.
#![tactic(auto)]

ghost use Rattle.std.specs.Prelude.{◌≡◌, cond, ◌<◌, [], length};
ghost use Rattle.tree.specs.Steps.{U, D, I, UU, wrong_content_on};
ghost use Rattle.protocol.specs.Causes.{content_not_allowed};
ghost use Rattle.protocol.specs.Calls.{step};
ghost use Rattle.table.specs.Layout.{nodes, Layout};
ghost use Rattle.engine.specs.Causes.{cause_of};
ghost use Rattle.engine.specs.Contract.{Performed, no_room};
ghost use Rattle.engine.specs.Judgement.{own_cause, late_causes, first_cause, Tried};

use engine::{Admission, Stop};
use locks::StepName;
use protocol::{Answer, Cause};
use table::layout::NODES;

// U ----------------------------------------------------------------------------------

// Cause 8 or 9 of U.
fn update_cause(s: &[u8], place: usize, b: &[u8]) -> Result<(), Cause>
    requires { (Layout s.now) × (place < length (nodes s.now)) }
    ensures { cause_of result ≡ own_cause (U 0 b.now) (nodes s.now) place }
{
    engine::document_cause(s, place)?;
    if !tree::allowed(table::kind(s, place) as u32, b) {
        return Err(Cause::ContentNotAllowed);
    }
    Ok(())
}

// U(n, b): the content of node n becomes b.
pub fn update(s: &mut [u8], t: u32, n: u32, b: &[u8]) -> Answer
    ensures { Performed s.old s.new result (step t (U n b.now) no_room) }
{
    let outcome = try_update(s, t, n, b);
    engine::answer(s, t, outcome)
}

fn try_update(s: &mut [u8], t: u32, n: u32, b: &[u8]) -> Result<Answer, Stop>
    ensures { Tried s.old s.new t result (step t (U n b.now) no_room) }
{
    let mut places = [0u16; NODES];
    let at = engine::admit(s, t, n, &mut places)?;
    update_cause(s, at.place, b)?;
    let need = locks::needed(StepName::U);
    engine::judge(s, at, need)?;
    engine::grant(s, at, need);
    node_writing::write(s, at.place, at.t, b);
    Ok(Answer::Done)
}

// D ----------------------------------------------------------------------------------

// D(n): node n and all below it are deleted. The node alone is marked: what is below it is hidden with it.
pub fn delete(s: &mut [u8], t: u32, n: u32) -> Answer
    ensures { Performed s.old s.new result (step t (D n) no_room) }
{
    let outcome = try_delete(s, t, n);
    engine::answer(s, t, outcome)
}

fn try_delete(s: &mut [u8], t: u32, n: u32) -> Result<Answer, Stop>
    ensures { Tried s.old s.new t result (step t (D n) no_room) }
{
    let mut places = [0u16; NODES];
    let at = engine::admit(s, t, n, &mut places)?;
    engine::document_cause(s, at.place)?;
    let need = locks::needed(StepName::D);
    engine::judge(s, at, need)?;
    engine::grant(s, at, need);
    table::set_deleter(s, at.place, at.t);
    Ok(Answer::Done)
}

// UU ---------------------------------------------------------------------------------

// Cause 9 of UU.
fn rename_cause(a: &[u8], b: &[u8]) -> Result<(), Cause>
    ensures { cause_of result ≡ cond (wrong_content_on (UU 0 a.now b.now) 0) content_not_allowed 0 }
{
    if !tree::is_name(a) || !tree::is_name(b) {
        return Err(Cause::ContentNotAllowed);
    }
    Ok(())
}

// UU(n, a, b): each element named a in the subtree of node n is named b; how many.
pub fn rename_tree(s: &mut [u8], t: u32, n: u32, a: &[u8], b: &[u8]) -> Answer
    ensures { Performed s.old s.new result (step t (UU n a.now b.now) no_room) }
{
    let outcome = try_rename_tree(s, t, n, a, b);
    engine::answer(s, t, outcome)
}

fn try_rename_tree(s: &mut [u8], t: u32, n: u32, a: &[u8], b: &[u8]) -> Result<Answer, Stop>
    ensures { Tried s.old s.new t result (step t (UU n a.now b.now) no_room) }
{
    let mut places = [0u16; NODES];
    let at = engine::admit(s, t, n, &mut places)?;
    rename_cause(a, b)?;
    let need = locks::needed(StepName::UU);
    engine::judge(s, at, need)?;
    engine::grant(s, at, need);
    let hits = node_writing::rename_below(s, at.place, at.t, a, b);
    Ok(Answer::Count(hits as u32))
}

// I ----------------------------------------------------------------------------------

// Cause 8, 9 or 10 of I.
// The kind is a number of the call: any may be given, and one that is no kind is refused by 8.
fn insert_cause(s: &[u8], place: usize, m: u32, kind: u32, b: &[u8]) -> Result<(), Cause>
    requires { (Layout s.now) × (place < length (nodes s.now)) }
    ensures { cause_of result ≡ own_cause (I m kind b.now 0 0) (nodes s.now) place }
{
    if !tree::takes(table::kind(s, place) as u32, kind) {
        return Err(Cause::KindNotAllowed);
    }
    if !tree::allowed(kind, b) {
        return Err(Cause::ContentNotAllowed);
    }
    if table::find(s, m).is_some() {
        return Err(Cause::HeldNumber);
    }
    Ok(())
}

// Cause 11 or 12 of I, behind the wait.
fn place_cause(s: &[u8], at: Admission, kind: u32, k: u32) -> Result<(), Cause>
    requires { (Layout s.now) × (at.place < length (nodes s.now)) }
    ensures { cause_of result ≡ first_cause (late_causes at.entry.t (I 0 kind [] 0 k) no_room (nodes s.now) at.entry.place) }
{
    if !node_writing::fits(s, at.place, at.t, kind, k) {
        return Err(Cause::PlaceNotAllowed);
    }
    if NODES <= table::count(s) {
        return Err(Cause::NoMoreNodes);
    }
    Ok(())
}

// I(m, kind, b, n, k): a node m of a kind, with the content b, becomes the k-th child of node n.
pub fn insert(s: &mut [u8], t: u32, m: u32, kind: u32, b: &[u8], n: u32, k: u32) -> Answer
    ensures { Performed s.old s.new result (step t (I m kind b.now n k) no_room) }
{
    let outcome = try_insert(s, t, m, kind, b, n, k);
    engine::answer(s, t, outcome)
}

fn try_insert(
    s: &mut [u8],
    t: u32,
    m: u32,
    kind: u32,
    b: &[u8],
    n: u32,
    k: u32,
) -> Result<Answer, Stop>
    ensures { Tried s.old s.new t result (step t (I m kind b.now n k) no_room) }
{
    let mut places = [0u16; NODES];
    let at = engine::admit(s, t, n, &mut places)?;
    insert_cause(s, at.place, m, kind, b)?;
    let need = locks::needed(StepName::I);
    engine::judge(s, at, need)?;
    place_cause(s, at, kind, k)?;
    let q = node_writing::new_place(s, at.place, at.t, k);
    let d = table::depth(s, at.place);
    engine::grant(s, at, need);
    node_writing::put(s, q, d + 1, m, kind as u8, at.t, b, need.fresh);
    Ok(Answer::Done)
}

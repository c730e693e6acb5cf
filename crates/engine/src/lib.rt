// What all steps share: the caller and the node are judged, then the step's own causes and the wait, then the locks are granted; and T, the
// first step.
#![tactic(auto)]

pub mod locking;

ghost use Rattle.std.specs.Prelude.{◌≡◌, ℕ, List, cond, ◌<◌, ◌≤◌, MatchResult, ⊤, length, eqb};
ghost use Rattle.tree.specs.Content.{document_kind};
ghost use Rattle.tree.specs.Steps.{T, parent};
ghost use Rattle.protocol.specs.Causes.{kind_not_allowed};
ghost use Rattle.protocol.specs.State.{in_set, with_set};
ghost use Rattle.protocol.specs.Rings.{in_ring};
ghost use Rattle.protocol.specs.Calls.{Call, step};
ghost use Rattle.table.specs.Layout.{remembered, nodes, Layout};
ghost use Rattle.rows.specs.Places.{item, numbers_above};
ghost use Rattle.engine.specs.declared.Stop.TheVariants.{Refused};
ghost use Rattle.engine.specs.Way.{Climbed, AllInside};
ghost use Rattle.engine.specs.Grants.{GrantedStep};
ghost use Rattle.engine.specs.Contract.{Performed, no_room};
ghost use Rattle.engine.specs.Causes.{cause_of};
ghost use Rattle.engine.specs.Admission.{Caller, site, Admitted};
ghost use Rattle.engine.specs.Judgement.{Judged, Tried, Storable, told, left_by};

use locks::{NeedWords, StepName};
use protocol::{Answer, Cause};
use table::layout::NODES;
use table::{sets, transactions};

// The cause 13, 1 or 3 of a call of transaction t, if there is one.
pub fn caller(s: &[u8], t: u32) -> Result<(), Cause>
    ensures { Caller s.now t (cause_of result) }
{
    if !form::formed(s) {
        return Err(Cause::ShortBuffer);
    }
    if t == 0 || 16 < t {
        return Err(Cause::NotATransaction);
    }
    if !transactions::is_open(s, t as usize) {
        return Err(Cause::NotOpen);
    }
    Ok(())
}

// Where a step stands that was admitted: its transaction, the place of its node, and the places of the way up from there. They are lent,
// since there may be 2 KB of them.
#[derive(Clone, Copy)]
pub struct Admission<'a> {
    pub t: u8,
    pub place: usize,
    pub way: &'a [u16],
}

// A step of transaction t on node n: the cause 13, 1, 3 or 7, or where it stands. The way is put into `places`.
pub fn admit<'a>(
    s: &[u8],
    t: u32,
    n: u32,
    places: &'a mut [u16; NODES],
) -> Result<Admission<'a>, Cause>
    requires { length places.old ≡ 1024 }
    ensures { Admitted s.now t n result }
{
    caller(s, t)?;
    let place = table::find(s, n).ok_or(Cause::NoSuchNode)?;
    let t = t as u8;
    let way = locking::way_up(s, t, place, places).ok_or(Cause::NoSuchNode)?;
    Ok(Admission { t, place, way })
}

// The kind of the document.
const DOCUMENT: u8 = 1;

// Cause 8 of R, U and D, for the document.
pub fn document_cause(s: &[u8], place: usize) -> Result<(), Cause>
    requires { (Layout s.now) × (place < length (nodes s.now)) }
    ensures { cause_of result ≡ cond (eqb (item (nodes s.now) place).now.kind document_kind) kind_not_allowed 0 }
{
    if table::kind(s, place) == DOCUMENT {
        return Err(Cause::KindNotAllowed);
    }
    Ok(())
}

// Why a step is not granted: a refusal, or a wait for the transactions of a set.
#[derive(Clone, Copy, Debug, PartialEq, Eq)]
pub enum Stop {
    Refused(Cause),
    Waits(u16),
}

impl From<Cause> for Stop {
    ghost from_gives = { λ cause stop. stop ≡ Refused cause };

    fn from(cause: Cause) -> Stop {
        Stop::Refused(cause)
    }
}

// What a step answers that was tried: a wait is remembered here, and a refusal changes nothing, nor does a wait for nobody.
pub fn answer(s: &mut [u8], t: u32, outcome: Result<Answer, Stop>) -> Answer
    requires { MatchResult outcome (λ x. ⊤) (Storable s.old t) }
    ensures told { result ≡ told outcome }
    ensures left { s.new ≡ left_by t outcome s.old }
    ensures performed { (first : List ℕ) (call : Call) → Tried first s.old t outcome call → Performed first s.new result call }
{
    match outcome {
        Ok(answer) => answer,
        Err(Stop::Refused(cause)) => Answer::from(cause),
        Err(Stop::Waits(set)) => {
            if set != 0 {
                sets::remember(s, t as usize, set);
            }
            Answer::Waits(set)
        }
    }
}

// Whether transaction t would be in a ring of waiting transactions if it waited for this set.
fn closes_ring(s: &[u8], t: usize, set: u16) -> bool
    requires { (Layout s.now) × (1 ≤ t) × (t ≤ 16) }
    ensures { result ≡ in_ring (with_set t (in_set set) (remembered s.now)) t }
{
    let mut words = sets::gather(s);
    words[t - 1] = set;
    deadlock::ring(&words, t)
}

// A step that was admitted, with no cause before the wait, and what it needs: refused, or waiting, or free.
pub fn judge(s: &[u8], at: Admission, w: NeedWords) -> Result<(), Stop>
    requires { (Layout s.now) × AllInside (nodes s.now) at.way.now × (1 ≤ at.t) × (at.t ≤ 16) }
    ensures { Judged s.now (site at.entry) w result }
{
    let t = usize::from(at.t);
    let set = locking::waits(s, t, w, at.way);
    if set == 0 {
        return Ok(());
    }
    if closes_ring(s, t, set) {
        return Err(Stop::Refused(Cause::Deadlock));
    }
    Err(Stop::Waits(set))
}

// Grants the locks of a step, and empties the wait set of its transaction.
pub fn grant(s: &mut [u8], at: Admission, w: NeedWords)
    requires { (Layout s.old) × (1 ≤ at.t) × (at.t ≤ 16) × AllInside (nodes s.old) at.way.now }
    ensures { GrantedStep s.old s.new at.entry.t w at.entry.way.now }
{
    let t = usize::from(at.t);
    sets::remember(s, t, 0);
    locking::grant(s, t, w, at.way);
}

// The number of the node's parent, the second on the way up, or 0 for the document.
// T answers 0 where there is no parent (parent in tree/specs/Steps.antt), so this is no Option.
fn parent(s: &[u8], at: Admission) -> u32
    requires { (Layout s.now) × Climbed (nodes s.now) at.place at.way.now }
    ensures { result ≡ parent (numbers_above (nodes s.now) at.entry.place) }
{
    match at.way {
        [_, place, ..] => table::number(s, usize::from(*place)),
        _ => 0,
    }
}

// T(n): the kind and the parent of node n.
pub fn test(s: &mut [u8], t: u32, n: u32) -> Answer
    ensures { Performed s.old s.new result (step t (T n) no_room) }
{
    let outcome = try_test(s, t, n);
    answer(s, t, outcome)
}

// T tried: what it answers if it is granted, or what stops it.
fn try_test(s: &mut [u8], t: u32, n: u32) -> Result<Answer, Stop>
    ensures { Tried s.old s.new t result (step t (T n) no_room) }
{
    let mut places = [0u16; NODES];
    let at = admit(s, t, n, &mut places)?;
    let need = locks::needed(StepName::T);
    judge(s, at, need)?;
    let kind = table::kind(s, at.place);
    let parent = parent(s, at);
    grant(s, at, need);
    Ok(Answer::Node { kind, parent })
}

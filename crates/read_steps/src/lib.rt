// The steps that only read: C, R, TT and RR. Each is tried first: what it answers if it is granted, or what stops it.
#![tactic(auto)]

ghost use Rattle.std.specs.Prelude.{◌≡◌, ◌<◌, ◌≤◌, length, MatchResult};
ghost use Rattle.tree.specs.Steps.{C, R, TT, RR};
ghost use Rattle.protocol.specs.Calls.{step};
ghost use Rattle.protocol.specs.Lent.{first_lent, second_lent};
ghost use Rattle.protocol.specs.declared.causes.Cause.TheVariants.{ShortBuffer};
ghost use Rattle.engine.specs.Contract.{Performed, Lent, no_room, room_of, rooms_of};
ghost use Rattle.engine.specs.Judgement.{Tried, TriedLent};

use engine::Stop;
use locks::StepName;
use protocol::{Answer, Cause};
use table::layout::NODES;

// The bytes of a number in a lent buffer.
const NUMBER_SIZE: usize = 4;

// The bytes of a cell: the length of a content, and room for 32 bytes.
const CELL_SIZE: usize = 33;

// Cause 13, where a lent buffer is shorter than what goes into it.
fn room(buffer: &[u8], size: usize) -> Result<(), Cause>
    ensures { MatchResult result (λ x. size ≤ length buffer.now) (λ c. (c ≡ ShortBuffer) × (length buffer.now < size)) }
{
    if buffer.len() < size {
        return Err(Cause::ShortBuffer);
    }
    Ok(())
}

// C(n, k): the number and the kind of the k-th child of node n, or none.
pub fn child(s: &mut [u8], t: u32, n: u32, k: u32) -> Answer
    ensures { Performed s.old s.new result (step t (C n k) no_room) }
{
    let outcome = try_child(s, t, n, k);
    engine::answer(s, t, outcome)
}

fn try_child(s: &mut [u8], t: u32, n: u32, k: u32) -> Result<Answer, Stop>
    ensures { Tried s.old s.new t result (step t (C n k) no_room) }
{
    let mut places = [0u16; NODES];
    let at = engine::admit(s, t, n, &mut places)?;
    let need = locks::needed(StepName::C);
    engine::judge(s, at, need)?;
    let answer = node_reading::kth_child(s, at.t, at.place, k);
    engine::grant(s, at, need);
    Ok(answer)
}

// R(n): the content of node n, to a lent buffer.
pub fn read(s: &mut [u8], t: u32, n: u32, out: &mut [u8]) -> Answer
    ensures { (Performed s.old s.new result (step t (R n) (room_of out.old)))
        × (Lent first_lent s.old out.old out.new (step t (R n) (room_of out.old))) }
{
    let outcome = try_read(s, t, n, out);
    engine::answer(s, t, outcome)
}

fn try_read(s: &mut [u8], t: u32, n: u32, out: &mut [u8]) -> Result<Answer, Stop>
    ensures { (Tried s.old s.new t result (step t (R n) (room_of out.old)))
        × (TriedLent first_lent s.old out.old out.new result (step t (R n) (room_of out.old))) }
{
    let mut places = [0u16; NODES];
    let at = engine::admit(s, t, n, &mut places)?;
    engine::document_cause(s, at.place)?;
    let need = locks::needed(StepName::R);
    engine::judge(s, at, need)?;
    let size = table::size(s, at.place, 0);
    room(out, size)?;
    node_reading::content(s, at.place, out);
    engine::grant(s, at, need);
    Ok(Answer::Count(size as u32))
}

// TT(n): the numbers of n and all below, in document order, to a lent buffer.
pub fn test_tree(s: &mut [u8], t: u32, n: u32, out: &mut [u8]) -> Answer
    ensures { (Performed s.old s.new result (step t (TT n) (room_of out.old)))
        × (Lent first_lent s.old out.old out.new (step t (TT n) (room_of out.old))) }
{
    let outcome = try_test_tree(s, t, n, out);
    engine::answer(s, t, outcome)
}

fn try_test_tree(s: &mut [u8], t: u32, n: u32, out: &mut [u8]) -> Result<Answer, Stop>
    ensures { (Tried s.old s.new t result (step t (TT n) (room_of out.old)))
        × (TriedLent first_lent s.old out.old out.new result (step t (TT n) (room_of out.old))) }
{
    let mut places = [0u16; NODES];
    let at = engine::admit(s, t, n, &mut places)?;
    let need = locks::needed(StepName::TT);
    engine::judge(s, at, need)?;
    let mut nodes = [0u16; NODES];
    let count = node_reading::select(s, at.t, at.place, &mut nodes);
    room(out, NUMBER_SIZE * count)?;
    node_reading::numbers(s, &nodes[..count], out);
    engine::grant(s, at, need);
    Ok(Answer::Count(count as u32))
}

// RR(n): as TT, and a cell each to a second lent buffer.
pub fn read_tree(s: &mut [u8], t: u32, n: u32, out: &mut [u8], cells: &mut [u8]) -> Answer
    ensures { (Performed s.old s.new result (step t (RR n) (rooms_of out.old cells.old)))
        × (Lent first_lent s.old out.old out.new
        (step t (RR n) (rooms_of out.old cells.old)))
        × (Lent second_lent s.old cells.old cells.new
        (step t (RR n) (rooms_of out.old cells.old))) }
{
    let outcome = try_read_tree(s, t, n, out, cells);
    engine::answer(s, t, outcome)
}

fn try_read_tree(
    s: &mut [u8],
    t: u32,
    n: u32,
    out: &mut [u8],
    cells: &mut [u8],
) -> Result<Answer, Stop>
    ensures { (Tried s.old s.new t result (step t (RR n) (rooms_of out.old cells.old)))
        × (TriedLent first_lent s.old out.old out.new result
        (step t (RR n) (rooms_of out.old cells.old)))
        × (TriedLent second_lent s.old cells.old cells.new result
        (step t (RR n) (rooms_of out.old cells.old))) }
{
    let mut places = [0u16; NODES];
    let at = engine::admit(s, t, n, &mut places)?;
    let need = locks::needed(StepName::RR);
    engine::judge(s, at, need)?;
    let mut nodes = [0u16; NODES];
    let count = node_reading::select(s, at.t, at.place, &mut nodes);
    room(out, NUMBER_SIZE * count)?;
    room(cells, CELL_SIZE * count)?;
    node_reading::numbers(s, &nodes[..count], out);
    node_reading::cells(s, &nodes[..count], cells);
    engine::grant(s, at, need);
    Ok(Answer::Count(count as u32))
}

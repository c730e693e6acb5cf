// Start, begin, commit and abort.
#![tactic(auto)]

mod pass;

ghost use Rattle.protocol.specs.Calls.{begin, commit, abort};
ghost use Rattle.engine.specs.Contract.{Performed};
ghost use Rattle.engine.specs.Admission.{Opened};
ghost use Rattle.ends.specs.Ends.{answered, Restarted};
ghost use Rattle.ends.specs.Pass.{Ended};

use pass::Ending;
use protocol::{Answer, Cause};
use table::{counts, transactions};

// The most commits since a granted start or load.
const MOST_COMMITS: u32 = 1000000;

// Start: the bytes are set to the beginning, where they are long enough.
#[tactic(auto, using(crate::specs::Laws::Calls::start_done, crate::specs::Laws::Calls::start_short))]
pub fn start(s: &mut [u8]) -> Answer
    ensures { Restarted s.old s.new result }
{
    if form::start(s) {
        return Answer::Done;
    }
    Answer::from(Cause::ShortBuffer)
}

// Begin of t.
pub fn begin(s: &mut [u8], t: u32) -> Answer
    ensures { Performed s.old s.new result (begin t) }
{
    try_begin(s, t).unwrap_or_else(Answer::from)
}

fn try_begin(s: &mut [u8], t: u32) -> Result<Answer, Cause>
    ensures { Performed s.old s.new (answered result) (begin t) }
{
    if !form::formed(s) {
        return Err(Cause::ShortBuffer);
    }
    if t == 0 || 16 < t {
        return Err(Cause::NotATransaction);
    }
    if transactions::is_open(s, t as usize) {
        return Err(Cause::AlreadyOpen);
    }
    transactions::open(s, t as usize);
    Ok(Answer::Done)
}

// An end of t, which is open. Its locks go, and it is closed.
fn end(s: &mut [u8], t: u32, end: Ending)
    requires { Opened s.old t }
    ensures { Ended end t s.old s.new }
{
    pass::one_pass(s, end, t as u8);
    transactions::close(s, t as usize);
}

// Commit of t: "commit makes changes lasting". What t deleted goes, with all below it; what it inserted or updated bears the count of this
// commit.
pub fn commit(s: &mut [u8], t: u32) -> Answer
    ensures { Performed s.old s.new result (commit t) }
{
    try_commit(s, t).unwrap_or_else(Answer::from)
}

fn try_commit(s: &mut [u8], t: u32) -> Result<Answer, Cause>
    ensures { Performed s.old s.new (answered result) (commit t) }
{
    engine::caller(s, t)?;
    let before = counts::commits(s);
    if MOST_COMMITS <= before {
        return Err(Cause::NoMoreCommits);
    }
    end(s, t, Ending::Lasting(before + 1));
    counts::set_commits(s, before + 1);
    Ok(Answer::Done)
}

// Abort of t: "abort removes them". What t inserted goes, with all below it.
pub fn abort(s: &mut [u8], t: u32) -> Answer
    ensures { Performed s.old s.new result (abort t) }
{
    try_abort(s, t).unwrap_or_else(Answer::from)
}

fn try_abort(s: &mut [u8], t: u32) -> Result<Answer, Cause>
    ensures { Performed s.old s.new (answered result) (abort t) }
{
    engine::caller(s, t)?;
    end(s, t, Ending::Undone);
    Ok(Answer::Done)
}

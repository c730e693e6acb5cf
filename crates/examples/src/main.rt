// The examples of document 01 beside its lines P1 to P9, through the exported calls. A line for each call: what it is, G (granted), W
// (waits) or R (refused), and a number: the length of write and of a read, the count of load, the count of a commit, the set of a wait, the
// cause of a refusal, else 0. A refusal of load has the byte offset behind it. What was written follows the line of a write. In the end
// three requests of document 02: A.14, three commit in every order, A.6, three that would wait for each other, and A.7, which commit last
// touched a node.
#![tactic(auto)]

mod inputs;
mod limits;
mod orders;
mod rings;
mod session;
mod touched;

use session::Session;
use std::io;

fn main(rt: HostRuntime) -> io::Result<()> {
    let mut session = Session::new(&rt);
    session.restart()?;
    session.limits()?;
    session.restart()?;
    session.orders()?;
    session.restart()?;
    session.rings()?;
    session.restart()?;
    session.touched()
}

// Tree E and example P1 of document 01, through the exported calls: a line for each call, with its place, the transaction, G (granted),
// W (waits) or R (refused), and a number.
#![tactic(auto)]

use outcomes::Outcome;
use std::io::{self, Print};

// A call of a transaction: U and R on a node, C for the k-th child of a node.
#[derive(Clone, Copy)]
enum Call {
    Begin,
    Update(u32, u8),
    Read(u32),
    Child(u32, u32),
    Abort,
}

// Each call with its transaction. 2 waits for what 1 wrote; after the abort of 1, 2 reads what was there before.
const CASE: [(u32, Call); 7] = [
    (1, Call::Begin),
    (2, Call::Begin),
    (1, Call::Update(5, b'7')),
    (2, Call::Read(5)),
    (1, Call::Child(4, 1)),
    (1, Call::Abort),
    (2, Call::Read(5)),
];

impl Call {
    fn made(self, state: &mut [u8], t: u32) -> Outcome {
        Outcome::from(match self {
            Call::Begin => panel::noodlefen_begin(state, t),
            Call::Update(n, byte) => panel::noodlefen_update(state, t, n, &[byte]),
            Call::Read(n) => panel::noodlefen_read(state, t, n, &mut [0; 32]),
            Call::Child(n, k) => panel::noodlefen_child(state, t, n, k),
            Call::Abort => panel::noodlefen_abort(state, t),
        })
    }
}

fn main(rt: HostRuntime) -> io::Result<()> {
    let mut state = [0u8; 116784];
    panel::noodlefen_start(&mut state);
    panel::noodlefen_load(
        &mut state,
        b"<lift rope=\"2\"><speed>6</speed><ramp/></lift>",
    );
    for (i, (t, call)) in CASE.into_iter().enumerate() {
        let outcome = call.made(&mut state, t);
        println!(rt; "{} {t} {outcome}", i + 1)?;
    }
    Ok(())
}

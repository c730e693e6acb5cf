// A state, and where the calls on it are printed: a line for each.
use outcomes::Outcome;
use std::fmt::Display;
use std::io::{self, Print};

const STATE_BYTES: usize = 116784;

#[derive(Drop)]
pub struct Session<'a, R> {
    rt: &'a R,
    pub state: [u8; STATE_BYTES],
}

// The methods take the parameters of the exported calls, in their order.
impl<'a, R: Print> Session<'a, R> {
    pub fn new(rt: &'a R) -> Session<'a, R> {
        Session {
            rt,
            state: [0; STATE_BYTES],
        }
    }

    // Another one in the same state.
    pub fn copy(&self) -> Session<'a, R> {
        Session {
            rt: self.rt,
            state: self.state,
        }
    }

    pub fn line(&self, what: impl Display + Drop, answer: u64) -> io::Result<()> {
        let outcome = Outcome::from(answer);
        println!(self.rt; "{what}: {outcome}")
    }

    // Start, and tree E is loaded.
    pub fn restart(&mut self) -> io::Result<()> {
        let answer = panel::noodlefen_start(&mut self.state);
        self.line("start", answer)?;
        self.load_e()
    }

    pub fn load_e(&mut self) -> io::Result<()> {
        self.load("load E", b"<lift rope=\"2\"><speed>6</speed><ramp/></lift>")
    }

    // A refusal is printed with the offset, where the cause has one.
    pub fn load(&mut self, what: &str, xml: &[u8]) -> io::Result<()> {
        let outcome = Outcome::from(panel::noodlefen_load(&mut self.state, xml));
        match outcome.offset() {
            Some(offset) => println!(self.rt; "{what}: {outcome} at {offset}"),
            None => println!(self.rt; "{what}: {outcome}"),
        }
    }

    // The committed document is written.
    pub fn write(&self) -> io::Result<()> {
        let mut out = [0u8; 128];
        let answer = panel::noodlefen_write(&self.state, &mut out);
        self.line("write", answer)?;
        if let Outcome::Granted { number, .. } = Outcome::from(answer)
            && let Some(text) = out.get(..number as usize)
        {
            self.rt.write_all(text)?;
        }
        self.rt.write_all(b"\n")
    }

    pub fn count_of(&self, what: &str, n: u32) -> io::Result<()> {
        self.line(what, panel::noodlefen_count_of(&self.state, n))
    }

    pub fn begin(&mut self, t: u32) -> io::Result<()> {
        let answer = panel::noodlefen_begin(&mut self.state, t);
        self.line("begin", answer)
    }

    pub fn commit(&mut self, what: &str, t: u32) -> io::Result<()> {
        let answer = panel::noodlefen_commit(&mut self.state, t);
        self.line(what, answer)
    }

    pub fn abort(&mut self, what: &str, t: u32) -> io::Result<()> {
        let answer = panel::noodlefen_abort(&mut self.state, t);
        self.line(what, answer)
    }

    pub fn read(&mut self, what: &str, t: u32, n: u32) -> io::Result<()> {
        let answer = panel::noodlefen_read(&mut self.state, t, n, &mut [0; 32]);
        self.line(what, answer)
    }

    pub fn update(&mut self, what: &str, t: u32, n: u32, bytes: &[u8]) -> io::Result<()> {
        let answer = panel::noodlefen_update(&mut self.state, t, n, bytes);
        self.line(what, answer)
    }

    pub fn delete(&mut self, t: u32, n: u32) -> io::Result<()> {
        let answer = panel::noodlefen_delete(&mut self.state, t, n);
        self.line("delete", answer)
    }

    // An element m of this name becomes the k-th child of node n.
    pub fn insert(&mut self, t: u32, m: u32, name: &[u8], n: u32, k: u32) -> io::Result<()> {
        let answer = panel::noodlefen_insert(&mut self.state, t, m, 2, name, n, k);
        self.line("insert", answer)
    }
}

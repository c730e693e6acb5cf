// Transactions that wait for each other: the call whose wait would close a ring is refused for 17, and the others go on when one ends.
use super::Session;
use std::io::{self, Print};

impl<R: Print> Session<'_, R> {
    pub fn rings(&mut self) -> io::Result<()> {
        self.hold()?;
        self.ring()?;
        self.give_way()
    }

    // Transaction 1 holds the speed, 2 the rope and 3 the ramp.
    fn hold(&mut self) -> io::Result<()> {
        for t in 1..=3 {
            self.begin(t)?;
        }
        self.update("update", 1, 5, b"7")?;
        self.update("update", 2, 3, b"1")?;
        self.update("update", 3, 6, b"slope")
    }

    // 1 waits for 2, and 2 for 3. 3 may not wait for 1.
    fn ring(&mut self) -> io::Result<()> {
        self.read("1 reads the rope", 1, 3)?;
        self.read("2 reads the ramp", 2, 6)?;
        self.read("3 reads the speed", 3, 5)
    }

    // 3 gives up, and 2 goes on. Now 2 may not wait for 1, which waits for 2 still; 2 gives up too, and 1 goes on.
    fn give_way(&mut self) -> io::Result<()> {
        self.abort("3 gives up", 3)?;
        self.read("2 reads the ramp", 2, 6)?;
        self.read("2 reads the speed", 2, 5)?;
        self.abort("2 gives up", 2)?;
        self.read("1 reads the rope", 1, 3)
    }
}

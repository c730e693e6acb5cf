// Which commit last touched a node (document 02, A.7), as a handover sheet asks for it.
use super::Session;
use std::io::{self, Print};

impl<R: Print> Session<'_, R> {
    pub fn touched(&mut self) -> io::Result<()> {
        self.enter()?;
        self.two_commits()?;
        self.aborted()?;
        self.inserted()
    }

    // Transaction 1 enters another speed, and 2 the rope's number that it has already.
    fn enter(&mut self) -> io::Result<()> {
        self.begin(1)?;
        self.begin(2)?;
        self.update("update", 1, 5, b"7")?;
        self.update("update", 2, 3, b"2")
    }

    // 2 commits first.
    fn two_commits(&mut self) -> io::Result<()> {
        self.commit("commit", 2)?;
        self.count_of("count of the rope", 3)?;
        self.count_of("count of the speed", 5)?;
        self.commit("commit", 1)?;
        self.count_of("count of the speed", 5)?;
        self.count_of("count of the ramp", 6)
    }

    // An update that is aborted leaves the count.
    fn aborted(&mut self) -> io::Result<()> {
        self.begin(3)?;
        self.update("update", 3, 3, b"1")?;
        self.abort("abort", 3)?;
        self.count_of("count of the rope", 3)
    }

    // A new node is unknown until its commit.
    fn inserted(&mut self) -> io::Result<()> {
        self.begin(3)?;
        self.insert(3, 9, b"lamp", 1, 4)?;
        self.count_of("count of the lamp", 9)?;
        self.commit("commit", 3)?;
        self.count_of("count of the lamp", 9)?;
        self.count_of("count of the document", 0)
    }
}

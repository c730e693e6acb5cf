// The limits of contents, of inputs and of nodes.
use super::Session;
use super::inputs::element;
use std::io::{self, Print};

impl<R: Print> Session<'_, R> {
    pub fn limits(&mut self) -> io::Result<()> {
        self.write()?;
        self.texts()?;
        self.uncommitted()?;
        self.empty()?;
        self.many("load of 1025 nodes", 1023)?;
        self.many("load of 1024 nodes", 1022)?;
        self.full()
    }

    // "32 bytes of text granted, 33 give 9"
    fn texts(&mut self) -> io::Result<()> {
        self.begin(1)?;
        self.update("text of 32 bytes", 1, 5, &[b't'; 32])?;
        self.update("text of 33 bytes", 1, 5, &[b't'; 33])
    }

    // What is not committed is not written, and keeps load out.
    fn uncommitted(&mut self) -> io::Result<()> {
        self.write()?;
        self.load_e()?;
        self.commit("commit", 1)?;
        self.write()
    }

    // "empty input: 4, offset 0"
    fn empty(&mut self) -> io::Result<()> {
        self.load("load of no bytes", b"")?;
        self.write()
    }

    // "1,024 nodes load, 1,025 give 6"
    fn many(&mut self, what: &str, children: usize) -> io::Result<()> {
        let mut input = [0; 4099];
        self.load(what, element(&mut input, children))
    }

    // No further node is held, and a number is found.
    fn full(&mut self) -> io::Result<()> {
        self.begin(1)?;
        self.insert(1, 4294967295, b"b", 1, 1)?;
        self.delete(1, 1023)?;
        self.insert(1, 4294967295, b"b", 1, 1)
    }
}

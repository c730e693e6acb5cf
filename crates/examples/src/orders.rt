// Whoever is open may commit first: three transactions are open, all six orders of their commits are tried on copies of the state, and the
// same settings are written each time.
use super::Session;
use std::io::{self, Print};

const ORDERS: [[u32; 3]; 6] = [
    [1, 2, 3],
    [1, 3, 2],
    [2, 1, 3],
    [2, 3, 1],
    [3, 1, 2],
    [3, 2, 1],
];

impl<R: Print + Drop> Session<'_, R> {
    // Transaction 1 changes the speed, 2 deletes the ramp, and 3 puts a lamp behind the text that 1 has changed. They commit in every order.
    pub fn orders(&mut self) -> io::Result<()> {
        for t in 1..=3 {
            self.begin(t)?;
        }
        self.update("update", 1, 5, b"7")?;
        self.delete(2, 6)?;
        self.insert(3, 9, b"lamp", 4, 2)?;
        for order in ORDERS {
            self.copy().commits(order)?;
        }
        Ok(())
    }

    fn commits(mut self, [first, second, third]: [u32; 3]) -> io::Result<()> {
        for t in [first, second, third] {
            let answer = panel::noodlefen_commit(&mut self.state, t);
            self.line(format_args!("commit of {first}, {second}, {third}"), answer)?;
        }
        self.write()
    }
}

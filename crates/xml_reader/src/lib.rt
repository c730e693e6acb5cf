// What goes over several tokens: the way to the root element; start tags, where the names of the attributes are kept; and what stands in an
// element, where the names of the open elements are kept. But for the first, these serve judging alone.
#![tactic(auto)]

pub mod children;
mod names;
pub mod start;
pub mod start_tags;

use xml_tokens::{Cursor, Read};

// What is read up to behind a start tag: where content follows, and where the element is empty.
#[derive(Clone, Copy)]
pub enum Tag {
    Opened(Read),
    Emptied(Read),
}

// Inside the document: the cursor, the number of open elements and how many nodes may still come.
#[derive(Clone, Copy)]
pub struct Inside {
    pub cursor: Cursor,
    pub depth: usize,
    pub spare: usize,
}

// The grammar of the inputs, what an input stands for, and how a document is written: definitions and theorems, in specs/.
// The fixed byte strings of both stand here: the reader compares with them, the writer writes them.
#![tactic(auto)]

pub const SHORT_DECLARATION: [u8; 21] = *b"<?xml version=\"1.0\"?>";

pub const LONG_DECLARATION: [u8; 38] = *b"<?xml version=\"1.0\" encoding=\"UTF-8\"?>";

pub const AMP: [u8; 5] = *b"&amp;";

pub const APOS: [u8; 6] = *b"&apos;";

pub const GT: [u8; 4] = *b"&gt;";

pub const LT: [u8; 4] = *b"&lt;";

pub const QUOT: [u8; 6] = *b"&quot;";

pub const TAB: [u8; 4] = *b"&#9;";

pub const LINE_FEED: [u8; 5] = *b"&#10;";

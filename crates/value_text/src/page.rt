// Where a value is read. Only what a word says as a hash depends on it; written, a hash is the same on both.

// Two kinds of text, neither of which is none.
#[derive(Clone, Copy)]
pub enum Page {
    Line,
    Sheet,
}

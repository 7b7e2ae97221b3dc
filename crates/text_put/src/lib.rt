// Text into a lent buffer: a writer that keeps its place, which puts a byte or a row of bytes.
// Knows nothing of a head, a call, an answer or a sheet.
#![tactic(auto)]

ghost use Rattle.std.specs.Prelude.{[], ◌∷◌, length};
ghost use Rattle.text_put.specs.Writers.{Puts, Room};

use crate::put::put;

pub mod put;

// A lent buffer, and the place up to which it is written. Values are put by functions and not by `Display`: a `fmt` may fail, and these cannot.
#[derive(Drop)]
pub struct TextWriter<'b> {
    pub buf: &'b mut [u8],
    pub at: usize,
}

impl TextWriter<'_> {
    // A single byte: a bracket, a space or a line feed, of which a line has many.
    #[tactic(auto, unfolding(crate::specs::Writers::wrote))]
    pub fn byte(&mut self, byte: u8)
        requires { Room self.old 1 }
        ensures { Puts self.old self.new 1 (byte ∷ []) }
    {
        self.buf[self.at] = byte;
        self.at += 1;
    }

    #[tactic(auto, unfolding(crate::specs::Writers::wrote))]
    pub fn text(&mut self, text: &[u8])
        requires { Room self.old (length text.now) }
        ensures { Puts self.old self.new (length text.now) text.now }
    {
        self.at = put(self.buf, self.at, text);
    }
}

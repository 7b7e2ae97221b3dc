// A reader that borrows a line and counts the bytes taken. Its methods are thin: what a word is, the tokenizer says, a function over
// the line and a place. Where a reader does not find what it is asked for, it hands back `None` and has taken nothing.
// Knows nothing of numbers, hashes or calls.
#![tactic(auto)]

ghost use Rattle.std.specs.Prelude.{[], ◌∷◌, ◌≡◌, cond, drop, is_some};
ghost use Rattle.line_reader.specs.Taken.{stands_next, took_byte, took_count, took_word, word_next};
ghost use Rattle.line_reader.specs.Reads.{rest, rest_after};
ghost use Rattle.text.specs.Rests.{after, at_end, past, past_word, says, word_here};

use text::place::{at_end, past, past_byte};
use text::word::{next_word, rest};

#[derive(Clone, Copy)]
pub struct LineReader<'a> {
    pub line: &'a [u8],
    pub taken: usize,
}

impl<'a> LineReader<'a> {
    // A reader of a line of which that many bytes are taken: 0 for a whole line.
    pub fn new(line: &'a [u8], taken: usize) -> LineReader<'a>
        ensures { (result.line ≡ line.entry) × (result.taken ≡ taken) }
    {
        LineReader { line, taken }
    }

    // The next word, as part of the caller's line; its bytes are taken.
    #[tactic(auto, using(text::proofs::Places::place_after, text::proofs::Places::word_passed), unfolding(text::specs::Rests::word_here))]
    pub fn take_word(&mut self) -> &'a [u8]
        ensures word { (result.now ≡ word_next self.old) × (self.new ≡ took_word self.old) }
        ensures word_here { result.now ≡ word_here (rest self.old) }
        ensures rest { past_word (rest self.old) ≡ rest self.new }
    {
        let word = next_word(self.line, self.taken);
        self.taken += word.len();
        word
    }

    // Takes the next word where it is that keyword; nothing is taken where it is another.
    #[tactic(auto, using(text::proofs::Same::same_pointwise), unfolding(text::specs::Rests::says))]
    pub fn past_keyword(&mut self, keyword: &[u8]) -> bool
        ensures said { result ≡ says keyword.now (rest self.old) }
        ensures reader { self.new ≡ cond result (took_word self.old) self.old }
        ensures rest { cond result (past_word (rest self.old)) (rest self.old) ≡ rest self.new }
    {
        let mut ahead = *self;
        if ahead.take_word() != keyword {
            return false;
        }
        *self = ahead;
        true
    }

    // Takes one byte where it stands next; nothing is taken where another does, or none.
    #[tactic(auto, using(text::proofs::Places::byte_found, text::proofs::Places::byte_missing, text::proofs::Places::byte_place), unfolding(text::specs::Places::here))]
    pub fn past_byte(&mut self, byte: u8) -> Option<()>
        ensures found { is_some result ≡ stands_next byte self.old }
        ensures reader { self.new ≡ took_byte result self.old }
        ensures rest { after (byte ∷ []) (rest self.old) ≡ rest_after result self.new }
    {
        self.taken = past_byte(self.line, Some(self.taken), byte)?;
        Some(())
    }

    // Takes so many bytes where so many are left, and else none.
    #[tactic(auto, using(text::proofs::Places::count_place), unfolding(text::specs::Places::here))]
    pub fn past(&mut self, count: usize) -> Option<()>
        ensures reader { self.new ≡ took_count count result self.old }
        ensures rest { past count (rest self.old) ≡ rest_after result self.new }
    {
        self.taken = past(self.line, Some(self.taken), count)?;
        Some(())
    }

    // Whether all of the line is read.
    #[tactic(auto, unfolding(text::specs::Places::here))]
    pub fn at_end(&self) -> bool
        ensures { result ≡ at_end (rest self.now) }
    {
        at_end(self.line, Some(self.taken))
    }

    pub fn bytes_taken(&self) -> usize
        ensures { result ≡ self.now.taken }
    {
        self.taken
    }

    // What is left of the line.
    pub fn left(&self) -> &'a [u8]
        ensures { result.now ≡ drop self.now.taken self.now.line.now }
    {
        rest(self.line, self.taken)
    }
}

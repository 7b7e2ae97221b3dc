// Reading on from a place of a line, for those who hold a place and no reader: over a byte, over a word by its length, to the line's end.
// A place is how many bytes stand before it, or `None` where the line did not go on as it must. That stays, so that these stand in a row
// without a branch between them. Knows nothing of numbers, hashes or keywords.
ghost use Rattle.std.specs.Prelude.{[], ◌∷◌, ◌≡◌};
ghost use Rattle.text.specs.Places.{byte_passed, here, passed};
ghost use Rattle.text.specs.Rests.{after, at_end, past, word_here};

use crate::word::{next_word, rest};

// The place after one byte, where that byte stands: what parts values is a space or a bracket.
#[tactic(auto, using(crate::proofs::Places::byte_rest, crate::proofs::Places::byte_stopped, crate::proofs::Places::byte_past_end, crate::proofs::Places::byte_differs, crate::proofs::Places::byte_stands))]
pub fn past_byte(line: &[u8], from: Option<usize>, byte: u8) -> Option<usize>
    ensures place { result ≡ byte_passed byte line.now from }
    ensures rest { here line.now result ≡ after (byte ∷ []) (here line.now from) }
{
    let at = from?;
    if *line.get(at)? != byte {
        return None;
    }
    Some(at + 1)
}

// The place that many bytes on: after a word, by its length, so that the word is looked for once.
#[tactic(auto, using(crate::proofs::Places::count_rest, crate::proofs::Places::past_stopped, crate::proofs::Places::past_short, crate::proofs::Places::past_on))]
pub fn past(line: &[u8], from: Option<usize>, count: usize) -> Option<usize>
    ensures place { result ≡ passed count line.now from }
    ensures rest { here line.now result ≡ past count (here line.now from) }
{
    let at = from?;
    if count > rest(line, at).len() {
        return None;
    }
    Some(at + count)
}

// Whether all of the line is read.
#[tactic(auto, using(crate::proofs::Places::end_stopped, crate::proofs::Places::end_here))]
pub fn at_end(line: &[u8], from: Option<usize>) -> bool
    ensures { result ≡ at_end (here line.now from) }
{
    match from {
        Some(at) => at >= line.len(),
        None => false,
    }
}

// The word that starts at a place. None starts where reading has stopped.
#[tactic(auto, unfolding(crate::specs::Places::here, crate::specs::Rests::word_here))]
pub fn word_from(line: &[u8], from: Option<usize>) -> &[u8]
    ensures { result.now ≡ word_here (here line.now from) }
{
    match from {
        Some(at) => next_word(line, at),
        None => &[],
    }
}

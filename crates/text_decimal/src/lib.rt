// Numbers of decimal text: no leading zero, at most 2^64 - 1.
// Knows nothing of what a number stands for.
#![tactic(auto)]

ghost use Rattle.std.specs.Prelude.{Some, ◌≡◌};
ghost use Rattle.line_reader.specs.Reads.{rest, Reads};
ghost use Rattle.line_reader.specs.Taken.{took_word};
ghost use Rattle.text.specs.Decimals.{digit, more, number};
ghost use Rattle.text.specs.Places.{ReadsFrom, here, number_from};
ghost use Rattle.text.specs.Rests.{read_number};

use line_reader::LineReader;
use text::word::next_word;

#[tactic(auto, using(text::proofs::DecimalRead::digit_value, text::proofs::Only::digit_low, text::proofs::Only::digit_high))]
pub(crate) fn first_digit(b: u8) -> Option<u64>
    ensures { result ≡ digit b }
{
    match b {
        b'0'..=b'9' => Some((b - b'0') as u64),
        _ => None,
    }
}

// The number with a digit after it.
#[tactic(auto, using(text::proofs::Only::more_no_digit, text::proofs::Only::more_after_zero, text::proofs::Only::more_digit, text::proofs::Only::more_too_large))]
pub(crate) fn one_more(n: u64, b: u8) -> Option<u64>
    ensures { result ≡ more (Some n) b }
{
    let d = first_digit(b)?;
    if n == 0 {
        return None;
    }
    n.checked_mul(10)?.checked_add(d)
}

// The number that a word says.
#[tactic(auto, using(text::proofs::DecimalRead::read_none))]
pub fn read_decimal(word: &[u8]) -> Option<u64>
    ensures { result ≡ number word.now }
{
    let (first, rest) = word.split_first()?;
    let mut n = first_digit(*first)?;
    for b in rest {
        n = one_more(n, *b)?;
    }
    Some(n)
}

// The number of the next word, which is taken, be it a number or not.
#[tactic(auto, unfolding(text::specs::Rests::read_number, text::specs::Rests::number_got))]
pub fn take_decimal(r: &mut LineReader<'_>) -> Option<u64>
    ensures reads { Reads r.old r.new result (read_number (rest r.old)) }
    ensures reader { r.new ≡ took_word r.old }
{
    read_decimal(r.take_word())
}

// The number of the word at a place, and the place after the word, for those who have no reader.
#[tactic(auto, using(text::proofs::Places::number_stopped, text::proofs::Places::number_none, text::proofs::Places::number_some, text::proofs::Places::place_after))]
pub fn number_from(line: &[u8], from: Option<usize>) -> Option<(u64, usize)>
    ensures place { result ≡ number_from line.now from }
    ensures reads { ReadsFrom line.now result (read_number (here line.now from)) }
{
    let at = from?;
    let word = next_word(line, at);
    Some((read_decimal(word)?, at + word.len()))
}

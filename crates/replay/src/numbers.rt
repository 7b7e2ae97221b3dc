// Strikes the settle numbers from what our driver prints: the recorded runs do not show them.
// Knows how the lines begin that show one, words and decimals; nothing else of answers.
ghost use Rattle.std.specs.Prelude.{◌+◌, ◌++◌, ◌≡◌, ◌≤◌, drop, length, take};
ghost use Rattle.pending.specs.Kept.{through_line_feed};
ghost use Rattle.replay.specs.Numbers.{bytes_before, spaced_number, spaced_word, strike_number, struck, struck_line, words_before};
ghost use Rattle.text.specs.Writes.{Wrote};

use text::word::rest;
use text_decimal::read_decimal;
use text_put::put::put;

// How many words stand before the settle number, in a line that shows one.
#[tactic(auto, unfolding(crate::specs::Numbers::words_before))]
fn words_before(line: &[u8]) -> Option<usize>
    ensures { result ≡ words_before line.now }
{
    if line.starts_with(b"(view installed ") || line.starts_with(b"(view previous ") {
        return Some(3);
    }
    if line.starts_with(b"(installed (") || line.starts_with(b"(previous (") {
        return Some(4);
    }
    None
}

// How many bytes stand before the first such byte; all of them where there is none.
fn bytes_before(byte: u8, text: &[u8]) -> usize
    ensures { result ≡ bytes_before byte text.now }
{
    text.iter().take_while(|b| **b != byte).count()
}

// How many bytes the first word is, with the space behind it; 0 where no space comes.
#[tactic(auto, using(crate::proofs::Striking::no_space, crate::proofs::Striking::with_space))]
fn spaced_word(line: &[u8]) -> usize
    ensures count { result ≡ spaced_word line.now }
    ensures upper_bound { result ≤ length line.now }
{
    let word = bytes_before(b' ', line);
    if word >= line.len() {
        return 0;
    }
    word + 1
}

// The same of a first word that is a number; 0 for any other.
#[tactic(auto, using(crate::proofs::Striking::no_number), unfolding(crate::specs::Numbers::spaced_number))]
fn spaced_number(line: &[u8]) -> usize
    ensures count { result ≡ spaced_number line.now }
    ensures upper_bound { result ≤ length line.now }
{
    let word = spaced_word(line);
    if word == 0 {
        return 0;
    }
    match read_decimal(&line[..word - 1]) {
        Some(_) => word,
        None => 0,
    }
}

// The place after so many words, each with its space.
#[tactic(auto, using(crate::proofs::Striking::no_words))]
fn after_words(line: &[u8], count: usize) -> usize
    ensures struck { strike_number count line.now ≡ take result line.now ++ strike_number 0 (drop result line.now) }
    ensures upper_bound { result ≤ length line.now }
{
    let mut at = 0;
    for _ in 0..count {
        at += spaced_word(rest(line, at));
    }
    at
}

// Puts the line without the number behind so many words.
fn strike_number(line: &[u8], count: usize, out: &mut [u8], at: usize) -> usize
    requires { at + length line.now ≤ length out.old }
    ensures wrote { Wrote out.old out.new at result (strike_number count line.now) }
    ensures upper_bound { result ≤ at + length line.now }
{
    let from = after_words(line, count);
    let number = spaced_number(rest(line, from));
    let place = put(out, at, &line[..from]);
    put(out, place, &line[from + number..])
}

// Puts the line without its settle number.
#[tactic(auto, unfolding(crate::specs::Numbers::struck_line, crate::specs::Numbers::strike_at))]
fn strike_line(line: &[u8], out: &mut [u8], at: usize) -> usize
    requires { at + length line.now ≤ length out.old }
    ensures wrote { Wrote out.old out.new at result (struck_line line.now) }
    ensures upper_bound { result ≤ at + length line.now }
{
    match words_before(line) {
        Some(count) => strike_number(line, count, out, at),
        None => put(out, at, line),
    }
}

// The first line, with its line feed where it has one.
#[tactic(auto, using(crate::proofs::Striking::first_line, crate::proofs::Striking::only_line))]
fn first_line(text: &[u8]) -> &[u8]
    ensures { result.now ≡ through_line_feed text.now }
{
    let count = bytes_before(b'\n', text);
    if count >= text.len() {
        return text;
    }
    &text[..count + 1]
}

// Puts the text without the settle numbers of its lines at the front of a buffer, and hands back how many bytes that are.
#[tactic(auto, using(crate::proofs::Striking::all_struck, crate::proofs::Striking::none_struck))]
pub(crate) fn strike(text: &[u8], out: &mut [u8]) -> usize
    requires { length text.now ≤ length out.old }
    ensures wrote { Wrote out.old out.new 0 result (struck text.now) }
    ensures upper_bound { result ≤ length text.now }
{
    let mut at = 0;
    let mut written = 0;
    // Not a `for`: a turn takes a line, whatever its length.
    while at < text.len() {
        let line = first_line(rest(text, at));
        written = strike_line(line, out, written);
        at += line.len();
    }
    written
}

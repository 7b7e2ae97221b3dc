// The tokenizer.
ghost use Rattle.std.specs.Prelude.{◌≡◌, drop};
ghost use Rattle.text.specs.Words.{in_word, word};
ghost use Rattle.std.specs.List.{prefix_len};

#[tactic(auto, unfolding(crate::specs::Words::in_word))]
pub(crate) fn in_word(b: u8) -> bool
    ensures { result ≡ in_word b }
{
    !matches!(b, b' ' | b'(' | b')')
}

// The line from a place on; nothing past its end.
pub fn rest(line: &[u8], at: usize) -> &[u8]
    ensures { result.now ≡ drop at line.now }
{
    line.get(at..).unwrap_or(&[])
}

// How many of these bytes stand before the first space or bracket.
pub(crate) fn run(bytes: &[u8]) -> usize
    ensures { result ≡ prefix_len in_word bytes.now }
{
    bytes.iter().take_while(|b| in_word(**b)).count()
}

// The word that starts at a place, as part of the line. It is empty where no word starts, and past the line's end.
#[tactic(auto, using(crate::proofs::Words::word_is, crate::proofs::Words::run_inside))]
pub fn next_word(line: &[u8], at: usize) -> &[u8]
    ensures { result.now ≡ word (drop at line.now) }
{
    let rest = rest(line, at);
    &rest[..run(rest)]
}

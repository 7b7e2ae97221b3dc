// Skips.
ghost use Rattle.line_reader.specs.Reads.{rest, Reads};
ghost use Rattle.value_text.specs.Reads.{read_failure, read_skip};

use crate::number::spaced_number;
use head_values::BalSkip;
use line_reader::LineReader;

// `rpc N)` or `decode N)`: what follows the bracket of a skip that holds a number.
#[tactic(auto, using(crate::proofs::Stopped::byte_stopped, crate::proofs::Keywords::same_bytes, crate::proofs::Keywords::other_length, crate::proofs::Keywords::other_byte), unfolding(value_text::specs::Reads::read_failure, value_text::specs::Reads::map, value_text::specs::Reads::then, text::specs::Rests::says, value_text::specs::Words::word_text))]
pub(crate) fn take_failure(r: &mut LineReader<'_>) -> Option<BalSkip>
    ensures { Reads r.old r.new result (read_failure (rest r.old)) }
{
    let word = r.take_word();
    let n = spaced_number(r)?;
    r.past_byte(b')')?;
    match word {
        b"rpc" => Some(BalSkip::Rpc(n)),
        b"decode" => Some(BalSkip::Decode(n)),
        _ => None,
    }
}

// `none`, `no-hash`, `(rpc N)` or `(decode N)`.
#[tactic(auto, using(crate::proofs::Stopped::failure_stopped), unfolding(value_text::specs::Reads::read_skip, value_text::specs::Reads::or_word, value_text::specs::Words::word_text))]
pub fn take_skip(r: &mut LineReader<'_>) -> Option<BalSkip>
    ensures { Reads r.old r.new result (read_skip (rest r.old)) }
{
    if r.past_keyword(b"none") {
        return Some(BalSkip::Nothing);
    }
    if r.past_keyword(b"no-hash") {
        return Some(BalSkip::NoHash);
    }
    r.past_byte(b'(')?;
    take_failure(r)
}

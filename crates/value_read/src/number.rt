// A number after one space: a counter, a delivery number, an epoch, a waiter's number, or one of the host's.
ghost use Rattle.line_reader.specs.Reads.{rest, Reads};
ghost use Rattle.value_text.specs.Reads.{spaced_number};

use line_reader::LineReader;
use text_decimal::take_decimal;

#[tactic(auto, using(crate::proofs::Stopped::number_stopped), unfolding(value_text::specs::Reads::spaced_number))]
pub fn spaced_number(r: &mut LineReader<'_>) -> Option<u64>
    ensures { Reads r.old r.new result (spaced_number (rest r.old)) }
{
    r.past_byte(b' ')?;
    take_decimal(r)
}

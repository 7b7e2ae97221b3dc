// A text that has to stand next.
ghost use Rattle.std.specs.Prelude.{◌≡◌};
ghost use Rattle.line_reader.specs.Reads.{rest, rest_after};
ghost use Rattle.text.specs.Rests.{after};

use line_reader::LineReader;

// Takes the text; where another stands next, how much of it was taken is left open.
#[tactic(auto, using(crate::proofs::Texts::byte_passed, crate::proofs::Texts::byte_missed, crate::proofs::Texts::all_passed))]
pub fn past_text(r: &mut LineReader<'_>, text: &[u8]) -> Option<()>
    ensures line { r.new.line ≡ r.old.line }
    ensures rest { after text.now (rest r.old) ≡ rest_after result r.new }
{
    for b in text {
        r.past_byte(*b)?;
    }
    Some(())
}

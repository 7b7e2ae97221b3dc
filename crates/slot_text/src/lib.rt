// An anchor that may be absent, as text into a lent buffer.
// Knows nothing of what holds it, nor of an answer's line.
#![tactic(auto)]

ghost use Rattle.text_put.specs.Writers.{Puts, Room};
ghost use Rattle.value_text.specs.Texts.{slot_text};

use head_values::ReadAnchor;
use text_put::TextWriter;
use value_text::anchor::put_anchor;

// Puts an anchor, or `none`: two lines, as `put_block_hash`.
#[tactic(auto, unfolding(value_text::specs::Texts::slot_text, head_values::specs::Values::slot_value, value_text::specs::Texts::anchor_text, value_text::specs::Values::value_text, value_text::specs::Words::word_text))]
pub fn put_slot(out: &mut TextWriter<'_>, slot: Option<ReadAnchor>)
    requires { Room out.old 89 }
    ensures { Puts out.old out.new 89 (slot_text slot) }
{
    match slot {
        None => out.text(b"none"),
        Some(anchor) => put_anchor(out, anchor),
    }
}

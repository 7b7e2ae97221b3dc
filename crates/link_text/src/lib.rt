// What is wrong with a link, as text into a lent buffer.
// Knows nothing of what holds a link, nor of an answer's line.
#![tactic(auto)]

ghost use Rattle.value_text.specs.Texts.{fault_text};
ghost use Rattle.text_put.specs.Writers.{Puts, Room};

use head_values::Link;
use text_put::TextWriter;

// Puts what is wrong with a link, or `none`.
#[tactic(auto, unfolding(value_text::specs::Texts::fault_text, head_values::specs::Values::fault_value, value_text::specs::Values::value_text, value_text::specs::Words::word_text))]
pub fn put_fault(out: &mut TextWriter<'_>, link: Link)
    requires { Room out.old 15 }
    ensures { Puts out.old out.new 15 (fault_text link) }
{
    match link {
        Link::Linked => out.text(b"none"),
        Link::NoParent => out.text(b"no-parent"),
        Link::NotConsecutive => out.text(b"not-consecutive"),
        Link::HashUnknown => out.text(b"hash-unknown"),
        Link::HashMismatch => out.text(b"hash-mismatch"),
    }
}

// Anchors as text.
#![tactic(auto, using(text_put::proofs::Writers::wrote_both), unfolding(crate::specs::Texts::block_hash_text, head_values::specs::Values::block_hash_value, crate::specs::Values::value_text, crate::specs::Words::word_text, crate::specs::Texts::anchor_text, head_values::specs::Values::anchor_value))]

ghost use Rattle.value_text.specs.Texts.{block_hash_text, anchor_text};
ghost use Rattle.text_put.specs.Writers.{Puts, Room};

use hash::Hash;
use hash_text::put_hash;
use head_values::ReadAnchor;
use number_text::put_decimal;
use text_put::TextWriter;

// Puts an anchor's hash, or `none`: two lines, as for each value that may be absent, where a writer handed in would take as many.
pub(crate) fn put_block_hash(out: &mut TextWriter<'_>, hash: Option<Hash>)
    requires { Room out.old 66 }
    ensures { Puts out.old out.new 66 (block_hash_text hash) }
{
    match hash {
        None => out.text(b"none"),
        Some(known) => put_hash(out, known),
    }
}

// Puts `(NUMBER HASH)` or `(NUMBER none)`.
pub fn put_anchor(out: &mut TextWriter<'_>, anchor: ReadAnchor)
    requires { Room out.old 89 }
    ensures { Puts out.old out.new 89 (anchor_text anchor) }
{
    out.byte(b'(');
    put_decimal(out, anchor.number);
    out.byte(b' ');
    put_block_hash(out, anchor.hash);
    out.byte(b')');
}

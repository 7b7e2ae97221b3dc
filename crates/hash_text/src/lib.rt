// Hashes as hexadecimal text: their writer.
// Knows nothing of how a hash is read, nor of a head, a call, an answer or a sheet's other parts.
#![tactic(auto)]

ghost use Rattle.hash_text.specs.Hex.{hex};
ghost use Rattle.hash_text.specs.Texts.{hash_text};
ghost use Rattle.text_put.specs.Writers.{Puts, Room};

use hash::Hash;
use text_put::TextWriter;

// Puts one of the four 64-bit words.
#[tactic(auto, using(crate::proofs::HexFill::hex_is, crate::proofs::HexFill::hex_long))]
pub(crate) fn put_hex(out: &mut TextWriter<'_>, n: u64)
    requires { Room out.old 16 }
    ensures { Puts out.old out.new 16 (hex n) }
{
    let mut digits = [0u8; 16];
    let _ = hex::encode_to_slice(n.to_be_bytes(), &mut digits);
    out.text(&digits);
}

// Puts a hash: in an answer as on a sheet.
#[tactic(auto, using(text_put::proofs::Writers::wrote_both), unfolding(crate::specs::Texts::hash_text, crate::specs::Texts::hash_prefix, crate::specs::Hex::hex_text))]
pub fn put_hash(out: &mut TextWriter<'_>, h: Hash)
    requires { Room out.old 66 }
    ensures { Puts out.old out.new 66 (hash_text h) }
{
    out.text(b"0x");
    put_hex(out, h.w0);
    put_hex(out, h.w1);
    put_hex(out, h.w2);
    put_hex(out, h.w3);
}

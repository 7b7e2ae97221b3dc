// Text into a lent buffer.
ghost use Rattle.std.specs.Prelude.{◌+◌, ◌≤◌, length};
ghost use Rattle.text.specs.Writes.{Wrote};

// Puts a text from a place on, and hands back the place after it.
#[tactic(auto, using(text::proofs::Writes::copied))]
pub fn put(buf: &mut [u8], at: usize, text: &[u8]) -> usize
    requires { at + length text.now ≤ length buf.old }
    ensures wrote { Wrote buf.old buf.new at result text.now }
    ensures upper_bound { result ≤ at + length text.now }
{
    let end = at + text.len();
    buf[at..end].copy_from_slice(text);
    end
}

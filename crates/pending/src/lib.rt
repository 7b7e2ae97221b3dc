// The part of a line that has come so far, kept in a lent buffer until its line feed comes: the caller's memory, so its count goes in and out beside it. Knows no call.
#![tactic(auto)]

ghost use Rattle.std.specs.Prelude.{◌≤◌, ◌≡◌, length};
ghost use Rattle.pending.specs.Kept.{Keeps, keep_all, part, room_for};

use memchr::memchr;
use text::word::rest;
use text_put::put::put;

// How many bytes of the line are held now, the place in the input after what was taken, and whether that was a line feed: the numbers hold in both cases.
#[derive(Clone, Copy)]
pub struct Kept {
    pub held: usize,
    pub at: usize,
    pub ended: bool,
}

// How many of these bytes are still to be held.
#[tactic(auto, unfolding(crate::specs::Kept::room_for))]
pub(crate) fn room_for(count: usize, held: usize) -> usize
    ensures { result ≡ room_for count held }
{
    count.min(513usize.saturating_sub(held))
}

#[tactic(auto, using(crate::proofs::Keeping::none_held, crate::proofs::Keeping::put_room, crate::proofs::Keeping::room_within, crate::proofs::Keeping::some_held))]
pub(crate) fn hold(buffer: &mut [u8], held: usize, bytes: &[u8]) -> usize
    requires { 513 ≤ length buffer.old }
    ensures { part buffer.new result ≡ keep_all (part buffer.old held) bytes.now }
{
    let count = room_for(bytes.len(), held);
    if count == 0 {
        return held;
    }
    put(buffer, held, &bytes[..count])
}

// Keeps the bytes from a place of the input up to the next line feed, which is taken too, or to the input's end.
pub fn keep(buffer: &mut [u8], held: usize, input: &[u8], at: usize) -> Kept
    requires { 513 ≤ length buffer.old }
    ensures { Keeps buffer.old held buffer.new input.now at result }
{
    let rest = rest(input, at);
    match memchr(b'\n', rest) {
        Some(n) => Kept {
            held: hold(buffer, held, &rest[..n]),
            at: at + n + 1,
            ended: true,
        },
        None => Kept {
            held: hold(buffer, held, rest),
            at: at + rest.len(),
            ended: false,
        },
    }
}

// The lines of the waiters: waiter n is what the next line says if it names n, else free.
ghost use Rattle.std.specs.Prelude.{cond, ◌≡◌};
ghost use Rattle.line_reader.specs.Reads.{rest, Reads};
ghost use Rattle.text.specs.Ascii.{ascii};
ghost use Rattle.text.specs.Rests.{after, read_number};
ghost use Rattle.sheet_read.specs.Waiters.{names, read_waiter, read_waiter_at, read_waiters, waiter_named};

use head_attempt::{Waiter, WaiterSlot};
use line_reader::LineReader;
use text_decimal::take_decimal;
use value_read::anchor::take_anchor;
use value_read::given::past_text;
use value_text::page::Page;

// What follows the word that names how a waiter stands.
#[tactic(auto, using(value_read::proofs::Stopped::byte_stopped, value_read::proofs::Stopped::anchor_stopped, value_read::proofs::Keywords::same_bytes, value_read::proofs::Keywords::other_length, value_read::proofs::Keywords::other_byte), unfolding(crate::specs::Waiters::waiter_named, value_text::specs::Reads::map))]
pub(crate) fn take_named(r: &mut LineReader<'_>, word: &[u8]) -> Option<Waiter>
    ensures { Reads r.old r.new result (waiter_named word.now (rest r.old)) }
{
    match word {
        b"parked" => Some(Waiter::Parked),
        b"abandoned" => {
            r.past_byte(b' ')?;
            Some(Waiter::Abandoned(take_anchor(r, Page::Sheet)?))
        }
        b"ended" => {
            r.past_byte(b' ')?;
            Some(Waiter::Ended(take_anchor(r, Page::Sheet)?))
        }
        _ => None,
    }
}

// A waiter's line after its number.
#[tactic(auto, using(value_read::proofs::Stopped::byte_stopped, crate::proofs::Stopped::text_stopped, crate::proofs::Stopped::waiter_stopped), unfolding(crate::specs::Waiters::read_waiter, value_text::specs::Reads::then))]
pub(crate) fn take_waiter(r: &mut LineReader<'_>) -> Option<Waiter>
    ensures { Reads r.old r.new result (read_waiter (rest r.old)) }
{
    r.past_byte(b' ')?;
    let word = r.take_word();
    let waiter = take_named(r, word)?;
    past_text(r, b")\n")?;
    Some(waiter)
}

// Whether a line of that waiter stands next; if so it is taken up to the number, with it, and else nothing.
#[tactic(auto, using(crate::proofs::Stopped::names_stopped), unfolding(crate::specs::Waiters::names, crate::specs::Waiters::going))]
pub(crate) fn past_number(r: &mut LineReader<'_>, n: u64) -> bool
    ensures said { result ≡ names n (read_number (after (ascii "(wait ") (rest r.old))) }
    ensures line { r.new.line ≡ r.old.line }
    ensures rest { cond result (read_number (after (ascii "(wait ") (rest r.old))).next (rest r.old) ≡ rest r.new }
{
    let mut ahead = *r;
    if past_text(&mut ahead, b"(wait ").is_none() {
        return false;
    }
    if take_decimal(&mut ahead) != Some(n) {
        return false;
    }
    *r = ahead;
    true
}

// Waiter n: what the next line says, if it names n.
#[tactic(auto, unfolding(crate::specs::Waiters::read_waiter_at))]
pub(crate) fn take_waiter_at(r: &mut LineReader<'_>, n: u64) -> Option<Waiter>
    ensures { Reads r.old r.new result (read_waiter_at n (rest r.old) (read_number (after (ascii "(wait ") (rest r.old)))) }
{
    if past_number(r, n) {
        return take_waiter(r);
    }
    Some(Waiter::Free)
}

// The sixteen, ascending.
#[tactic(auto, using(crate::proofs::Waiters::none_filled, crate::proofs::Waiters::next_filled, crate::proofs::Waiters::all_filled, crate::proofs::Waiters::not_filled))]
pub(crate) fn take_waiters(r: &mut LineReader<'_>) -> Option<[WaiterSlot; 16]>
    ensures { Reads r.old r.new result (read_waiters 16 0 (rest r.old)) }
{
    let free = WaiterSlot {
        waiter: Waiter::Free,
    };
    let mut waiters = [free; 16];
    for n in 0..16 {
        let waiter = take_waiter_at(r, n as u64)?;
        waiters[n] = WaiterSlot { waiter };
    }
    Some(waiters)
}

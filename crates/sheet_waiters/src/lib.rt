// The lines of a sheet for the waiters, each with its line feed, into a lent buffer.
// Knows nothing of a sheet's other lines.
#![tactic(auto, using(text_put::proofs::Writers::wrote_both, text_put::proofs::Writers::wrote_nothing), unfolding(sheet_lines::specs::Lines::waiter_line))]

ghost use Rattle.std.specs.Prelude.{◌+◌, length, ◌++◌};
ghost use Rattle.sheet_lines.specs.Lines.{waiter_line, waiter_lines};
ghost use Rattle.text.specs.Ascii.{ascii};
ghost use Rattle.text.specs.Decimals.{decimal};
ghost use Rattle.text_put.specs.Writers.{Puts, Room};
ghost use Rattle.value_text.specs.Texts.{anchor_text};

use head_attempt::{Waiter, WaiterSlot};
use head_values::ReadAnchor;
use number_text::put_decimal;
use text_put::TextWriter;
use value_text::anchor::put_anchor;

// Puts `(wait N`, as every line of a waiter begins.
pub(crate) fn put_number(out: &mut TextWriter<'_>, n: u64)
    requires { Room out.old 26 }
    ensures { Puts out.old out.new 26 (ascii "(wait " ++ decimal n) }
{
    out.text(b"(wait ");
    put_decimal(out, n);
}

// Puts the end of a preparation, a word between spaces, and the anchor that was prepared.
pub(crate) fn put_woken(out: &mut TextWriter<'_>, end: &[u8], anchor: ReadAnchor)
    requires { Room out.old (length end.now + 91) }
    ensures { Puts out.old out.new (length end.now + 91) (end.now ++ (anchor_text anchor ++ ascii ")\n")) }
{
    out.text(end);
    put_anchor(out, anchor);
    out.text(b")\n");
}

// Puts the line of waiter n. A free one has none.
pub(crate) fn put_waiter(out: &mut TextWriter<'_>, n: u64, waiter: Waiter)
    requires { Room out.old 128 }
    ensures { Puts out.old out.new 128 (waiter_line n waiter) }
{
    match waiter {
        Waiter::Free => {}
        Waiter::Parked => {
            put_number(out, n);
            out.text(b" parked)\n");
        }
        Waiter::Abandoned(anchor) => {
            put_number(out, n);
            put_woken(out, b" abandoned ", anchor);
        }
        Waiter::Ended(anchor) => {
            put_number(out, n);
            put_woken(out, b" ended ", anchor);
        }
    }
}

// Puts the lines of the waiters that are not free, ascending.
#[tactic(auto, using(text_put::proofs::Writers::wrote_both, text_put::proofs::Writers::wrote_nothing, crate::proofs::Rows::waiters_all, crate::proofs::Rows::waiters_more), unfolding(sheet_lines::specs::Lines::waiter_lines))]
pub fn put_waiters(out: &mut TextWriter<'_>, slots: [WaiterSlot; 16])
    requires { Room out.old 2048 }
    ensures { Puts out.old out.new 2048 (waiter_lines 0 slots) }
{
    for (i, slot) in slots.iter().enumerate() {
        put_waiter(out, i as u64, slot.waiter);
    }
}

// The sheet of a driver, into the caller's buffer.
// Knows nothing of the call that asks for it.
#![tactic(auto)]

ghost use Rattle.script_sheet.specs.Sheets.{sheet_text};
ghost use Rattle.script_value.specs.Buffers.{AtFront};
ghost use Rattle.text_put.specs.Writers.{Puts, Room};

use crate::life::put_life;
use head_driver::Driver;
use sheet_waiters::put_waiters;
use text_put::TextWriter;

mod life;
mod mask;

// 2,992 counts 20 digits for each waiter's number; no sheet is longer than 2,694 bytes (`script_lengths`).
#[tactic(auto, using(text_put::proofs::Writers::wrote_both, crate::proofs::Shown::sheet_shown))]
pub(crate) fn put_lines(out: &mut TextWriter<'_>, d: Driver)
    requires { Room out.old 2992 }
    ensures { Puts out.old out.new 2992 (sheet_text d) }
{
    put_life(out, d.life);
    put_waiters(out, d.waiters);
}

// Writes the sheet at the front of a buffer, as `put_line` an answer's line in as many lines: one function over a writer handed in would need that writer's contract written out. It tells how many bytes these are. Every sheet asks for the same room, so that
// a host that lends 4,096 bytes is never refused.
pub fn put_sheet(buf: &mut [u8], d: Driver) -> Option<usize>
    ensures { AtFront 4096 buf.old buf.new (sheet_text d) result }
{
    if buf.len() < 4096 {
        return None;
    }
    let mut out = TextWriter { buf, at: 0 };
    put_lines(&mut out, d);
    Some(out.at)
}

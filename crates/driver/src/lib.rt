// The library that a host calls: a line in, an answer out, and the sheet into the caller's buffer; and the answer's line into another.
// Knows nothing of where lines come from.
#![tactic(auto)]

ghost use Rattle.std.specs.Prelude.{◌≡◌};
ghost use Rattle.driver.specs.Turns.{Takes, made, sheet_answer};

use head_driver::{Driver, Reply};
use head_step::head_lifecycle::step;
pub use script_answer::{LineAnswer, put_line};
use script_call::{LineCall, read_call};
use script_sheet::put_sheet;

// A type of its own, as `Reply` says.
#[derive(Clone, Copy)]
pub struct Turn {
    pub driver: Driver,
    pub answer: LineAnswer,
}

// Named as its definition; a `From` would name none.
#[tactic(auto, unfolding(crate::specs::Turns::made))]
pub(crate) fn made(reply: Reply) -> Turn
    ensures { result ≡ made reply }
{
    Turn {
        driver: reply.driver,
        answer: LineAnswer::Said(reply.answer),
    }
}

// Named as its definition; a `From` would name none.
#[tactic(auto, unfolding(crate::specs::Turns::sheet_answer))]
pub(crate) fn sheet_answer(written: Option<usize>) -> LineAnswer
    ensures { result ≡ sheet_answer written }
{
    match written {
        None => LineAnswer::SheetTooShort,
        Some(n) => LineAnswer::Sheet(n),
    }
}

// A line without its line feed. Only `(sheet)` looks at the sheet buffer.
// Kept out of its caller: inlined there it costs one copy of the driver more for each line.
#[tactic(auto, using(crate::proofs::Turned::takes, head_driver::proofs::Replied::reply_exact), unfolding(crate::specs::Turns::turn_of, crate::specs::Turns::sheet_after))]
#[inline(never)]
pub fn take_line(d: Driver, line: &[u8], sheet: &mut [u8]) -> Turn
    ensures { Takes d line.now sheet.old sheet.new result }
{
    match read_call(line) {
        None => Turn {
            driver: d,
            answer: LineAnswer::NoCall,
        },
        Some(LineCall::Sheet) => Turn {
            driver: d,
            answer: sheet_answer(put_sheet(sheet, d)),
        },
        Some(LineCall::Make(call)) => made(step(d, call)),
    }
}

// The driver as a C library: each function here is called by a host in another language. A call brings its line, the sheet that the
// driver is read from and written to, and the answer's buffer; nothing is kept between calls.
// Knows nothing of what a line does, nor of how a sheet is read and written.
#![tactic(auto)]

ghost use Rattle.temsroi.specs.Calls.{Begins, Calls, left};

mod buffers;

use buffers::{leave_sheet, make_call, sheet_in};
use driver::LineAnswer;
use head_driver::Driver;
use rebuild::rebuild;

// A new driver's sheet, so that no host types one.
#[unsafe(no_mangle)]
pub extern "C" fn temsroi_new(sheet: &mut [u8]) -> u64
    ensures { Begins sheet.old result sheet.new }
{
    if sheet.len() < 4096 {
        return 4;
    }
    leave_sheet(sheet, Driver::new());
    0
}

// The call of a line without its line feed, on the driver that the sheet gives.
#[tactic(auto, using(crate::proofs::Made::turned_away, crate::proofs::Made::makes))]
#[unsafe(no_mangle)]
pub extern "C" fn temsroi_call(line: &[u8], sheet: &mut [u8], answer: &mut [u8]) -> u64
    ensures { Calls line.now sheet.old answer.old (left result sheet.new answer.new) }
{
    if sheet.len() < 4096 || answer.len() < 512 {
        return 4;
    }
    let turn = rebuild(Driver::new(), sheet_in(sheet));
    if let LineAnswer::SheetNotTaken = turn.answer {
        return 5;
    }
    make_call(turn.driver, line, sheet, answer);
    0
}

// The two buffers that a host lends: a sheet read and left, an answer left.
ghost use Rattle.std.specs.Prelude.{◌≤◌, ◌≡◌, length};
ghost use Rattle.driver.specs.Turns.{turn_of};
ghost use Rattle.script_answer.specs.Answers.{line_text};
ghost use Rattle.script_call.specs.Calls.{call};
ghost use Rattle.script_sheet.specs.Sheets.{sheet_text};
ghost use Rattle.temsroi.specs.Calls.{answer_here, answer_left, sheet_in, sheet_left};

use driver::{LineAnswer, put_line, take_line};
use head_driver::{Answer, Driver};
use memchr::memchr;
use script_sheet::put_sheet;

// The sheet that stands in a buffer.
#[tactic(auto, using(crate::proofs::LentBuffers::no_zero, crate::proofs::LentBuffers::zero_at))]
pub(crate) fn sheet_in(buffer: &[u8]) -> &[u8]
    ensures { result.now ≡ sheet_in buffer.now }
{
    match memchr(0, buffer) {
        Some(n) => &buffer[..n],
        None => buffer,
    }
}

// A driver's sheet, and zero bytes to the buffer's end.
// There is a count: only a buffer under 4,096 bytes has none.
#[tactic(auto, using(crate::proofs::LentBuffers::count_fits, crate::proofs::LentBuffers::zeros_left))]
pub(crate) fn leave_sheet(sheet: &mut [u8], d: Driver)
    requires { 4096 ≤ length sheet.old }
    ensures { sheet.new ≡ sheet_left (sheet_text d) sheet.old }
{
    let n = put_sheet(sheet, d).unwrap_or(0);
    sheet[n..].fill(0);
}

// Whoever asks for the sheet has it in his buffer after every call.
#[tactic(auto, unfolding(crate::specs::Calls::answer_here))]
pub(crate) fn answer_here(answer: LineAnswer) -> LineAnswer
    ensures { result ≡ answer_here answer }
{
    match answer {
        LineAnswer::Sheet(_) => LineAnswer::Said(Answer::Done),
        _ => answer,
    }
}

// Makes the call of a line on a driver, and leaves its sheet and its answer in the buffers.
#[tactic(auto, using(crate::proofs::Made::sheet_made, crate::proofs::Made::answer_made))]
pub(crate) fn make_call(d: Driver, line: &[u8], sheet: &mut [u8], answer: &mut [u8])
    requires sheet_long { 4096 ≤ length sheet.old }
    requires answer_long { 512 ≤ length answer.old }
    ensures sheet { sheet.new ≡ sheet_left (sheet_text (turn_of d (call line.now) sheet.old).driver) sheet.old }
    ensures answer { answer.new ≡ answer_left (line_text (answer_here (turn_of d (call line.now) sheet.old).answer)) answer.old }
{
    let turn = take_line(d, line, sheet);
    leave_sheet(sheet, turn.driver);
    put_line(answer, answer_here(turn.answer));
}

// One line's answer as it is printed: its answer's line, or the sheet.
ghost use Rattle.std.specs.Prelude.{◌≤◌, length};
ghost use Rattle.script_call.specs.Calls.{call};
ghost use Rattle.script.specs.Prints.{leaves, prints};
ghost use Rattle.script.specs.Parts.{Prints, PutsAnswer};

use crate::Printed;
use driver::{LineAnswer, put_line, take_line};
use head_driver::Driver;

// A sheet stands in the buffer already. An answer of a call has a way of its own: with one for all answers the program is 10 % slower.
#[tactic(auto, using(crate::proofs::Printing::puts_line, crate::proofs::Printing::puts_sheet), unfolding(crate::specs::Parts::answer_length))]
pub(crate) fn put_answer(out: &mut [u8], answer: LineAnswer) -> usize
    requires { 512 ≤ length out.old }
    ensures { PutsAnswer answer out.old out.new result }
{
    match answer {
        LineAnswer::Said(said) => put_line(out, LineAnswer::Said(said)).unwrap_or(0),
        LineAnswer::Sheet(n) => n,
        _ => put_line(out, answer).unwrap_or(0),
    }
}

// Answers a line at the front of a buffer, which serves as the sheet's buffer too.
#[tactic(auto, using(crate::proofs::Printing::prints_line))]
pub(crate) fn print_line(d: Driver, line: &[u8], out: &mut [u8]) -> Printed
    requires { 4096 ≤ length out.old }
    ensures { Prints (prints d (call line.now)) (leaves d (call line.now)) out.old out.new result }
{
    let turn = take_line(d, line, out);
    let driver = turn.driver;
    let answer = turn.answer;
    let written = put_answer(out, answer);
    Printed { driver, written }
}

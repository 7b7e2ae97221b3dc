// What headscript does with its arguments, its input and its output: document 01's program, and document 02's way to start it from a sheet.
// It only reads and writes, and says where no sheet was taken; every other answer is the library's. Knows nothing of lines, calls or the state.
#![tactic(auto)]

ghost use Rattle.std.specs.Prelude.{◌≡◌, OnOk, true};
ghost use Rattle.std.specs.Io.KnownBytes.{Appends};
ghost use Rattle.runner.specs.Reads.{Runs};
ghost use Rattle.script_answer.specs.Answers.{line_text};
ghost use Rattle.script_answer.specs.declared.LineAnswer.{LineAnswer};

mod answer;
mod start;

use answer::answer_input;
use driver::{LineAnswer, put_line};
use head_driver::Driver;
pub use start::{first_driver, words};
use std::io::{self, Read, Write};

// The only output where there is no driver to start from: nobody may take a new driver for the old one.
#[tactic(auto, unfolding(script_value::specs::Buffers::written, script_value::specs::Buffers::buffer_after))]
fn print_not_taken<W: Write>(out: &mut W) -> io::Result<()>
    ensures { OnOk result (Appends (W.contents out.old) (W.contents out.new) (line_text LineAnswer.SheetNotTaken)) }
{
    let mut line = [0u8; 512];
    let n = put_line(&mut line, LineAnswer::SheetNotTaken).unwrap_or(0);
    out.write_all(line.get(..n).unwrap_or(b""))
}

// A run from its start to the end of its input; whether all of it was read and every answer written.
pub fn run<R: Read, W: Write>(first: Option<Driver>, input: &mut R, out: &mut W) -> bool
    ensures { result ≡ true → Runs first (R.remaining input.old) (W.contents out.old) (W.contents out.new) }
{
    match first {
        Some(driver) => answer_input(input, out, driver),
        None => print_not_taken(out).is_ok(),
    }
}

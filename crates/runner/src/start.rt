// What a run starts from: a new driver, or the one that the sheet in a file shows.
// Knows nothing of lines, nor of how a sheet is read.
ghost use Rattle.std.specs.Prelude.{◌≤◌, IfOk, length, take};
ghost use Rattle.runner.specs.Starts.{ReadsWhole, ShownBy, Shows, Starts};

use driver::LineAnswer;
use head_driver::Driver;
use rebuild::rebuild;
use std::env::{Env, FillError};
use std::fs::{File, Files};
use std::io::{self, ErrorKind, Read};

// All that a reader has, however it brings it, up to what there is room for: how many bytes.
fn read_whole<R: Read>(reader: &mut R, room: &mut [u8]) -> io::Result<usize>
    ensures within { IfOk result (λ n. n ≤ length room.old) }
    ensures whole { IfOk result (λ n. ReadsWhole (R.remaining reader.old) (R.remaining reader.new) (take n room.new) (length room.old)) }
{
    let mut at = 0;
    while at < room.len() {
        let n = reader.read(&mut room[at..])?;
        if n == 0 {
            break;
        }
        at += n;
    }
    Ok(at)
}

// The driver that the bytes show, where they are taken.
#[tactic(auto, using(crate::proofs::Wholes::shows_done, crate::proofs::Wholes::shows_none))]
fn shown(sheet: &[u8]) -> Option<Driver>
    ensures { Shows sheet.now result }
{
    let turn = rebuild(Driver::new(), sheet);
    match turn.answer {
        LineAnswer::SheetNotTaken => None,
        _ => Some(turn.driver),
    }
}

// The driver that the sheet of a reader shows. No sheet has 4,097 bytes, so no more is read.
#[tactic(auto, using(crate::proofs::Wholes::shown_by))]
fn rebuilt<R: Read>(reader: &mut R) -> io::Result<Option<Driver>>
    ensures { IfOk result (λ got. ShownBy (R.remaining reader.old) got) }
{
    let mut sheet = [0u8; 4097];
    let n = read_whole(reader, &mut sheet)?;
    Ok(shown(&sheet[..n]))
}

// The driver that the sheet in the file of that name shows. A name that is no UTF-8 opens nothing.
fn put_back<R: Files>(rt: &R, name: &[u8]) -> io::Result<Option<Driver>> {
    let Ok(name) = str::from_utf8(name) else {
        return Err(io::Error::from(ErrorKind::InvalidInput));
    };
    let mut file = File::open(rt, name)?;
    rebuilt(&mut file)
}

// Whether the program was started with that word; word 0 is its own name.
fn given<E: Env>(env: &E, i: usize) -> bool {
    !matches!(env.arg(i, &mut []), Err(FillError::NotPresent))
}

// How many words the program was started with, its own name among them; 3 where there are more.
pub fn words<E: Env>(env: &E) -> usize
    ensures { result ≤ 3 }
{
    if !given(env, 1) {
        return 1;
    }
    if !given(env, 2) {
        return 2;
    }
    3
}

// By how many words the program was started with, its own name among them, and the second of them. What a file has no contract can say.
pub fn first_driver<R: Files>(rt: &R, words: usize, name: &[u8]) -> Option<Driver>
    ensures { Starts words result }
{
    match words {
        0 | 1 => Some(Driver::new()),
        2 => put_back(rt, name).unwrap_or(None),
        3.. => None,
    }
}

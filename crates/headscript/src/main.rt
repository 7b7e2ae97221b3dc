// headscript: answers the lines of its standard input on its standard output, document 01's program. With the name of a file it starts from the sheet
// there; where that is not taken, `(refused 5)` is all that it prints.
// Knows nothing of how: what it does is `runner`'s.
#![tactic(auto)]

use runner::{first_driver, run, words};
use std::env::Env;
use std::io;

fn main(rt: HostRuntime) {
    let mut name = [0u8; 4096];
    let n = rt.arg(1, &mut name).unwrap_or(0);
    let driver = first_driver(&rt, words(&rt), &name[..n]);
    run(driver, &mut rt.reader(), &mut io::writer(&rt));
}

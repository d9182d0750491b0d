// Reads a script of calls from standard input, carries them out on a device memory and prints what each did.
#![tactic(auto)]

mod asking;
mod batch;
mod bench;
mod coded;
mod cutting;
mod expected;
mod extents;
mod faults;
mod frames;
mod hex;
mod line;
mod lists;
mod making;
mod numbers;
mod outcome;
mod parts;
mod reading;
mod records;
mod registered;
mod rows;
mod run;
mod script;
mod sheets;
mod size;
mod space;
mod storage;
mod telling;
mod width;
mod words;

use run::run_lines;
use script::read_script;
use std::io;
use std::io::{ErrorKind, Read};

fn main(rt: HostRuntime) -> io::Result<()> {
    let mut text = Vec::new(rt.alloc());
    rt.stdin().read_to_end(&mut text)?;
    let script = read_script(rt.alloc(), text.as_slice())?;
    run_lines(&rt, script.lines.as_slice())?;
    match script.unread {
        None => Ok(()),
        Some(unread) => {
            let line = unread.line;
            let expected = unread.expected;
            println!(rt; "line {line}: expected {expected}")?;
            Err(io::Error::from(ErrorKind::InvalidInput))
        }
    }
}

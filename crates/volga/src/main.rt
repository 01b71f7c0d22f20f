//! The program: reads a script from the file that its first argument names or from standard input, carries out each line,
//! and prints what came of it. What matters is in the libraries below.
#![tactic(auto)]

mod faults;
mod files;
mod marks;
mod session;
mod store;

use anyhow::ensure;
use session::Session;
use std::env;
use std::fs::File;
use std::io::{BufRead, BufReader, Read};

fn run<R: Read + Drop>(rt: &HostRuntime, input: R) -> anyhow::Result<bool> {
    let lines = BufReader::new(rt.alloc(), input)?.split(rt.alloc(), b'\n');
    let mut session = Session::new(rt.alloc())?;
    for (number, line) in (1..u64::MAX).zip(lines) {
        session.carry_out(rt, number, &line?)?;
    }
    Ok(session.went_well())
}

fn script(rt: &HostRuntime) -> anyhow::Result<()> {
    let well = match env::args(rt)?.nth(1) {
        Some(path) => run(rt, File::open(rt, path.as_str())?)?,
        None => run(rt, rt.stdin())?,
    };
    ensure!(well, "a line of the script could not be carried out");
    Ok(())
}

fn main(rt: HostRuntime) -> anyhow::Result<()> {
    script(&rt)
}

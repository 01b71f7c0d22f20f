//! Reads cases for the gate, one a line, and prints what it answers and what both marks buffers then hold. A case is
//! `IMAGE BASE COUNT STARTS TARGETS`: bytes as hexadecimal digits, `-` for none, numbers in decimal.
#![tactic(auto)]

use gate::entries::EntryRow;
use gate::refusals::Refusal;
use gate::verdicts::judge;
use script::groups::bytes;
use script::numbers::number;
use script::problems::Problem;
use script::spelling::Spelled;
use script::words::Words;
use std::alloc::Global;
use std::io;
use std::io::{BufRead, BufReader};

#[derive(Drop)]
struct Case {
    image: Vec<u8>,
    row: EntryRow,
    starts: Vec<u8>,
    targets: Vec<u8>,
}

fn word<'a>(words: &mut Words<'a>) -> Result<&'a [u8], Problem> {
    words.next().ok_or(Problem::NoNumber)
}

fn group(heap: Global, words: &mut Words<'_>) -> Result<Vec<u8>, Problem> {
    match word(words)? {
        b"-" => Ok(Vec::new(heap)),
        word => bytes(heap, word),
    }
}

fn parsed(heap: Global, line: &[u8]) -> Result<Case, Problem> {
    let mut words = Words::new(line);
    let image = group(heap, &mut words)?;
    let base = number(word(&mut words)?)?;
    let count = number(word(&mut words)?)?;
    let starts = group(heap, &mut words)?;
    let targets = group(heap, &mut words)?;
    Ok(Case {
        image,
        row: EntryRow { base, count },
        starts,
        targets,
    })
}

fn show_buffer(rt: &HostRuntime, buffer: &[u8]) -> io::Result<()> {
    if buffer.is_empty() {
        print!(rt; " -")
    } else {
        print!(rt; " {}", Spelled(buffer))
    }
}

fn show_verdict(rt: &HostRuntime, verdict: Result<(), Refusal>) -> io::Result<()> {
    match verdict {
        Ok(()) => print!(rt; "passed"),
        Err(refusal) => {
            let number = refusal.number();
            match refusal.address() {
                Some(at) => print!(rt; "refused {number} {at}"),
                None => print!(rt; "refused {number}"),
            }
        }
    }
}

fn run(rt: &HostRuntime, case: Case) -> io::Result<()> {
    let Case {
        image,
        row,
        mut starts,
        mut targets,
    } = case;
    let verdict = judge(&image, row, starts.as_mut_slice(), targets.as_mut_slice());
    show_verdict(rt, verdict)?;
    show_buffer(rt, starts.as_slice())?;
    show_buffer(rt, targets.as_slice())?;
    println!(rt; "")
}

fn show(rt: &HostRuntime, line: &[u8]) -> io::Result<()> {
    match parsed(rt.alloc(), line) {
        Ok(case) => run(rt, case),
        Err(problem) => println!(rt; "error: {problem}"),
    }
}

fn main(rt: HostRuntime) -> anyhow::Result<()> {
    for line in BufReader::new(rt.alloc(), rt.stdin())?.lines(rt.alloc()) {
        show(&rt, line?.as_bytes())?;
    }
    Ok(())
}

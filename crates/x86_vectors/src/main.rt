//! Reads encodings, one a line, and prints what the decoder and the recogniser of pairs make of each. `#` starts a
//! comment; `pair` before the bytes asks for a pair.
#![tactic(auto)]

use script::groups::bytes;
use std::fmt::Display;
use std::io::{BufRead, BufReader};
use std::{fmt, io};
use syntax::Intel;
use syntax::instructions::Shown;
use x86::decoding::decode;
use x86::instructions::{Class, Decoded};
use x86::pairs::recognise;

// A word of this program's lines: the decoder has no words for a class, and a Display of its type could not stand here.
fn class_word(class: Class) -> &'static str {
    match class {
        Class::Straight => "straight",
        Class::Direct => "direct",
        Class::Loose => "loose",
    }
}

/// A form with its length and its class.
#[derive(Clone, Copy)]
struct Form(Decoded);

impl fmt::Display for Form {
    fn fmt<W: fmt::Write>(&self, f: &mut fmt::Formatter<W>) -> fmt::Result {
        let decoded = self.0;
        let class = class_word(decoded.instruction.class());
        write!(f, "{} {class} {}", decoded.length, Shown { at: 0, decoded })
    }
}

fn show_found<T: Display + Drop>(rt: &HostRuntime, line: &str, found: Option<T>) -> io::Result<()> {
    match found {
        Some(found) => println!(rt; "{line}: {found}"),
        None => println!(rt; "{line}: none"),
    }
}

fn show(rt: &HostRuntime, line: &str) -> io::Result<()> {
    if line.is_empty() || line.starts_with('#') {
        return Ok(());
    }
    let pair = line.strip_prefix("pair ");
    match bytes(rt.alloc(), pair.unwrap_or(line).as_bytes()) {
        Ok(code) if pair.is_some() => show_found(rt, line, recognise(&code, 0).map(Intel)),
        Ok(code) => show_found(rt, line, decode(&code, 0).map(Form)),
        Err(problem) => println!(rt; "{line}: {problem}"),
    }
}

fn main(rt: HostRuntime) -> anyhow::Result<()> {
    for line in BufReader::new(rt.alloc(), rt.stdin())?.lines(rt.alloc()) {
        show(&rt, line?.as_str())?;
    }
    Ok(())
}

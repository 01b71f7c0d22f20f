//! A line of a script as a command. A new command is a variant, a name in `named` and a line of each one's definition.
ghost use Rattle.std.specs.Prelude.{◌≡◌};
ghost use Rattle.std.specs.Option.{option_map};
ghost use Rattle.script.specs.Outcomes.{Says, AnswersIf};
ghost use Rattle.script.specs.Words.{first_word, after_word};
ghost use Rattle.script.specs.Commands.{request_of, ends_with, path_of, module_of, number_in, one_number_of, two_numbers_of, row_of, gate_of, flat_of, paged_of, kind_of, memory_of, shown_of, named_of, command_of, in_bytes, names_bytes, asks_bytes, CommentUnread, BlankUnread};

use crate::groups::bytes;
use crate::numbers::number;
use crate::parts::content;
use crate::problems::Problem;
use crate::words::Words;
use std::alloc::Global;

/// The most bytes of a memory that one line shows.
pub const MOST_SHOWN: u32 = 65_536;

/// What a line asks for.
#[derive(Drop)]
pub enum Command<'a> {
    /// A module with these bytes.
    Module(Vec<u8>),
    /// A module whose bytes are in the file with this path.
    ModuleFile(&'a [u8]),
    /// The elements of the module.
    List,
    /// The entry row from now on: base and count.
    Row(u32, u32),
    /// The verdict on the module, with the marks buffers that the program keeps.
    Gate,
    /// The same with fresh marks buffers of these sizes.
    GateFresh(u32, u32),
    /// The marks that the last verdict left.
    Marks,
    /// A flat memory of this size.
    FlatMemory(u32),
    /// A paged memory of this size, with so many frames.
    PagedMemory(u32, u32),
    /// The bytes of the memory: address and count, which is at most `MOST_SHOWN`.
    Bytes(u32, u32),
}

// The path of a file, which is all that is left of the line.
fn file(path: &[u8]) -> Result<Command<'_>, Problem>
    ensures { Says request_of (path_of path.now) result }
{
    if path.is_empty() {
        Err(Problem::MissingPath)
    } else {
        Ok(Command::ModuleFile(path))
    }
}

// After the word `module`: `@` and a path, or bytes.
fn module(heap: Global, rest: &[u8]) -> Result<Command<'_>, Problem>
    ensures { AnswersIf (in_bytes rest.now) request_of (module_of rest.now) result }
{
    match rest.strip_prefix(b"@") {
        Some(path) => file(path),
        None => Ok(Command::Module(bytes(heap, rest)?)),
    }
}

// What was read, if nothing more stands there.
fn alone<T: Drop>(read: T, rest: &[u8]) -> Result<T, Problem>
    ensures { result ≡ ends_with read rest.now }
{
    if rest.is_empty() {
        Ok(read)
    } else {
        Err(Problem::TooManyWords)
    }
}

fn next_number(words: &mut Words<'_>) -> Result<u32, Problem>
    ensures value { result ≡ number_in (first_word words.old.left.now) }
    ensures after { words.new.left.now ≡ after_word words.old.left.now }
{
    number(words.next().ok_or(Problem::NoNumber)?)
}

// One number and nothing more.
fn one_number(text: &[u8]) -> Result<u32, Problem>
    ensures { result ≡ one_number_of text.now }
{
    let mut words = Words::new(text);
    let number = next_number(&mut words)?;
    alone(number, words.rest())
}

// Two numbers and nothing more.
fn two_numbers(text: &[u8]) -> Result<(u32, u32), Problem>
    ensures { result ≡ two_numbers_of text.now }
{
    let mut words = Words::new(text);
    let first = next_number(&mut words)?;
    let second = next_number(&mut words)?;
    alone((first, second), words.rest())
}

fn row(rest: &[u8]) -> Result<Command<'_>, Problem>
    ensures { Says request_of (row_of rest.now) result }
{
    let (base, count) = two_numbers(rest)?;
    Ok(Command::Row(base, count))
}

fn gate(rest: &[u8]) -> Result<Command<'_>, Problem>
    ensures { Says request_of (gate_of rest.now) result }
{
    if rest.is_empty() {
        return Ok(Command::Gate);
    }
    let (starts, targets) = two_numbers(rest)?;
    Ok(Command::GateFresh(starts, targets))
}

fn flat(rest: &[u8]) -> Result<Command<'_>, Problem>
    ensures { Says request_of (flat_of rest.now) result }
{
    Ok(Command::FlatMemory(one_number(rest)?))
}

fn paged(rest: &[u8]) -> Result<Command<'_>, Problem>
    ensures { Says request_of (paged_of rest.now) result }
{
    let (size, frames) = two_numbers(rest)?;
    Ok(Command::PagedMemory(size, frames))
}

fn shown(rest: &[u8]) -> Result<Command<'_>, Problem>
    ensures { Says request_of (shown_of rest.now) result }
{
    let (address, count) = two_numbers(rest)?;
    if count <= MOST_SHOWN {
        Ok(Command::Bytes(address, count))
    } else {
        Err(Problem::TooManyShown)
    }
}

// A memory by its kind; `rest` is what stands after that.
fn kind<'a>(name: &[u8], rest: &'a [u8]) -> Result<Command<'a>, Problem>
    ensures { Says request_of (kind_of name.now rest.now) result }
{
    match name {
        b"flat" => flat(rest),
        b"paged" => paged(rest),
        _ => Err(Problem::NoMemoryKind),
    }
}

// After the word `memory`: a kind and its numbers.
fn memory(rest: &[u8]) -> Result<Command<'_>, Problem>
    ensures { Says request_of (memory_of rest.now) result }
{
    let mut words = Words::new(rest);
    let name = words.next().ok_or(Problem::NoMemoryKind)?;
    kind(name, words.rest())
}

// A command by its name; `rest` is what stands after it.
#[tactic(auto, using(crate::proofs::Named::ends_alone))]
fn named<'a>(heap: Global, name: &[u8], rest: &'a [u8]) -> Result<Command<'a>, Problem>
    ensures { AnswersIf (names_bytes name.now rest.now) request_of (named_of name.now rest.now) result }
{
    match name {
        b"module" => module(heap, rest),
        b"list" => alone(Command::List, rest),
        b"row" => row(rest),
        b"gate" => gate(rest),
        b"marks" => alone(Command::Marks, rest),
        b"memory" => memory(rest),
        b"bytes" => shown(rest),
        _ => Err(Problem::UnknownCommand),
    }
}

/// The command that a line asks for: none where the line is blank, or a comment.
#[tactic(auto, using(crate::proofs::Unread::comment_unread, crate::proofs::Unread::blank_unread))]
pub fn parse(heap: Global, line: &[u8]) -> Result<Option<Command<'_>>, Problem>
    ensures value { AnswersIf (asks_bytes line.now) (option_map request_of) (command_of line.now) result }
    ensures comment { CommentUnread line.now }
    ensures blank { BlankUnread line.now }
{
    let mut words = Words::new(content(line));
    match words.next() {
        Some(name) => Ok(Some(named(heap, name, words.rest())?)),
        None => Ok(None),
    }
}

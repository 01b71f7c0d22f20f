//! The bytes of a module as a script writes them: groups of pairs of hexadecimal digits, each of which may come many
//! times over.
ghost use Rattle.std.specs.Prelude.{◌≡◌, [], vec_items};
ghost use Rattle.script.specs.Groups.{byte_of, left_over, pairs_of, count_of, repeated_of, group_of, bytes_of};
ghost use Rattle.script.specs.Outcomes.{Answers};
ghost use Rattle.script.specs.Spelled.{ReadsBytes};

use crate::numbers::{digit, number};
use crate::parts::front;
use crate::problems::Problem;
use crate::words::Words;
use std::alloc::Global;

/// The most bytes that a module may have.
pub const LIMIT: usize = 1_048_576;

fn byte(high: u8, low: u8) -> Result<u8, Problem>
    ensures { result ≡ byte_of high low }
{
    let high = digit(high).ok_or(Problem::NoHexDigit)?;
    let low = digit(low).ok_or(Problem::NoHexDigit)?;
    Ok((high * 16 + low) as u8)
}

// What is wrong with a character that no other stands beside.
fn alone(character: u8) -> Problem
    ensures { result ≡ left_over character }
{
    match digit(character) {
        Some(_) => Problem::OddDigits,
        None => Problem::NoHexDigit,
    }
}

// The bytes that pairs of digits write.
#[tactic(auto, using(crate::proofs::Pairs::one_byte))]
fn pairs(heap: Global, digits: &[u8]) -> Result<Vec<u8>, Problem>
    ensures { Answers vec_items (pairs_of [] digits.now) result }
{
    let mut bytes = Vec::new(heap);
    for pair in digits.chunks(2) {
        let [high, low] = pair else {
            return Err(alone(pair[0]));
        };
        bytes.push(byte(*high, *low)?)?;
    }
    Ok(bytes)
}

// What stands after the digits of a group: nothing, or a `*` and how often they come.
fn count(rest: &[u8]) -> Result<u32, Problem>
    ensures { result ≡ count_of rest.now }
{
    match rest.split_first() {
        Some((_, digits)) => number(digits),
        None => Ok(1),
    }
}

// `bytes`, and then those of a group, `count` times over.
#[tactic(auto, using(crate::proofs::Copies::copies_turn))]
fn repeated(mut bytes: Vec<u8>, group: &[u8], count: u32) -> Result<Vec<u8>, Problem>
    ensures { Answers vec_items (repeated_of bytes.items group.now count) result }
{
    // Saturated, the sum of an overlong group is still above the limit.
    let added = group.len().saturating_mul(count as usize);
    if bytes.len().saturating_add(added) > LIMIT {
        return Err(Problem::TooManyBytes);
    }
    for _turn in 0..count {
        bytes.extend_from_slice(group)?;
    }
    Ok(bytes)
}

// `bytes`, and then those of one word: digits, and how often they come.
fn grouped(heap: Global, bytes: Vec<u8>, word: &[u8]) -> Result<Vec<u8>, Problem>
    ensures { Answers vec_items (group_of bytes.items word.now) result }
{
    let (digits, rest) = word.split_at(front(word, |character| character != b'*'));
    // A group of nothing would be repeated in vain.
    if digits.is_empty() {
        return Err(Problem::NoHexDigit);
    }
    let group = pairs(heap, digits)?;
    repeated(bytes, &group, count(rest)?)
}

/// The bytes that a text writes; at most as many as a module may have.
pub fn bytes(heap: Global, text: &[u8]) -> Result<Vec<u8>, Problem>
    ensures value { Answers vec_items (bytes_of text.now) result }
    ensures spelled { ReadsBytes vec_items text.now result }
{
    let mut bytes = Vec::new(heap);
    for word in Words::new(text) {
        bytes = grouped(heap, bytes, word)?;
    }
    Ok(bytes)
}

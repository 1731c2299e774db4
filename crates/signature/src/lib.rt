// Whole method signatures, as `v24@0:8@16`: types and decimal numbers in turn. For each type its start, its length and its number go into the lent list.
#![tactic(auto)]

ghost use Rattle.std.specs.Prelude.{◌≡◌, [], ◌∷◌, ◌+◌, ◌*◌, ◌≤◌, ◌<◌, length, drop};
ghost use Rattle.std.proofs.lemmas.List.Edits.{sets};
ghost use Rattle.kinds.specs.Byte.{starts_digit};
ghost use Rattle.signature.specs.Answer.{used, signature_answer, signature_list};
ghost use Rattle.signature.specs.Reads.{own_place, NumberIs, NextIs, EntriesRead};

use kinds::{ErrorKind, MAX_TEXT, Refusal, unknown_digit};
use numbers::{Digits, is_digit, parse_u32};
use sheet::clear_words;
use skip::skip_encoding_or_none;

// A type's length and number, the place after the number and what its digits show.
#[derive(Clone, Copy)]
struct Next {
    size: usize,
    number: u64,
    next: usize,
    digits: Digits,
}

// A digit stands at `at`.
fn starts_digit(text: &[u8], at: usize) -> bool
    ensures { result ≡ starts_digit (drop at text.now) }
{
    at < text.len() && is_digit(text[at])
}

// A digit where a type should begin is refused at its own place, the byte before; no refusal of a type stands at 0.
fn own_place(why: ErrorKind, to: usize) -> usize
    ensures { result ≡ own_place why to }
{
    if unknown_digit(why) && 0 < to {
        return to - 1;
    }
    to
}

// The number behind a type that began at `start` and ended at `at`.
fn next_number(text: &[u8], start: usize, at: usize) -> Result<Next, Refusal>
    requires { (start ≤ at) × (at ≤ length text.now) }
    ensures { NumberIs text.now start at result }
{
    let offset = parse_u32(text, at);
    match offset.read {
        Ok((number, next)) => Ok(Next {
            size: at - start,
            number,
            next,
            digits: offset.digits,
        }),
        Err(e) => {
            if starts_digit(text, at) {
                Err(Refusal::OffsetTooLarge(e.split_point))
            } else {
                Err(Refusal::ExpectedOffset(e.split_point))
            }
        }
    }
}

// The entry that begins at `at`: a type, then a number.
fn next_entry(text: &[u8], at: usize) -> Result<Next, Refusal>
    requires { at < length text.now }
    ensures { NextIs text.now at result }
{
    match skip_encoding_or_none(text, at) {
        Ok(to) => next_number(text, at, to),
        Err(e) => Err(Refusal::Parse(e.kind, own_place(e.kind, e.split_point))),
    }
}

fn put_entry(list: &mut [u64], k: usize, start: usize, size: usize, number: u64)
    requires { 3 * k + 3 ≤ length list.old }
    ensures { list.new ≡ sets list.old (3 * k) (start ∷ size ∷ number ∷ []) }
{
    let at = 3 * k;
    list[at] = start as u64;
    list[at + 1] = size as u64;
    list[at + 2] = number;
}

// All entries, one after the other; a refusal leaves those before it.
fn read_entries(text: &[u8], list: &mut [u64]) -> Result<usize, Refusal>
    requires { used (length text.now) ≤ length list.old }
    ensures { EntriesRead text.now list.old list.new result }
{
    // A cursor that moves by an entry's bytes: no step of an iterator.
    let mut at = 0;
    let mut k = 0;
    while at < text.len() {
        let entry = next_entry(text, at)?;
        put_entry(list, k, at, entry.size, entry.number);
        k += 1;
        at = entry.next;
    }
    Ok(k)
}

// Reads a whole signature. What its part of the list does not hold is cleared after reading, so that an accepted one is written once.
pub fn parse_signature(text: &[u8], list: &mut [u64]) -> Result<usize, Refusal>
    ensures answers { result ≡ signature_answer text.now list.old }
    ensures fills { list.new ≡ signature_list text.now list.old }
{
    let n = text.len();
    if MAX_TEXT < n {
        return Err(Refusal::TextTooLong);
    }
    let part = 3 * (n / 2);
    if list.len() < part {
        return Err(Refusal::ListTooShort);
    }
    if n == 0 {
        return Err(Refusal::EmptySignature);
    }
    match read_entries(text, list) {
        Err(why) => {
            clear_words(&mut list[0..part]);
            Err(why)
        }
        Ok(k) => {
            let from = 3 * k;
            clear_words(&mut list[from..part]);
            Ok(k)
        }
    }
}

// Lines of questions and answers (oracle/README.md): the fields of a line, hex and decimal read into lent lists, sheets and refusals put into a lent output.
#![tactic(auto)]

mod put;

ghost use Rattle.std.specs.Prelude.{◌≡◌, ◌+◌, ◌≤◌, ◌<◌, [], ◌∷◌, length, take, set, get_or};
ghost use Rattle.std.proofs.lemmas.List.Edits.{sets};
ghost use Rattle.kinds.specs.Parse.{max_u64};
ghost use Rattle.parser.specs.Place.{lent, remaining_at};
ghost use Rattle.lines.specs.Answer.{until, front_of, digit_value, hex_bytes, hex_answer, hex_glyph, hex_pair, grown, decimals, decimals_answer, Put, each, joined, sheet_text, refusal_text};
ghost use Rattle.lines.specs.Steps.{stepped, step_words};

use kinds::Refusal;
use put::put_byte;
pub use put::{put_bytes, put_marked, put_number};

// The place of the first `b`, or the length.
fn place_of(s: &[u8], b: u8) -> usize
    ensures { (result ≡ until b s.now) × (result ≤ length s.now) }
{
    s.iter().position(|x| *x == b).unwrap_or(s.len())
}

// What stands before the first `b`; all, where there is none.
pub fn field(s: &[u8], b: u8) -> &[u8]
    ensures { lent result ≡ front_of s.entry (until b s.now) }
{
    let n = place_of(s, b);
    &s[..n]
}

// What stands after the first `b`; nothing, where there is none.
pub fn rest(s: &[u8], b: u8) -> &[u8]
    ensures { lent result ≡ remaining_at s.entry (until b s.now + 1) }
{
    let n = place_of(s, b);
    if n < s.len() {
        let next = n + 1;
        return &s[next..];
    }
    &s[n..]
}

// The first `count` bytes, or all where there are fewer.
pub fn front(s: &[u8], count: usize) -> &[u8]
    ensures { lent result ≡ front_of s.entry count }
{
    if count <= s.len() {
        return &s[..count];
    }
    s
}

// The first `n` words, or all where there are fewer.
fn front_words(s: &[u64], n: usize) -> &[u64]
    ensures { result.now ≡ take n s.now }
{
    if n <= s.len() {
        return &s[..n];
    }
    s
}

// The word at `i`, or 0 beyond the end.
pub fn word_at(words: &[u64], i: usize) -> u64
    ensures { result ≡ get_or words.now i 0 }
{
    if i < words.len() {
        return words[i];
    }
    0
}

// The value of a hex digit in lower case.
fn digit_of(b: u8) -> Option<u8>
    ensures { result ≡ digit_value b }
{
    match b {
        b'0'..=b'9' => Some(b - b'0'),
        b'a'..=b'f' => Some(b - b'a' + 10),
        _ => None,
    }
}

// Stores one word where there is room.
fn put_word(words: &mut [u64], at: usize, n: u64)
    ensures { words.new ≡ set words.old at n }
{
    if at < words.len() {
        words[at] = n;
    }
}

// Reads bytes from two hex digits each.
pub fn decode_hex(hex: &[u8], out: &mut [u8]) -> Option<usize>
    ensures answers { result ≡ hex_answer hex.now (length out.old) }
    ensures fills { out.new ≡ sets out.old 0 (hex_bytes hex.now) }
{
    let mut n = 0;
    let mut unread = hex;
    // two digits at a time off the front, so no index is counted
    while let [a, b, rest @ ..] = unread {
        let high = digit_of(*a)?;
        let low = digit_of(*b)?;
        put_byte(out, n, 16 * high + low);
        n += 1;
        unread = rest;
    }
    if unread.len() == 1 {
        return None;
    }
    if out.len() < n {
        return None;
    }
    Some(n)
}

fn grow(n: u64, b: u8) -> Option<u64>
    ensures { result ≡ grown n b }
{
    if b < b'0' {
        return None;
    }
    if b'9' < b {
        return None;
    }
    let d = u64::from(b - b'0');
    if 1844674407370955161 < n {
        return None;
    }
    if u64::MAX - 10 * n < d {
        return None;
    }
    Some(10 * n + d)
}

// One byte more of numbers with commas between: a comma ends the number at `n`.
fn advance(words: &mut [u64], n: usize, value: u64, b: u8) -> Option<(usize, u64)>
    requires { n < max_u64 }
    ensures answers { result ≡ stepped n value b }
    ensures fills { words.new ≡ step_words words.old n value b }
{
    if b == b',' {
        put_word(words, n, value);
        return Some((n + 1, 0));
    }
    let v = grow(value, b)?;
    Some((n, v))
}

// Reads numbers in decimal with commas between. An empty number counts as 0.
pub fn decode_words(list: &[u8], words: &mut [u64]) -> Option<usize>
    ensures answers { result ≡ decimals_answer list.now (length words.old) }
    ensures fills { words.new ≡ sets words.old 0 (decimals 0 list.now) }
{
    let mut n = 0;
    let mut value = 0;
    for b in list {
        let (m, v) = advance(words, n, value, *b)?;
        n = m;
        value = v;
    }
    put_word(words, n, value);
    if words.len() <= n {
        return None;
    }
    Some(n + 1)
}

fn hex_glyph(d: u8) -> u8
    requires { d < 16 }
    ensures { result ≡ hex_glyph d }
{
    if d < 10 { b'0' + d } else { 87 + d }
}

// Writes a byte as two hex digits; the next place.
fn put_pair(out: &mut [u8], at: usize, b: u8) -> usize
    ensures { Put out.old at (hex_pair b) out.new result }
{
    let next = put_byte(out, at, hex_glyph(b / 16));
    put_byte(out, next, hex_glyph(b % 16))
}

// Writes bytes in hex; the next place.
pub fn put_hex(out: &mut [u8], at: usize, s: &[u8]) -> usize
    ensures { Put out.old at (each hex_pair s.now) out.new result }
{
    let mut to = at;
    for b in s {
        to = put_pair(out, to, *b);
    }
    to
}

// Writes words in decimal with a mark between; the next place.
pub fn put_joined(out: &mut [u8], at: usize, mark: u8, words: &[u64]) -> usize
    ensures { Put out.old at (joined mark words.now) out.new result }
{
    let Some((first, others)) = words.split_first() else {
        return at;
    };
    let mut to = put_number(out, at, *first);
    for n in others {
        to = put_marked(out, to, mark, *n);
    }
    to
}

// Writes the words and name bytes of a sheet that are used; the next place.
pub fn put_sheet(out: &mut [u8], at: usize, words: &[u64], names: &[u8]) -> usize
    ensures { Put out.old at (sheet_text words.now names.now) out.new result }
{
    let used = word_at(words, 3) as usize;
    let bytes = word_at(words, 2) as usize;
    let first = put_bytes(out, at, b"s:");
    let second = put_joined(out, first, b',', front_words(words, used));
    let third = put_byte(out, second, b':');
    put_hex(out, third, front(names, bytes))
}

// Writes a refusal's number and values; the next place.
pub fn put_refusal(out: &mut [u8], at: usize, why: Refusal) -> usize
    ensures { Put out.old at (refusal_text why) out.new result }
{
    let values = why.values();
    let first = put_number(out, at, why.number());
    let second = put_marked(out, first, b' ', values[0]);
    let third = put_marked(out, second, b' ', values[1]);
    put_marked(out, third, b' ', values[2])
}

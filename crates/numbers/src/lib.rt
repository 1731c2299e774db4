// Numbers in text (parse.rs, `parse_u64`, `parse_u8`, `chomp_digits`): read at a place of the text; a place past the end is taken as the end.
#![tactic(auto)]

ghost use Rattle.std.specs.Prelude.{◌≡◌, ◌+◌, ◌*◌, ◌≤◌, ltb, drop};
ghost use Rattle.kinds.specs.Byte.{is_digit};
ghost use Rattle.kinds.specs.Parse.{max_u64, max_u32, max_u8, parse_number};
ghost use Rattle.parser.specs.Run.{run_end};
ghost use Rattle.numbers.specs.Answer.{digits_taken, number_at};
ghost use Rattle.kinds.specs.Refusal.{parse_error};

use kinds::{ErrorKind, ParseError};
use parser::{ByteTest, run_end};

// How many digits a number took, and whether the first is a surplus zero: there are more, and it is 0.
#[derive(Clone, Copy)]
pub struct Digits {
    pub count: usize,
    pub surplus: bool,
}

// What reading a number gives: the number and the place after it, or why there is none; in both cases with the digits that were taken.
#[derive(Clone, Copy)]
pub struct Number {
    pub read: Result<(u64, usize), ParseError>,
    pub digits: Digits,
}

#[tactic(auto, unfolding(kinds::specs::Byte::is_digit))]
pub fn is_digit(b: u8) -> bool
    ensures { result ≡ is_digit b }
{
    b.is_ascii_digit()
}

struct Digit;

impl ByteTest for Digit {
    ghost test = { λ _. is_digit };

    fn passes(&self, b: u8) -> bool {
        is_digit(b)
    }
}

// The place after the digits from `at` on.
fn chomp_digits(text: &[u8], at: usize) -> usize
    ensures { result ≡ run_end is_digit text.now at }
{
    run_end(text, at, &Digit)
}

// What `count` digits show, of which `first` is the first.
fn digits_taken(first: u8, count: usize) -> Digits
    ensures { result ≡ digits_taken first count }
{
    if count < 2 {
        return Digits {
            count,
            surplus: false,
        };
    }
    Digits {
        count,
        surplus: first == b'0',
    }
}

// The number with one digit more is above the limit. For most a comparison with a tenth of the limit is enough.
fn is_above(acc: u64, d: u64, limit: u64) -> bool
    requires { (d ≤ 9) × (9 ≤ limit) }
    ensures { result ≡ ltb limit (acc * 10 + d) }
{
    if acc < limit / 10 {
        return false;
    }
    (limit - d) / 10 < acc
}

// Why there is no number.
fn refused(kind: ErrorKind, split_point: usize, digits: Digits) -> Number
    ensures { result ≡ record { read = Err (parse_error kind split_point); digits = digits } }
{
    Number {
        read: Err(ParseError { kind, split_point }),
        digits,
    }
}

// Every number is read here: `parse_u64`, `parse_u32` and `parse_u8` by their limits.
fn parse_number(text: &[u8], at: usize, limit: u64) -> Number
    requires { 9 ≤ limit }
    ensures { result ≡ number_at text.now (drop at text.now) (parse_number limit (drop at text.now)) }
{
    if text.len() <= at {
        return refused(ErrorKind::UnexpectedEnd, text.len(), digits_taken(0, 0));
    }
    let first = text[at];
    if !is_digit(first) {
        return refused(ErrorKind::ExpectedInteger, at, digits_taken(0, 0));
    }
    let mut acc: u64 = 0;
    for i in at..text.len() {
        let b = text[i];
        if !is_digit(b) {
            let taken = digits_taken(first, i - at);
            return Number {
                read: Ok((acc, i)),
                digits: taken,
            };
        }
        let d = u64::from(b - b'0');
        if is_above(acc, d, limit) {
            let to = chomp_digits(text, i + 1);
            let digits = digits_taken(first, to - at);
            return refused(ErrorKind::IntegerTooLarge, to, digits);
        }
        acc = acc * 10 + d;
    }
    let end = text.len();
    let taken = digits_taken(first, end - at);
    Number {
        read: Ok((acc, end)),
        digits: taken,
    }
}

// A number of 64 bits.
pub fn parse_u64(text: &[u8], at: usize) -> Number
    ensures { result ≡ number_at text.now (drop at text.now) (parse_number max_u64 (drop at text.now)) }
{
    parse_number(text, at, 18446744073709551615)
}

// A number of 32 bits.
pub fn parse_u32(text: &[u8], at: usize) -> Number
    ensures { result ≡ number_at text.now (drop at text.now) (parse_number max_u32 (drop at text.now)) }
{
    parse_number(text, at, 4294967295)
}

// A number of 8 bits.
pub fn parse_u8(text: &[u8], at: usize) -> Number
    ensures { result ≡ number_at text.now (drop at text.now) (parse_number max_u8 (drop at text.now)) }
{
    parse_number(text, at, 255)
}

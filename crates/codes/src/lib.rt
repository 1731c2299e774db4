// What a byte begins; what stands at a place of a text and has no parts (parse.rs, `parse_inner`): a primitive, a bitfield or a closer; and where runs of pointers and of codes end.
#![tactic(auto)]

ghost use Rattle.std.specs.Prelude.{◌≡◌, ◌||◌, [], ◌≤◌, length, drop, ltb, eqb};
ghost use Rattle.kinds.specs.Parse.{max_u64, parse_number, parse_complex, parse_quoted, parse_object, parse_bit_field, parse_bits, start};
ghost use Rattle.kinds.specs.Strict.{typed_number, bits_numbers};
ghost use Rattle.parser.specs.Run.{run_end};
ghost use Rattle.codes.specs.Answer.{start_of, code_of, is_code, is_indirection, closed, closes_fields, no_digits, digits_then, digits_in, untyped_token, token_of, token_at};

use kinds::{ContainerKind, ErrorKind, IndirectionKind, Primitive};
use numbers::{Digits, is_digit, parse_u8, parse_u64};
use parser::{ByteTest, quote_end, run_end};

// What the digits of a bitfield's numbers show, in their order; no digits for a number that was not met.
#[derive(Clone, Copy)]
pub struct BitsDigits {
    pub first: Digits,
    pub second: Digits,
}

// A primitive's kind; a bitfield's size; its offset, its type's kind and its size; a closer; each with the place after it. Digits are those of
// a bitfield, also where it is refused.
// `Parts`: a pointer, an atomic, an array or a container begins. `End`: the text ended. Eight kinds with values of their own, of which a
// refusal has digits too: a `Result` around seven of them would be no plainer.
#[derive(Clone, Copy)]
pub enum Token {
    Primitive(u64, usize),
    BitField(u64, usize, BitsDigits),
    TypedBitField(u64, u64, u64, usize, BitsDigits),
    ArrayEnd(usize),
    ContainerEnd(ContainerKind, usize),
    Refused(ErrorKind, usize, BitsDigits),
    Parts,
    End,
}

// What a byte begins: a primitive's whole code, what may become one of several kinds, what opens or closes something with parts.
#[derive(Clone, Copy, Debug, PartialEq, Eq)]
pub enum Begun {
    Single(Primitive),
    Complex,
    Object,
    Bits,
    Indirection(IndirectionKind),
    OpenArray,
    CloseArray,
    OpenContainer(ContainerKind),
    CloseContainer(ContainerKind),
    Nothing,
}

// The list of all type codes. They stand in the order of the table in Apple's guide
// ("Type Encodings"), then those that the crate adds, in the order of its parser (parse.rs, `parse_inner`). A closer is no code and
// comes after them. What opens something (`^`, `A`, `[`, `{`, `(`) reading also tells by tests of its own, before it asks here.
// Put into its callers with `single_kind`: what it answers is then a jump in their loops, where a call for each byte took up to half as long again.
#[inline(always)]
pub fn start(b: u8) -> Begun
    ensures { start_of result ≡ start b }
{
    match b {
        b'c' => Begun::Single(Primitive::Char),
        b'i' => Begun::Single(Primitive::Int),
        b's' => Begun::Single(Primitive::Short),
        b'l' => Begun::Single(Primitive::Long),
        b'q' => Begun::Single(Primitive::LongLong),
        b'C' => Begun::Single(Primitive::UChar),
        b'I' => Begun::Single(Primitive::UInt),
        b'S' => Begun::Single(Primitive::UShort),
        b'L' => Begun::Single(Primitive::ULong),
        b'Q' => Begun::Single(Primitive::ULongLong),
        b'f' => Begun::Single(Primitive::Float),
        b'd' => Begun::Single(Primitive::Double),
        b'B' => Begun::Single(Primitive::Bool),
        b'v' => Begun::Single(Primitive::Void),
        b'*' => Begun::Single(Primitive::String),
        b'@' => Begun::Object,
        b'#' => Begun::Single(Primitive::Class),
        b':' => Begun::Single(Primitive::Sel),
        b'[' => Begun::OpenArray,
        b'{' => Begun::OpenContainer(ContainerKind::Struct),
        b'(' => Begun::OpenContainer(ContainerKind::Union),
        b'b' => Begun::Bits,
        b'^' => Begun::Indirection(IndirectionKind::Pointer),
        b'?' => Begun::Single(Primitive::Unknown),
        b'D' => Begun::Single(Primitive::LongDouble),
        b'j' => Begun::Complex,
        b'A' => Begun::Indirection(IndirectionKind::Atomic),
        b']' => Begun::CloseArray,
        b'}' => Begun::CloseContainer(ContainerKind::Struct),
        b')' => Begun::CloseContainer(ContainerKind::Union),
        _ => Begun::Nothing,
    }
}

// The kind word of the primitive whose code is this byte and never goes on behind it: not of `@`, which `?` or a name may follow.
#[inline(always)]
pub fn single_kind(b: u8) -> Option<u64>
    ensures { result ≡ code_of (start b) }
{
    let begun = start(b);
    match begun {
        Begun::Single(p) => Some(p.kind()),
        _ => None,
    }
}

// Of a number that was not met.
fn no_digits() -> Digits
    ensures { result ≡ no_digits }
{
    Digits {
        count: 0,
        surplus: false,
    }
}

// Of a bitfield's first number alone.
fn first_digits(first: Digits) -> BitsDigits
    ensures { result ≡ digits_then first [] }
{
    let second = no_digits();
    BitsDigits { first, second }
}

// A refusal where no number was met.
fn refused(why: ErrorKind, to: usize) -> Token
    ensures { result ≡ Token.Refused why to (digits_in []) }
{
    let none = first_digits(no_digits());
    Token::Refused(why, to, none)
}

// After `j`.
fn parse_complex(text: &[u8], at: usize) -> Token
    requires { at ≤ length text.now }
    ensures { result ≡ token_of text.now (digits_in []) (parse_complex (drop at text.now)) }
{
    if text.len() <= at {
        return refused(ErrorKind::UnexpectedEnd, at);
    }
    let b = text[at];
    match b {
        b'f' => Token::Primitive(Primitive::FloatComplex.kind(), at + 1),
        b'd' => Token::Primitive(Primitive::DoubleComplex.kind(), at + 1),
        b'D' => Token::Primitive(Primitive::LongDoubleComplex.kind(), at + 1),
        _ => refused(ErrorKind::UnknownAfterComplex(b), at),
    }
}

// After `@"`: up to the closing quote.
fn parse_quoted(text: &[u8], at: usize) -> Token
    requires { at ≤ length text.now }
    ensures { result ≡ token_of text.now (digits_in []) (parse_quoted (drop at text.now)) }
{
    let end = quote_end(text, at);
    if end < text.len() {
        return Token::Primitive(Primitive::Object.kind(), end + 1);
    }
    refused(ErrorKind::UnexpectedEnd, end)
}

// After `@`.
fn parse_object(text: &[u8], at: usize) -> Token
    requires { at ≤ length text.now }
    ensures { result ≡ token_of text.now (digits_in []) (parse_object (drop at text.now)) }
{
    if text.len() <= at {
        return Token::Primitive(Primitive::Object.kind(), at);
    }
    let b = text[at];
    match b {
        b'?' => Token::Primitive(Primitive::Block.kind(), at + 1),
        b'"' => parse_quoted(text, at + 1),
        _ => Token::Primitive(Primitive::Object.kind(), at),
    }
}

// The kinds that a bitfield's type may have.
fn is_integral(p: u64) -> bool
    ensures { result ≡ (ltb p 10 || eqb p 16) }
{
    p < 10 || p == 16
}

// A bitfield without a type.
fn untyped(size: u64, to: usize, first: Digits) -> Token
    ensures { result ≡ untyped_token size to (digits_then first []) }
{
    let digits = first_digits(first);
    if size <= 255 {
        Token::BitField(size, to, digits)
    } else {
        Token::Refused(ErrorKind::IntegerTooLarge, to, digits)
    }
}

// After the first number of a bitfield: with a type where a digit follows it (`try_parse_bitfield_gnustep`).
fn parse_bit_field(text: &[u8], first: u64, to: usize, digits: Digits) -> Token
    requires { to ≤ length text.now }
    ensures { result ≡ token_of text.now (digits_then digits (typed_number (drop to text.now))) (parse_bit_field first (drop to text.now)) }
{
    if text.len() - to < 2 {
        return untyped(first, to, digits);
    }
    let Some(p) = single_kind(text[to]) else {
        return untyped(first, to, digits);
    };
    if !is_integral(p) {
        return untyped(first, to, digits);
    }
    if !is_digit(text[to + 1]) {
        return untyped(first, to, digits);
    }
    let number = parse_u8(text, to + 1);
    let both = BitsDigits {
        first: digits,
        second: number.digits,
    };
    match number.read {
        Ok((size, end)) => Token::TypedBitField(first, p, size, end, both),
        Err(e) => Token::Refused(e.kind, e.split_point, both),
    }
}

// After `b`.
fn parse_bits(text: &[u8], at: usize) -> Token
    requires { at ≤ length text.now }
    ensures { result ≡ token_of text.now (digits_in (bits_numbers (drop at text.now))) (parse_bits (parse_number max_u64 (drop at text.now))) }
{
    let number = parse_u64(text, at);
    let digits = number.digits;
    match number.read {
        Err(e) => Token::Refused(e.kind, e.split_point, first_digits(digits)),
        Ok((first, to)) => parse_bit_field(text, first, to, digits),
    }
}

// What stands at a place, where it has no parts.
pub fn token_at(text: &[u8], at: usize) -> Token
    ensures { result ≡ token_at text.now at }
{
    if text.len() <= at {
        return Token::End;
    }
    let b = text[at];
    let next = at + 1;
    let begun = start(b);
    match begun {
        Begun::Single(p) => Token::Primitive(p.kind(), next),
        Begun::Complex => parse_complex(text, next),
        Begun::Object => parse_object(text, next),
        Begun::Bits => parse_bits(text, next),
        Begun::Indirection(_) => Token::Parts,
        Begun::OpenArray => Token::Parts,
        Begun::CloseArray => Token::ArrayEnd(next),
        Begun::OpenContainer(_) => Token::Parts,
        Begun::CloseContainer(kind) => Token::ContainerEnd(kind, next),
        Begun::Nothing => refused(ErrorKind::Unknown(b), next),
    }
}

// Reading asks this of every type first: two tests, which cost it less than the list does.
fn is_indirection(b: u8) -> bool
    ensures { result ≡ is_indirection b }
{
    b == b'^' || b == b'A'
}

struct IndirectionByte;

impl ByteTest for IndirectionByte {
    ghost test = { λ _. is_indirection };

    fn passes(&self, b: u8) -> bool {
        is_indirection(b)
    }
}

// The place after the pointers and atomics from `at` on.
pub fn indirections_end(text: &[u8], at: usize) -> usize
    ensures { result ≡ run_end is_indirection text.now at }
{
    run_end(text, at, &IndirectionByte)
}

#[tactic(auto, unfolding(crate::specs::Answer::is_code))]
fn is_code(b: u8) -> bool
    ensures { result ≡ is_code b }
{
    single_kind(b).is_some()
}

struct CodeByte;

impl ByteTest for CodeByte {
    ghost test = { λ _. is_code };

    fn passes(&self, b: u8) -> bool {
        is_code(b)
    }
}

// The place after the codes that `single_kind` knows, from `at` on.
pub fn codes_end(text: &[u8], at: usize) -> usize
    ensures { result ≡ run_end is_code text.now at }
{
    run_end(text, at, &CodeByte)
}

// An array's item is closed at `to`.
pub fn closes_item(text: &[u8], to: usize) -> bool
    ensures { result ≡ closed text.now to }
{
    to < text.len() && text[to] == b']'
}

// The container's own closer stands at `to`.
pub fn closes_fields(text: &[u8], to: usize, kind: ContainerKind) -> bool
    ensures { result ≡ closes_fields text.now to kind }
{
    to < text.len() && text[to] == kind.end_byte()
}

// Passing what can be read without keeping it (parse.rs, `expect_encoding`, a container without fields; `parse_encoding_or_none`): the reading
// rules and their refusals, without lists.
// `&text[0..]` is handed on where `text` would be copied to memory and read back at once.
#![tactic(auto)]

ghost use Rattle.std.specs.Prelude.{◌≡◌, ◌+◌, ◌≤◌, ◌<◌, length, drop, get_or};
ghost use Rattle.kinds.specs.Expect.{skip_items};
ghost use Rattle.kinds.specs.Parse.{parse_encoding_or_none};
ghost use Rattle.skip.specs.Answer.{skipped_at, encoding_at};
ghost use Rattle.kinds.specs.Refusal.{parse_error};
ghost use Rattle.kinds.specs.declared.ErrorKind.TheVariants.{Unknown};
ghost use Rattle.skip.specs.Skips.{token_skipped, held_skipped, item_skipped, end_skipped, encoding_of, ends_object, object_alone, Skips, SkipsItems, OneAt, OpensAt};

use codes::{
    Begun, Token, closes_fields, closes_item, codes_end, indirections_end, single_kind, start,
    token_at,
};
use kinds::{ContainerKind, ErrorKind, ParseError};
use names::parse_name;
use numbers::parse_u64;
use parser::strip_at;

// What skipping at a place gives, with the place after it.
#[derive(Clone, Copy)]
enum Skipped {
    Empty,
    Encoding(usize),
    ContainerEnd(ContainerKind, usize),
    ArrayEnd(usize),
}

// A closer that ends nothing here.
fn unknown_end(b: u8, split_point: usize) -> ParseError
    ensures { result ≡ parse_error (Unknown b) split_point }
{
    ParseError {
        kind: ErrorKind::Unknown(b),
        split_point,
    }
}

// `Parts` and `End` are not handed in.
fn skip_token(t: Token) -> Result<Skipped, ParseError>
    ensures { result ≡ token_skipped t }
{
    match t {
        Token::Primitive(_, to) => Ok(Skipped::Encoding(to)),
        Token::BitField(_, to, _) => Ok(Skipped::Encoding(to)),
        Token::TypedBitField(_, _, _, to, _) => Ok(Skipped::Encoding(to)),
        Token::ArrayEnd(to) => Ok(Skipped::ArrayEnd(to)),
        Token::ContainerEnd(kind, to) => Ok(Skipped::ContainerEnd(kind, to)),
        Token::Refused(kind, split_point, _) => Err(ParseError { kind, split_point }),
        Token::Parts => Ok(Skipped::Empty),
        Token::End => Ok(Skipped::Empty),
    }
}

// Ends the pointers and atomics from `at` up to `to`: under one, a closer is given back.
fn skip_held(s: Skipped, at: usize, to: usize) -> Skipped
    ensures { result ≡ held_skipped s at to }
{
    if at == to {
        return s;
    }
    match s {
        Skipped::Empty => Skipped::Encoding(to),
        Skipped::Encoding(end) => Skipped::Encoding(end),
        Skipped::ContainerEnd(_, _) => Skipped::Encoding(to),
        Skipped::ArrayEnd(_) => Skipped::Encoding(to),
    }
}

// Ends an array, whose item was skipped.
fn skip_item(s: Skipped, text: &[u8]) -> Result<Skipped, ParseError>
    ensures { result ≡ item_skipped s text.now }
{
    match s {
        Skipped::Empty => Err(ParseError {
            kind: ErrorKind::WrongEndArray,
            split_point: text.len(),
        }),
        Skipped::Encoding(to) => {
            if closes_item(text, to) {
                Ok(Skipped::Encoding(to + 1))
            } else {
                Err(ParseError {
                    kind: ErrorKind::WrongEndArray,
                    split_point: to,
                })
            }
        }
        Skipped::ContainerEnd(kind, to) => Err(unknown_end(kind.end_byte(), to)),
        Skipped::ArrayEnd(to) => Ok(Skipped::Encoding(to)),
    }
}

// What ends a container's fields; a type does not.
fn end_skipped(s: Skipped, text: &[u8], kind: ContainerKind) -> Result<usize, ParseError>
    ensures { result ≡ end_skipped s text.now kind }
{
    match s {
        Skipped::Empty => Err(ParseError {
            kind: ErrorKind::WrongEndContainer(kind),
            split_point: text.len(),
        }),
        Skipped::Encoding(to) => Ok(to),
        Skipped::ContainerEnd(other, to) => {
            if kind == other {
                Ok(to)
            } else {
                Err(unknown_end(other.end_byte(), to))
            }
        }
        Skipped::ArrayEnd(to) => Err(unknown_end(b']', to)),
    }
}

// A type from `at` on. A run of pointers and atomics is passed in one go, so that its depth costs no stack.
#[cycle(skip_container_skip_inner_skip_items_skip_one)]
fn skip_inner(text: &[u8], at: usize) -> Result<Skipped, ParseError>
    requires { at ≤ length text.now }
    ensures { Skips text.now at result }
{
    let to = indirections_end(text, at);
    if text.len() <= to {
        return Ok(skip_held(Skipped::Empty, at, to));
    }
    let one = skip_one(&text[0..], to)?;
    Ok(skip_held(one, at, to))
}

// A type that is no pointer and no atomic. Arrays and containers are tested for here, which costs less than asking `codes::start`.
#[cycle(skip_container_skip_inner_skip_items_skip_one)]
fn skip_one(text: &[u8], at: usize) -> Result<Skipped, ParseError>
    requires { OneAt text.now at }
    ensures { Skips text.now at result }
{
    let b = text[at];
    match b {
        b'[' => {
            let (_, item) = parse_u64(text, at + 1).read?;
            let s = skip_inner(&text[0..], item)?;
            skip_item(s, text)
        }
        b'{' => skip_container(&text[0..], at, ContainerKind::Struct),
        b'(' => skip_container(&text[0..], at, ContainerKind::Union),
        _ => skip_token(token_at(text, at)),
    }
}

// A struct or a union, whose opening byte is at `at`.
#[cycle(skip_container_skip_inner_skip_items_skip_one)]
fn skip_container(text: &[u8], at: usize, kind: ContainerKind) -> Result<Skipped, ParseError>
    requires { OpensAt text.now at kind }
    ensures { Skips text.now at result }
{
    let (_, start) = parse_name(text, at + 1, kind)?;
    let to = skip_items(&text[0..], start, kind)?;
    Ok(Skipped::Encoding(to))
}

// The fields of a container from `at` on, up to its closer; a run of codes without a call for each, and none for the closer.
#[cycle(skip_container_skip_inner_skip_items_skip_one)]
fn skip_items(text: &[u8], at: usize, kind: ContainerKind) -> Result<usize, ParseError>
    requires { at ≤ length text.now }
    ensures { SkipsItems text.now at kind result }
{
    // A cursor that moves by what was read: no step of an iterator.
    let mut to = at;
    loop {
        let past = codes_end(text, to);
        if closes_fields(text, past, kind) {
            return Ok(past + 1);
        }
        let s = skip_inner(&text[0..], past)?;
        match s {
            Skipped::Encoding(next) => {
                to = next;
            }
            _ => {
                return end_skipped(s, text, kind);
            }
        }
    }
}

// Passes whatever can be read from `at` on up to the container's closer; a place past the end is taken as the end.
pub fn skip_fields(text: &[u8], at: usize, kind: ContainerKind) -> Option<usize>
    ensures { result ≡ skipped_at text.now (skip_items kind (drop at text.now)) }
{
    if text.len() <= at {
        return None;
    }
    skip_items(&text[0..], at, kind).ok()
}

// A closer stands for no type; nothing is left where None stands.
fn encoding_or_none(s: Skipped, text: &[u8]) -> Result<usize, ParseError>
    ensures { result ≡ encoding_of s text.now }
{
    match s {
        Skipped::Empty => Ok(text.len()),
        Skipped::Encoding(to) => Ok(to),
        Skipped::ContainerEnd(kind, to) => Err(unknown_end(kind.end_byte(), to)),
        Skipped::ArrayEnd(to) => Err(unknown_end(b']', to)),
    }
}

// An object ends before this byte: it is no block and has no class name.
fn ends_object(b: u8) -> bool
    ensures { result ≡ ends_object b }
{
    b != b'?' && b != b'"'
}

// An object of one byte stands at `at`.
fn object_alone(text: &[u8], at: usize) -> bool
    requires { at < length text.now }
    ensures { result ≡ object_alone (get_or text.now at 0) (drop (at + 1) text.now) }
{
    let Begun::Object = start(text[at]) else {
        return false;
    };
    let next = at + 1;
    if text.len() <= next {
        return true;
    }
    ends_object(text[next])
}

// Passes a type with its qualifiers from `at` on, as all readings begin (`parse_encoding_or_none`); a place past the end is taken as the end.
pub fn skip_encoding_or_none(text: &[u8], at: usize) -> Result<usize, ParseError>
    ensures { result ≡ encoding_at text.now (parse_encoding_or_none (drop at text.now)) }
{
    if text.len() <= at {
        return Ok(text.len());
    }
    // What takes one byte needs no walk, and no qualifier does.
    if single_kind(text[at]).is_some() {
        return Ok(at + 1);
    }
    if object_alone(text, at) {
        return Ok(at + 1);
    }
    let from = strip_at(text, at);
    let s = skip_inner(&text[0..], from)?;
    encoding_or_none(s, text)
}

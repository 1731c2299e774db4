// Reading text: parse.rs, the two readings of encoding_box.rs, and strict reading. A tree is written into lent lists in one pass.
// Below the entry points `words` is the words from the first node on: node n is at 4 * n.
// `&text[0..]` is handed on where `text` would be copied to memory and read back at once.
#![tactic(auto)]

ghost use Rattle.std.specs.Prelude.{◌≡◌, true, [], ◌∷◌, ◌+◌, ◌*◌, ◌-◌, ◌≤◌, ◌<◌, length, drop};
ghost use Rattle.std.proofs.lemmas.List.Edits.{sets};
ghost use Rattle.kinds.specs.Sheet.{words_used};
ghost use Rattle.kinds.specs.Parse.{parse_name, parse_number, max_u64};
ghost use Rattle.parser.specs.Run.{run_end};
ghost use Rattle.numbers.specs.Answer.{number_at};
ghost use Rattle.names.specs.Answer.{name_at};
ghost use Rattle.codes.specs.Answer.{is_indirection, token_at};
ghost use Rattle.parse.specs.Answer.{used, answer_words, from_str_answer, from_str_words, from_str_names, from_str_strict_answer, from_str_strict_words, from_str_strict_names, from_start_answer, from_start_words, from_start_names, from_start_rest, EndOf};
ghost use Rattle.parse.specs.Strictly.{judged_number, surplus_place, token_surplus, PlaceFits, TokenFits, whole_answer, whole_words, whole_names};
ghost use Rattle.parse.specs.Room.{slack};
ghost use Rattle.parse.specs.Out.{token_out, token_words, TokenRoom, After, AfterItems, hold_out, hold_words, refusal_of, indirection_word, item_out, item_words, none_under};
ghost use Rattle.parse.specs.Out.{opens_container, opened_container, contain_out, contain_words, end_out, cleared, headed, none_sheet, code_sheet, Fits, encoded_out, encoded_words, encoded_names};
ghost use Rattle.parse.specs.Agree.{NamedIs, Simple, SimpleReady, Ready, OneReady, Reads, ChildReady, Holds, CodesRead, ContainerReady, lists, EncodedIs};

use codes::{
    BitsDigits, Token, closes_fields, closes_item, indirections_end, single_kind, token_at,
};
use kinds::{
    ARRAY, ATOMIC, BIT_FIELD, ContainerKind, ErrorKind, MAX_TEXT, NONE, POINTER, ParseError,
    Refusal, TYPED_BIT_FIELD, unknown_digit,
};
use names::parse_name;
use numbers::{Number, parse_u64};
use parser::strip_leading_qualifiers;
use sheet::HEADER;

// What reading at a place gives, with the place after it; a type with the nodes and the name bytes written so far.
#[derive(Clone, Copy)]
enum Parsed {
    Empty,
    Encoding(usize, usize, usize),
    ContainerEnd(ContainerKind, usize),
    ArrayEnd(usize),
}

// Why there is no tree: nothing was read and the lists are as they were, or the text cannot be read and they are cleared.
#[derive(Clone, Copy)]
enum NotRead {
    Away(Refusal),
    Refused(ParseError),
}

impl From<NotRead> for Refusal {
    ghost from_gives = { λ e r. r ≡ refusal_of e };

    fn from(e: NotRead) -> Refusal {
        match e {
            NotRead::Away(why) => why,
            NotRead::Refused(why) => Refusal::from(why),
        }
    }
}

// Node `n`, where its words are known to fit: handed on as they are, so that nothing is left to test.
fn put_node(words: &mut [u64], n: usize, kind: u64, first: u64, second: u64, count: u64)
    requires { 4 * n + 4 ≤ length words.old }
    ensures { words.new ≡ sets words.old (4 * n) (kind ∷ first ∷ second ∷ count ∷ []) }
{
    let from = 4 * n;
    sheet::put_node(&mut words[from..from + 4], 0, kind, first, second, count);
}

fn copy_name(names: &mut [u8], m: usize, name: &[u8])
    requires { m + length name.now ≤ length names.old }
    ensures { names.new ≡ sets names.old m name.now }
{
    for i in 0..name.len() {
        names[m + i] = name[i];
    }
}

// The calls of the crates below hand the text on anew, which spares each a stall.
fn token_here(text: &[u8], at: usize) -> Token
    ensures { result ≡ token_at text.now at }
{
    token_at(&text[0..], at)
}

// A number with a surplus zero is refused at its first digit.
fn judged_number(number: Number, at: usize) -> Number
    ensures { result ≡ judged_number true at number }
{
    let digits = number.digits;
    if digits.surplus {
        return Number {
            read: Err(ParseError {
                kind: ErrorKind::SurplusZero,
                split_point: at,
            }),
            digits,
        };
    }
    number
}

fn name_here(text: &[u8], at: usize, kind: ContainerKind) -> Result<(usize, usize), ParseError>
    ensures { result ≡ name_at text.now at (parse_name kind [] (drop at text.now)) }
{
    parse_name(&text[0..], at, kind)
}

// An array's length; a strict reading refuses one with a surplus zero.
fn length_here(text: &[u8], at: usize, strict: bool) -> Number
    ensures { result ≡ judged_number strict at (number_at text.now (drop at text.now) (parse_number max_u64 (drop at text.now))) }
{
    let number = parse_u64(&text[0..], at);
    if strict {
        return judged_number(number, at);
    }
    number
}

fn run_end(text: &[u8], at: usize) -> usize
    ensures { result ≡ run_end is_indirection text.now at }
{
    indirections_end(&text[0..], at)
}

// A container's name, with its bytes packed from `m` on.
fn put_name(
    text: &[u8],
    at: usize,
    kind: ContainerKind,
    names: &mut [u8],
    m: usize,
) -> Result<(usize, usize), ParseError>
    requires { (at ≤ length text.now) × (m + (length text.now - at) ≤ length names.old) }
    ensures { NamedIs text.now at m names.old names.new result (parse_name kind [] (drop at text.now)) }
{
    let (e, to) = name_here(text, at, kind)?;
    copy_name(names, m, &text[at..e]);
    Ok((to, m + (e - at)))
}

// A token's nodes; `Parts` and `End` are not handed in.
fn put_token(t: Token, words: &mut [u64], n: usize, m: usize) -> Result<Parsed, ParseError>
    requires { TokenRoom t n (length words.old) }
    ensures { (result ≡ token_out t n m) × (words.new ≡ token_words t n words.old) }
{
    match t {
        Token::Primitive(p, to) => {
            put_node(words, n, p, 0, 0, 1);
            Ok(Parsed::Encoding(to, n + 1, m))
        }
        Token::BitField(size, to, _) => {
            put_node(words, n, BIT_FIELD, 0, size, 1);
            Ok(Parsed::Encoding(to, n + 1, m))
        }
        Token::TypedBitField(offset, p, size, to, _) => {
            put_node(words, n + 1, p, 0, 0, 1);
            put_node(words, n, TYPED_BIT_FIELD, offset, size, 2);
            Ok(Parsed::Encoding(to, n + 2, m))
        }
        Token::ArrayEnd(to) => Ok(Parsed::ArrayEnd(to)),
        Token::ContainerEnd(kind, to) => Ok(Parsed::ContainerEnd(kind, to)),
        Token::Refused(kind, split_point, _) => Err(ParseError { kind, split_point }),
        Token::Parts => Ok(Parsed::Empty),
        Token::End => Ok(Parsed::Empty),
    }
}

// A node that holds None.
fn put_none_under(words: &mut [u64], n: usize, kind: u64, first: u64)
    requires { 4 * n + 8 ≤ length words.old }
    ensures { words.new ≡ none_under kind first n words.old }
{
    put_node(words, n + 1, NONE, 0, 0, 1);
    put_node(words, n, kind, first, 0, 2);
}

// Ends a pointer or an atomic, whose child `p` was read: a closer is given back.
fn put_indirection(
    p: Result<Parsed, ParseError>,
    next: usize,
    kind: u64,
    words: &mut [u64],
    n: usize,
    m: usize,
) -> Result<Parsed, ParseError>
    requires { (4 * n + 8 ≤ length words.old) × After p n }
    ensures { (result ≡ hold_out p next n m) × (words.new ≡ hold_words p kind n words.old) }
{
    match p {
        Ok(Parsed::Encoding(to, k, l)) => {
            put_node(words, n, kind, 0, 0, (k - n) as u64);
            Ok(Parsed::Encoding(to, k, l))
        }
        Err(e) => Err(e),
        Ok(Parsed::Empty) => {
            put_none_under(words, n, kind, 0);
            Ok(Parsed::Encoding(next, n + 2, m))
        }
        Ok(Parsed::ContainerEnd(_, _)) => {
            put_none_under(words, n, kind, 0);
            Ok(Parsed::Encoding(next, n + 2, m))
        }
        Ok(Parsed::ArrayEnd(_)) => {
            put_none_under(words, n, kind, 0);
            Ok(Parsed::Encoding(next, n + 2, m))
        }
    }
}

// Ends an array, whose item `p` was read from `item` on.
fn put_array(
    p: Result<Parsed, ParseError>,
    text: &[u8],
    item: usize,
    len: u64,
    words: &mut [u64],
    n: usize,
    m: usize,
) -> Result<Parsed, ParseError>
    requires { (4 * n + 8 ≤ length words.old) × After p n }
    ensures { (result ≡ item_out p text.now item n m) × (words.new ≡ item_words p text.now len n words.old) }
{
    match p {
        Ok(Parsed::Empty) => Err(ParseError {
            kind: ErrorKind::WrongEndArray,
            split_point: item,
        }),
        Ok(Parsed::Encoding(to, k, l)) => {
            if closes_item(text, to) {
                put_node(words, n, ARRAY, len, 0, (k - n) as u64);
                Ok(Parsed::Encoding(to + 1, k, l))
            } else {
                Err(ParseError {
                    kind: ErrorKind::WrongEndArray,
                    split_point: to,
                })
            }
        }
        Ok(Parsed::ContainerEnd(kind, to)) => Err(ParseError {
            kind: ErrorKind::Unknown(kind.end_byte()),
            split_point: to,
        }),
        Ok(Parsed::ArrayEnd(to)) => {
            put_none_under(words, n, ARRAY, len);
            Ok(Parsed::Encoding(to, n + 2, m))
        }
        Err(e) => Err(e),
    }
}

// Ends a container, whose fields were read: children first, so that the count is known when the node is written.
fn put_container(
    i: Result<(usize, usize, usize), ParseError>,
    kind: ContainerKind,
    words: &mut [u64],
    n: usize,
    m: usize,
    named: usize,
) -> Result<Parsed, ParseError>
    requires { ((4 * n + 4 ≤ length words.old) × (m ≤ named)) × AfterItems i n }
    ensures { (result ≡ contain_out i) × (words.new ≡ contain_words i kind n m named words.old) }
{
    match i {
        Ok((to, k, l)) => {
            put_node(
                words,
                n,
                kind.kind(),
                m as u64,
                (named - m) as u64,
                (k - n) as u64,
            );
            Ok(Parsed::Encoding(to, k, l))
        }
        Err(e) => Err(e),
    }
}

// What ends a container's fields, where its closer does not: rarely asked.
#[cold]
fn end_items(
    p: Parsed,
    kind: ContainerKind,
    at: usize,
    n: usize,
    m: usize,
) -> Result<(usize, usize, usize), ParseError>
    ensures { result ≡ end_out p kind at n m }
{
    match p {
        Parsed::Empty => Err(ParseError {
            kind: ErrorKind::WrongEndContainer(kind),
            split_point: at,
        }),
        Parsed::Encoding(_, _, _) => Err(ParseError {
            kind: ErrorKind::WrongEndContainer(kind),
            split_point: at,
        }),
        Parsed::ContainerEnd(other, to) => {
            if kind == other {
                Ok((to, n, m))
            } else {
                Err(ParseError {
                    kind: ErrorKind::Unknown(other.end_byte()),
                    split_point: to,
                })
            }
        }
        Parsed::ArrayEnd(to) => Err(ParseError {
            kind: ErrorKind::Unknown(b']'),
            split_point: to,
        }),
    }
}

// Where the first number with a surplus zero begins in the bitfield at `at`; 0 for none. A bitfield's type is one byte.
fn surplus_place(text: &[u8], at: usize, digits: BitsDigits) -> usize
    requires { PlaceFits at digits (length text.now) }
    ensures { result ≡ surplus_place at digits }
{
    let first = digits.first;
    let second = digits.second;
    if first.surplus {
        return at + 1;
    }
    if second.surplus {
        return at + 2 + first.count;
    }
    0
}

// The same of a token: only bitfields have numbers.
fn token_surplus(text: &[u8], at: usize, t: Token) -> usize
    requires { TokenFits at t (length text.now) }
    ensures { result ≡ token_surplus at t }
{
    match t {
        Token::Primitive(_, _) => 0,
        Token::BitField(_, _, digits) => surplus_place(text, at, digits),
        Token::TypedBitField(_, _, _, _, digits) => surplus_place(text, at, digits),
        Token::ArrayEnd(_) => 0,
        Token::ContainerEnd(_, _) => 0,
        Token::Refused(_, _, digits) => surplus_place(text, at, digits),
        Token::Parts => 0,
        Token::End => 0,
    }
}

// A bitfield's numbers are judged before it is written.
fn parse_strictly(
    text: &[u8],
    at: usize,
    words: &mut [u64],
    n: usize,
    m: usize,
) -> Result<Parsed, ParseError>
    requires { SimpleReady text.now at n words.old }
    ensures { Simple true text.now at n m words.old words.new result }
{
    let t = token_here(text, at);
    let place = token_surplus(text, at, t);
    if 0 < place {
        return Err(ParseError {
            kind: ErrorKind::SurplusZero,
            split_point: place,
        });
    }
    put_token(t, words, n, m)
}

// A byte that begins nothing with parts.
fn parse_simple(
    text: &[u8],
    at: usize,
    strict: bool,
    words: &mut [u64],
    n: usize,
    m: usize,
) -> Result<Parsed, ParseError>
    requires { SimpleReady text.now at n words.old }
    ensures { Simple strict text.now at n m words.old words.new result }
{
    if strict {
        return parse_strictly(text, at, words, n, m);
    }
    put_token(token_here(text, at), words, n, m)
}

fn indirection_word(b: u8) -> u64
    ensures { result ≡ indirection_word b }
{
    if b == b'^' { POINTER } else { ATOMIC }
}

// Ends the pointers and atomics from `at` up to `to`, whose child was read there: the innermost first, since each counts what is under it.
fn put_indirections(
    child: Result<Parsed, ParseError>,
    text: &[u8],
    at: usize,
    to: usize,
    words: &mut [u64],
    n: usize,
    m: usize,
) -> Result<Parsed, ParseError>
    requires { ChildReady text.now at to n words.old child }
    ensures { Holds text.now at to n m words.old words.new child result }
{
    let mut p = child;
    for i in (at..to).rev() {
        let kind = indirection_word(text[i]);
        p = put_indirection(p, i + 1, kind, words, n + (i - at), m);
    }
    p
}

// A type from `at` on, its nodes written from `n` on and its names from `m` on.
// A run of pointers and atomics is read in one go, so that its depth costs no stack.
#[cycle(parse_container_parse_field_parse_inner_parse_one)]
fn parse_inner(
    text: &[u8],
    at: usize,
    strict: bool,
    words: &mut [u64],
    n: usize,
    names: &mut [u8],
    m: usize,
) -> Result<Parsed, ParseError>
    requires { Ready text.now at n m (lists words.old names.old) }
    ensures { Reads strict text.now at n m (lists words.old names.old) (lists words.new names.new) result }
{
    let to = run_end(text, at);
    let p = parse_one(&text[0..], to, strict, words, n + (to - at), names, m);
    put_indirections(p, text, at, to, words, n, m)
}

// A struct or a union begins.
fn opens_container(b: u8) -> bool
    ensures { result ≡ opens_container b }
{
    b == b'{' || b == b'('
}

// Which of the two.
fn opened_container(b: u8) -> ContainerKind
    ensures { result ≡ opened_container b }
{
    if b == b'{' {
        ContainerKind::Struct
    } else {
        ContainerKind::Union
    }
}

// A type that is no pointer and no atomic; nothing at the end of the text. Arrays and containers are tested for here, which costs less
// than asking `codes::start`.
#[cycle(parse_container_parse_field_parse_inner_parse_one)]
fn parse_one(
    text: &[u8],
    at: usize,
    strict: bool,
    words: &mut [u64],
    n: usize,
    names: &mut [u8],
    m: usize,
) -> Result<Parsed, ParseError>
    requires { OneReady text.now at n m (lists words.old names.old) }
    ensures { Reads strict text.now at n m (lists words.old names.old) (lists words.new names.new) result }
{
    if text.len() <= at {
        return Ok(Parsed::Empty);
    }
    let b = text[at];
    match b {
        b'[' => {
            let (len, item) = length_here(text, at + 1, strict).read?;
            let p = parse_inner(&text[0..], item, strict, words, n + 1, names, m);
            put_array(p, text, item, len, words, n, m)
        }
        _ => {
            if opens_container(b) {
                let kind = opened_container(b);
                return parse_container(&text[0..], at, strict, kind, words, n, names, m);
            }
            parse_simple(text, at, strict, words, n, m)
        }
    }
}

// A node for each byte from `at` on that is a whole code, without a call for each; the place after them.
fn put_codes(text: &[u8], at: usize, words: &mut [u64], n: usize) -> usize
    requires { (at ≤ length text.now) × (4 * (n + slack (drop at text.now)) ≤ length words.old) }
    ensures { CodesRead text.now at n words.old words.new result }
{
    for i in at..text.len() {
        let Some(p) = single_kind(text[i]) else {
            return i;
        };
        put_node(words, n + (i - at), p, 0, 0, 1);
    }
    text.len()
}

// A type from `at` on, as `parse_inner` reads it. A container goes straight to its reader, so that a level of nested containers takes one frame.
#[cycle(parse_container_parse_field_parse_inner_parse_one)]
fn parse_field(
    text: &[u8],
    at: usize,
    strict: bool,
    words: &mut [u64],
    n: usize,
    names: &mut [u8],
    m: usize,
) -> Result<Parsed, ParseError>
    requires { Ready text.now at n m (lists words.old names.old) }
    ensures { Reads strict text.now at n m (lists words.old names.old) (lists words.new names.new) result }
{
    if at < text.len() {
        let b = text[at];
        if opens_container(b) {
            let kind = opened_container(b);
            return parse_container(&text[0..], at, strict, kind, words, n, names, m);
        }
    }
    parse_inner(&text[0..], at, strict, words, n, names, m)
}

// A struct or a union, whose opening byte is at `at`. Its closer is looked for before a type is, which spares a call.
#[cycle(parse_container_parse_field_parse_inner_parse_one)]
fn parse_container(
    text: &[u8],
    at: usize,
    strict: bool,
    kind: ContainerKind,
    words: &mut [u64],
    n: usize,
    names: &mut [u8],
    m: usize,
) -> Result<Parsed, ParseError>
    requires { ContainerReady text.now at kind n m (lists words.old names.old) }
    ensures { Reads strict text.now at n m (lists words.old names.old) (lists words.new names.new) result }
{
    let (start, named) = put_name(text, at + 1, kind, names, m)?;
    // A cursor that moves by what was read: no step of an iterator.
    let mut to = start;
    let mut k = n + 1;
    let mut l = named;
    loop {
        let past = put_codes(text, to, words, k);
        k += past - to;
        to = past;
        if closes_fields(text, to, kind) {
            return put_container(Ok((to + 1, k, l)), kind, words, n, m, named);
        }
        let p = parse_field(&text[0..], to, strict, words, k, names, l)?;
        match p {
            Parsed::Encoding(to2, k2, l2) => {
                to = to2;
                k = k2;
                l = l2;
            }
            _ => {
                return put_container(end_items(p, kind, to, k, l), kind, words, n, m, named);
            }
        }
    }
}

// The first `n` words, where there are as many.
fn clear_words(words: &mut [u64], n: usize)
    requires { n ≤ length words.old }
    ensures { words.new ≡ cleared n words.old }
{
    sheet::clear_words(&mut words[0..n]);
}

fn clear_names(names: &mut [u8], n: usize)
    requires { n ≤ length names.old }
    ensures { names.new ≡ cleared n names.old }
{
    names[0..n].fill(0);
}

// The header, where the nodes are known to fit.
fn put_header(words: &mut [u64], k: usize, l: usize)
    requires { words_used k ≤ length words.old }
    ensures { words.new ≡ headed k l words.old }
{
    sheet::put_header(words, k, l);
}

// The part of the lists that reading a text of `n` bytes uses.
fn clear_sheet(n: usize, words: &mut [u64], names: &mut [u8])
    requires { (used n ≤ length words.old) × (n ≤ length names.old) }
    ensures { (words.new ≡ cleared (used n) words.old) × (names.new ≡ cleared n names.old) }
{
    clear_words(words, HEADER + 4 * (n + 1));
    clear_names(names, n);
}

// The sheet of None alone.
fn put_none(words: &mut [u64])
    requires { words_used 1 ≤ length words.old }
    ensures { words.new ≡ none_sheet words.old }
{
    put_node(&mut words[HEADER..], 0, NONE, 0, 0, 1);
    put_header(words, 1, 0);
}

// Ends the reading: the tree's header, None's sheet for an empty text, or the lists cleared again.
fn encoding_or_none(
    p: Result<Parsed, ParseError>,
    n: usize,
    words: &mut [u64],
    names: &mut [u8],
) -> Result<usize, NotRead>
    requires { ((used n ≤ length words.old) × (n ≤ length names.old)) × Fits p (length words.old) }
    ensures { ((result ≡ encoded_out p n) × (words.new ≡ encoded_words p n words.old)) × (names.new ≡ encoded_names p n names.old) }
{
    match p {
        Ok(Parsed::Empty) => {
            put_none(words);
            Ok(n)
        }
        Ok(Parsed::Encoding(to, k, l)) => {
            put_header(words, k, l);
            Ok(to)
        }
        Ok(Parsed::ContainerEnd(kind, to)) => {
            clear_sheet(n, words, names);
            Err(NotRead::Refused(ParseError {
                kind: ErrorKind::Unknown(kind.end_byte()),
                split_point: to,
            }))
        }
        Ok(Parsed::ArrayEnd(to)) => {
            clear_sheet(n, words, names);
            Err(NotRead::Refused(ParseError {
                kind: ErrorKind::Unknown(b']'),
                split_point: to,
            }))
        }
        Err(e) => {
            clear_sheet(n, words, names);
            Err(NotRead::Refused(e))
        }
    }
}

// The sheet of a primitive alone, in the lists that a text of one byte uses.
fn put_code(p: u64, words: &mut [u64], names: &mut [u8])
    requires { (used 1 ≤ length words.old) × (1 ≤ length names.old) }
    ensures { (words.new ≡ code_sheet p words.old) × (names.new ≡ cleared 1 names.old) }
{
    put_node(&mut words[HEADER..], 0, p, 0, 0, 1);
    put_node(&mut words[HEADER..], 1, 0, 0, 0, 0);
    put_header(words, 1, 0);
    names[0] = 0;
}

// What all readings begin with.
fn parse_encoding_or_none(
    text: &[u8],
    strict: bool,
    words: &mut [u64],
    names: &mut [u8],
) -> Result<usize, NotRead>
    ensures { EncodedIs strict text.now (lists words.old names.old) (lists words.new names.new) result }
{
    let n = text.len();
    if MAX_TEXT < n {
        return Err(NotRead::Away(Refusal::TextTooLong));
    }
    if words.len() < HEADER + 4 * (n + 1) {
        return Err(NotRead::Away(Refusal::ListTooShort));
    }
    if names.len() < n {
        return Err(NotRead::Away(Refusal::ListTooShort));
    }
    // A text of one code needs no walk.
    if n == 1 {
        if let Some(p) = single_kind(text[0]) {
            put_code(p, words, names);
            return Ok(1);
        }
    }
    clear_sheet(n, words, names);
    let at = strip_leading_qualifiers(text);
    let p = parse_inner(&text[0..], at, strict, &mut words[HEADER..], 0, names, 0);
    encoding_or_none(p, n, words, names)
}

// Whole-text reading, strict or not.
fn read_whole(text: &[u8], strict: bool, words: &mut [u64], names: &mut [u8]) -> Result<(), Refusal>
    ensures answers { result ≡ whole_answer strict text.now words.old names.old }
    ensures fills { words.new ≡ whole_words strict text.now words.old names.old }
    ensures names { names.new ≡ whole_names strict text.now words.old names.old }
{
    let n = text.len();
    let to = parse_encoding_or_none(text, strict, words, names)?;
    if to < n {
        clear_sheet(n, words, names);
        Err(Refusal::Parse(ErrorKind::NotAllConsumed, to))
    } else {
        Ok(())
    }
}

// Whole-text reading: `EncodingBox::from_str`.
pub fn from_str(text: &[u8], words: &mut [u64], names: &mut [u8]) -> Result<(), Refusal>
    ensures answers { result ≡ from_str_answer text.now words.old names.old }
    ensures fills { words.new ≡ from_str_words text.now words.old names.old }
    ensures names { names.new ≡ from_str_names text.now words.old names.old }
{
    read_whole(text, false, words, names)
}

// Strict whole-text reading: a number with a surplus zero is refused where it is met.
pub fn from_str_strict(text: &[u8], words: &mut [u64], names: &mut [u8]) -> Result<(), Refusal>
    ensures answers { result ≡ from_str_strict_answer text.now words.old names.old }
    ensures fills { words.new ≡ from_str_strict_words text.now words.old names.old }
    ensures names { names.new ≡ from_str_strict_names text.now words.old names.old }
{
    read_whole(text, true, words, names)
}

// The number of a refusal, its place, its byte and the kind word of its container; 0 for what it does not carry.
pub fn refusal_words(refusal: Refusal) -> [u64; 4]
    ensures { result ≡ answer_words (Err refusal) }
{
    refusal.words()
}

// Reading from the start: `EncodingBox::from_start_of_str`. The answer is 0 for a tree and else the refusal's words; the rest is handed back.
pub fn from_start_of_str<'a>(
    text: &'a [u8],
    words: &mut [u64],
    names: &mut [u8],
    answer: &mut [u64; 4],
) -> &'a [u8]
    ensures rest { result.now ≡ from_start_rest text.now words.old names.old }
    ensures part { EndOf text.entry result }
    ensures answers { answer.new ≡ answer_words (from_start_answer text.now words.old names.old) }
    ensures fills { words.new ≡ from_start_words text.now words.old names.old }
    ensures names { names.new ≡ from_start_names text.now words.old names.old }
{
    match parse_encoding_or_none(text, false, words, names) {
        Ok(to) => {
            *answer = [0, 0, 0, 0];
            &text[to..]
        }
        Err(NotRead::Away(why)) => {
            *answer = refusal_words(why);
            text
        }
        Err(NotRead::Refused(e)) => {
            if unknown_digit(e.kind) {
                put_none(words);
                *answer = [0, 0, 0, 0];
                let to = e.split_point;
                &text[to..]
            } else {
                *answer = refusal_words(Refusal::Parse(e.kind, e.split_point));
                text
            }
        }
    }
}

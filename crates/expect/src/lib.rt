// Tree against text: parse.rs's `expect_encoding` over the node words of a sheet and a place in the text.
#![tactic(auto)]

ghost use Rattle.std.specs.Prelude.{◌≡◌, true, false, ◌≤◌, eqb, length, drop};
ghost use Rattle.kinds.specs.Expect.{◌then◌, expect_byte, expect_bytes, expect_number, expect_quote, class_name, expect_primitive, expect_node, expect_encoding, is_empty, equivalent_to_str};
ghost use Rattle.kinds.specs.Expect as E;
ghost use Rattle.kinds.specs.Kind.{is_indirection};
ghost use Rattle.kinds.specs.Parse.{container, max_u64, max_u8};
ghost use Rattle.kinds.specs.Primitive.{code_bytes};
ghost use Rattle.kinds.specs.Sheet.{kind_at, count_at, is_container_kind, trees};
ghost use Rattle.kinds.specs.Tree.{end, node, primitive};
ghost use Rattle.kinds.specs.Walk.{NodeAt, TreesAt, KindAndName, KindsAndNames};
ghost use Rattle.expect.specs.Agree.{ExpectedIs, number_end, expect_at, any_object, expect_leaf, opening_byte, opening, closing, after_name, InText, OpenedIs, ContainerOpenedAt, code_byte, own_byte, level_after, taken_of, fields_of, OpenedAt};
ghost use Rattle.expect.specs.Answer.{compared};

use kinds::{
    ARRAY, BIT_FIELD, Code, ContainerKind, IndirectionKind, MAX_TEXT, NestingLevel, POINTER,
    PRIMITIVES, Refusal, TYPED_BIT_FIELD, container_of, is_container, is_indirection, is_object,
    primitive_code,
};
use numbers::{Number, parse_u8, parse_u64};
use parser::{quote_end, strip_leading_qualifiers};
use sheet::{Found, check};
use skip::skip_fields;

// A node up to its children: taken whole, or its children are still to come, at a level.
#[derive(Clone, Copy)]
enum Opened {
    Taken(usize),
    Fields(usize, NestingLevel),
}

fn expect_byte(byte: u8, text: &[u8], at: usize) -> Option<usize>
    ensures { ExpectedIs text.now result (expect_byte byte (drop at text.now)) }
{
    if text.len() <= at {
        return None;
    }
    if text[at] != byte {
        return None;
    }
    Some(at + 1)
}

fn expect_bytes(bytes: &[u8], text: &[u8], at: usize) -> Option<usize>
    requires { at ≤ length text.now }
    ensures { ExpectedIs text.now result (expect_bytes bytes.now (drop at text.now)) }
{
    if text[at..].starts_with(bytes) {
        return Some(at + bytes.len());
    }
    None
}

// The place after a number that was read, if it is `n`.
fn number_end(n: u64, number: Number) -> Option<usize>
    ensures { result ≡ number_end n number.read }
{
    match number.read {
        Ok((m, to)) => { if m == n { Some(to) } else { None } }
        Err(_) => None,
    }
}

fn expect_u64(n: u64, text: &[u8], at: usize) -> Option<usize>
    requires { at ≤ length text.now }
    ensures { ExpectedIs text.now result (expect_number max_u64 n (drop at text.now)) }
{
    number_end(n, parse_u64(text, at))
}

fn expect_u8(n: u64, text: &[u8], at: usize) -> Option<usize>
    requires { at ≤ length text.now }
    ensures { ExpectedIs text.now result (expect_number max_u8 n (drop at text.now)) }
{
    number_end(n, parse_u8(text, at))
}

// Up to the closing quote.
fn expect_quote(text: &[u8], at: usize) -> Option<usize>
    requires { at ≤ length text.now }
    ensures { ExpectedIs text.now result (expect_quote (drop at text.now)) }
{
    let end = quote_end(text, at);
    if end < text.len() {
        return Some(end + 1);
    }
    None
}

// The class name that may follow an Object.
fn class_name(text: &[u8], at: usize) -> Option<usize>
    requires { at ≤ length text.now }
    ensures { ExpectedIs text.now result (class_name (drop at text.now)) }
{
    if text.len() <= at {
        return Some(at);
    }
    if text[at] != b'"' {
        return Some(at);
    }
    expect_quote(text, at + 1)
}

fn expect_code(code: Code, text: &[u8], at: usize) -> Option<usize>
    requires { at ≤ length text.now }
    ensures { ExpectedIs text.now result (expect_bytes (code_bytes code) (drop at text.now)) }
{
    match code {
        Code::Empty => Some(at),
        Code::One(a) => expect_byte(a, text, at),
        Code::Two(a, b) => {
            let to = expect_byte(a, text, at)?;
            expect_byte(b, text, to)
        }
    }
}

// The codes of Block, Object and Class, which are one group.
fn expect_object(text: &[u8], at: usize) -> Option<usize>
    ensures { ExpectedIs text.now result (any_object (drop at text.now)) }
{
    if text.len() <= at {
        return None;
    }
    let b = text[at];
    let next = at + 1;
    if b == b'@' {
        if text.len() <= next {
            return Some(next);
        }
        if text[next] == b'?' {
            return Some(next + 1);
        }
        return Some(next);
    }
    if b == b'#' {
        return Some(next);
    }
    None
}

fn expect_primitive(kind: u64, text: &[u8], at: usize) -> Option<usize>
    requires { at ≤ length text.now }
    ensures { ExpectedIs text.now result (expect_primitive kind (drop at text.now)) }
{
    if !is_object(kind) {
        return expect_code(primitive_code(kind), text, at);
    }
    let to = expect_object(text, at)?;
    if kind == 19 {
        return class_name(text, to);
    }
    Some(to)
}

// A primitive, or a bitfield without a type.
fn expect_leaf(kind: u64, size: u64, text: &[u8], at: usize) -> Option<usize>
    requires { at ≤ length text.now }
    ensures { ExpectedIs text.now result (expect_leaf kind size (drop at text.now)) }
{
    if kind < PRIMITIVES {
        return expect_primitive(kind, text, at);
    }
    let to = expect_byte(b'b', text, at)?;
    expect_u8(size, text, to)
}

fn opening_byte(kind: u64) -> u8
    ensures { result ≡ opening_byte kind }
{
    if kind != TYPED_BIT_FIELD {
        return b'[';
    }
    b'b'
}

// What stands before the type of a bitfield and before the item of an array.
fn expect_opening(kind: u64, number: u64, text: &[u8], at: usize) -> Option<usize>
    ensures { ExpectedIs text.now result (opening kind number (drop at text.now)) }
{
    let to = expect_byte(opening_byte(kind), text, at)?;
    expect_u64(number, text, to)
}

// What stands after the children of a bitfield, an array or a container.
fn expect_closing(kind: u64, size: u64, text: &[u8], at: usize) -> Option<usize>
    requires { at ≤ length text.now }
    ensures { ExpectedIs text.now result (closing kind size (drop at text.now)) }
{
    if kind == ARRAY {
        return expect_byte(b']', text, at);
    }
    if kind != TYPED_BIT_FIELD {
        return expect_byte(container_of(kind).end_byte(), text, at);
    }
    expect_u8(size, text, at)
}

// The same, after children of which `after` is the outcome.
fn close_node(after: Option<usize>, kind: u64, size: u64, text: &[u8]) -> Option<usize>
    requires { InText text.now after }
    ensures { (q : E.Expected) → ExpectedIs text.now after q → ExpectedIs text.now result (q then (λ t. closing kind size t)) }
{
    let to = after?;
    expect_closing(kind, size, text, to)
}

// A container after its name, at a level that includes fields.
fn open_fields(
    kind: ContainerKind,
    level: NestingLevel,
    count: usize,
    text: &[u8],
    at: usize,
) -> Option<Opened>
    ensures { OpenedIs text.now kind level result (λ inner. after_name kind (eqb count 0) inner (drop at text.now)) }
{
    let next = expect_byte(b'=', text, at)?;
    if count == 0 {
        // An empty container matches whatever can be read up to its closer.
        let to = skip_fields(text, next, kind)?;
        return Some(Opened::Taken(to));
    }
    match expect_byte(kind.end_byte(), text, next) {
        Some(to) => Some(Opened::Taken(to)),
        None => Some(Opened::Fields(next, level)),
    }
}

// A container up to its fields, of which there are `count` nodes.
fn open_named(
    kind: ContainerKind,
    name: &[u8],
    level: NestingLevel,
    count: usize,
    text: &[u8],
    at: usize,
) -> Option<Opened>
    ensures { OpenedIs text.now kind NestingLevel.Within result (λ inner. expect_node (container kind name.now) level (eqb count 0) inner (drop at text.now)) }
{
    let start = expect_byte(kind.start_byte(), text, at)?;
    let next = expect_bytes(name, text, start)?;
    match level.container_include_fields() {
        Some(inner) => open_fields(kind, inner, count, text, next),
        None => {
            let to = expect_byte(kind.end_byte(), text, next)?;
            Some(Opened::Taken(to))
        }
    }
}

// The container at `at` up to its fields.
fn open_container(
    nodes: &[u64],
    names: &[u8],
    at: usize,
    level: NestingLevel,
    text: &[u8],
    place: usize,
) -> Option<Opened>
    requires { NodeAt nodes.now at × KindAndName nodes.now (length names.now) at × (is_container_kind (kind_at nodes.now at) ≡ true) }
    ensures { ContainerOpenedAt names.now nodes.now at level text.now place result }
{
    let kind = container_of(nodes[at]);
    let from = nodes[at + 1] as usize;
    let size = nodes[at + 2] as usize;
    let count = nodes[at + 3] as usize;
    let to = from + size;
    open_named(kind, &names[from..to], level, count - 1, text, place)
}

// The codes of one byte that no other primitive is compared as, by kind; 0 for the other primitives.
const CODE_BYTES: [u8; 24] = *b"csilqCSILQfdD\x00\x00\x00Bv*\x00\x00\x00:?";

fn code_byte(kind: u64) -> u8
    ensures { result ≡ code_byte kind }
{
    if PRIMITIVES <= kind {
        return 0;
    }
    CODE_BYTES[kind as usize]
}

// The byte of a node of whose own text it is the whole: such a code, a pointer's or an atomic's. 0 for the others.
fn own_byte(kind: u64) -> u8
    ensures { result ≡ own_byte kind }
{
    if !is_indirection(kind) {
        return code_byte(kind);
    }
    if kind == POINTER {
        return IndirectionKind::Pointer.prefix_byte();
    }
    IndirectionKind::Atomic.prefix_byte()
}

// The level after such a node: that of what it holds, or `level`, at which the trees side by side are.
fn level_after(kind: u64, level: NestingLevel, here: NestingLevel) -> NestingLevel
    ensures { result ≡ level_after kind level here }
{
    if is_indirection(kind) {
        return here.inside(kind);
    }
    level
}

// A node without children, from the outcome of its text.
fn taken(own: Option<usize>) -> Option<Opened>
    ensures { result ≡ taken_of own }
{
    let to = own?;
    Some(Opened::Taken(to))
}

// A bitfield with a type or an array, which keep the level, from the outcome of what stands before the child.
fn children_follow(opening: Option<usize>, level: NestingLevel) -> Option<Opened>
    ensures { result ≡ fields_of opening level }
{
    let to = opening?;
    Some(Opened::Fields(to, level))
}

// The node at `at`, no pointer and no atomic, up to its children.
fn open_node(
    nodes: &[u64],
    names: &[u8],
    at: usize,
    level: NestingLevel,
    text: &[u8],
    place: usize,
) -> Option<Opened>
    requires node_at { NodeAt nodes.now at × KindAndName nodes.now (length names.now) at × (place ≤ length text.now) }
    requires at_value { is_indirection (kind_at nodes.now at) ≡ false }
    ensures { OpenedAt names.now nodes.now at level text.now place result }
{
    let kind = nodes[at];
    if kind < PRIMITIVES {
        return taken(expect_leaf(kind, nodes[at + 2], &text[0..], place));
    }
    // `[`, `{`, `(`, and None, which no byte begins
    if ARRAY <= kind {
        if kind == ARRAY {
            return children_follow(expect_opening(kind, nodes[at + 1], text, place), level);
        }
        if is_container(kind) {
            return open_container(nodes, names, at, level, text, place);
        }
        return Some(Opened::Taken(place));
    }
    if kind == BIT_FIELD {
        return taken(expect_leaf(kind, nodes[at + 2], &text[0..], place));
    }
    children_follow(expect_opening(kind, nodes[at + 1], text, place), level)
}

// The node at `at`, no pointer and no atomic, and its children.
#[cycle(expect_encoding_expect_node)]
fn expect_node(
    nodes: &[u64],
    names: &[u8],
    at: usize,
    level: NestingLevel,
    text: &[u8],
    place: usize,
) -> Option<usize>
    requires node_at { NodeAt nodes.now at × KindsAndNames nodes.now (length names.now) at (count_at nodes.now at) × (place ≤ length text.now) }
    requires at_value { is_indirection (kind_at nodes.now at) ≡ false }
    ensures { ExpectedIs text.now result (expect_at names.now nodes.now at level (drop place text.now)) }
{
    let opened = open_node(nodes, names, at, level, text, place)?;
    match opened {
        Opened::Taken(to) => Some(to),
        Opened::Fields(to, inner) => {
            let m = nodes[at + 3] as usize - 1;
            let all = expect_encoding(&nodes[0..], &names[0..], at + 4, m, inner, &text[0..], to);
            close_node(all, nodes[at], nodes[at + 2], text)
        }
    }
}

// The trees of the `n` nodes from `from` on, one after the other. A pointer and an atomic are followed by what they hold.
#[cycle(expect_encoding_expect_node)]
fn expect_encoding(
    nodes: &[u64],
    names: &[u8],
    from: usize,
    n: usize,
    level: NestingLevel,
    text: &[u8],
    start: usize,
) -> Option<usize>
    requires trees_at { TreesAt nodes.now from n × (start ≤ length text.now) }
    requires kinds_and_names { KindsAndNames nodes.now (length names.now) from n }
    ensures { ExpectedIs text.now result (expect_encoding level (trees names.now nodes.now n from) (drop start text.now)) }
{
    // A cursor that moves by a node's count: no step of an iterator.
    let mut at = from;
    let mut left = n;
    let mut place = start;
    let mut here = level;
    while 0 < left {
        let kind = nodes[at];
        let byte = own_byte(kind);
        if byte != 0 {
            let to = expect_byte(byte, text, place)?;
            at = at + 4;
            left = left - 1;
            place = to;
            here = level_after(kind, level, here);
            continue;
        }
        let count = nodes[at + 3] as usize;
        let next = expect_node(nodes, names, at, here, text, place)?;
        at = at + 4 * count;
        left = left - count;
        place = next;
        here = level;
    }
    Some(place)
}

fn decide(walked: Option<usize>, text: &[u8]) -> bool
    ensures { (q : E.Expected) → ExpectedIs text.now walked q → result ≡ is_empty q }
{
    match walked {
        None => false,
        Some(to) => to == text.len(),
    }
}

// Whether a code matches the whole text. Most codes are one byte.
fn code_matches(kind: u64, text: &[u8]) -> bool
    ensures { result ≡ equivalent_to_str (node (primitive kind) end end) text.now }
{
    let start = strip_leading_qualifiers(text);
    let byte = code_byte(kind);
    if byte != 0 {
        return decide(expect_byte(byte, text, start), text);
    }
    decide(expect_primitive(kind, &text[0..], start), text)
}

// Whether the tree of `n` nodes matches the whole text.
fn tree_matches(nodes: &[u64], names: &[u8], n: usize, text: &[u8]) -> bool
    requires { TreesAt nodes.now 0 n × KindsAndNames nodes.now (length names.now) 0 n }
    ensures { result ≡ equivalent_to_str (trees names.now nodes.now n 0) text.now }
{
    let start = strip_leading_qualifiers(text);
    let top = NestingLevel::new();
    let walked = expect_encoding(&nodes[0..], &names[0..], 0, n, top, &text[0..], start);
    decide(walked, text)
}

// Whether the tree of the sheet and the text are equivalent.
pub fn equivalent_to_str(words: &[u64], names: &[u8], text: &[u8]) -> Result<bool, Refusal>
    ensures { result ≡ compared words.now names.now text.now }
{
    if MAX_TEXT < text.len() {
        return Err(Refusal::TextTooLong);
    }
    let found = check(&words[0..], &names[0..])?;
    match found {
        Found::Code(_, kind) => Ok(code_matches(kind, &text[0..])),
        Found::Nodes(first, n) => Ok(tree_matches(&words[first..], &names[0..], n, &text[0..])),
    }
}

// Printing (static_str.rs): the text of a number and of a tree, into an output that the caller lends.
#![tactic(auto)]

ghost use Rattle.std.specs.Prelude.{◌+◌, ◌-◌, ◌*◌, ◌≤◌, ◌<◌, ◌≡◌, [], ◌∷◌, ◌++◌, length, true};
ghost use Rattle.kinds.specs.Container.{start_byte};
ghost use Rattle.kinds.specs.Kind.{inside_kind};
ghost use Rattle.kinds.specs.Primitive.{code};
ghost use Rattle.kinds.specs.Print.{decimal, fields, print};
ghost use Rattle.kinds.specs.Sheet.{count_at, is_container_kind, trees, max_nodes, max_names};
ghost use Rattle.kinds.specs.Walk.{NodeAt, TreesAt, KindsAndNames};
ghost use Rattle.static_str.specs.Output.{Wrote};
ghost use Rattle.static_str.specs.Answer.{fitted, placed, encoding_len, encoding_array, encoding_output};
ghost use Rattle.static_str.specs.Parts.{opening, closing, children_text, max_node_text, OwnLength, ChildrenLength, TreesLength};

use kinds::{
    ARRAY, BIT_FIELD, Code, ContainerKind, IndirectionKind, NestingLevel, POINTER, PRIMITIVES,
    Refusal, TYPED_BIT_FIELD, container_of, is_container, is_indirection, primitive_code,
};
use sheet::{Found, check};

// The count of decimal digits of a number below 10,000.
fn short_len(n: u64) -> usize
    requires { n < 10000 }
    ensures { (result ≡ length (decimal n)) × (result ≤ 4) }
{
    if n < 10 {
        return 1;
    }
    if n < 100 {
        return 2;
    }
    if n < 1000 {
        return 3;
    }
    4
}

// The count of decimal digits, by comparisons and at most one division: a division for each digit takes longer than writing the digits.
pub fn static_int_str_len(n: u64) -> usize
    ensures { result ≡ length (decimal n) }
{
    if n < 10000 {
        return short_len(n);
    }
    if n < 100000000 {
        return 4 + short_len(n / 10000);
    }
    if n < 1000000000000 {
        return 8 + short_len(n / 100000000);
    }
    if n < 10000000000000000 {
        return 12 + short_len(n / 1000000000000);
    }
    16 + short_len(n / 10000000000000000)
}

// Writes one byte; the next place.
fn put(out: &mut [u8], at: usize, b: u8) -> usize
    requires { at < length out.old }
    ensures { Wrote out.old at (b ∷ []) out.new result }
{
    out[at] = b;
    at + 1
}

// Writes bytes; the next place.
fn put_bytes(out: &mut [u8], at: usize, s: &[u8]) -> usize
    requires { at + length s.now ≤ length out.old }
    ensures { Wrote out.old at s.now out.new result }
{
    for i in 0..s.len() {
        out[at + i] = s[i];
    }
    at + s.len()
}

// Writes a number in decimal, without surplus zeros; the next place.
fn put_number(out: &mut [u8], at: usize, n: u64) -> usize
    requires { at + length (decimal n) ≤ length out.old }
    ensures { Wrote out.old at (decimal n) out.new result }
{
    if n < 10 {
        return put(out, at, b'0' + (n as u8));
    }
    let next = put_number(out, at, n / 10);
    let digit = (n % 10) as u8;
    put(out, next, b'0' + digit)
}

// Writes a byte and a number; the next place.
fn put_tagged(out: &mut [u8], at: usize, b: u8, n: u64) -> usize
    requires { at + length (b ∷ decimal n) ≤ length out.old }
    ensures { Wrote out.old at (b ∷ decimal n) out.new result }
{
    let next = put(out, at, b);
    put_number(out, next, n)
}

// Writes the code of a primitive; the next place.
fn put_code(out: &mut [u8], at: usize, kind: u64) -> usize
    requires { at + length (code kind) ≤ length out.old }
    ensures { Wrote out.old at (code kind) out.new result }
{
    match primitive_code(kind) {
        Code::Empty => at,
        Code::One(b) => put(out, at, b),
        Code::Two(b, c) => {
            let next = put(out, at, b);
            put(out, next, c)
        }
    }
}

// Writes a number in decimal at the front of the output.
pub fn static_int_str_array(n: u64, out: &mut [u8]) -> Result<usize, Refusal>
    ensures answers { result ≡ fitted (decimal n) (length out.old) }
    ensures writes { out.new ≡ placed (decimal n) out.old }
{
    let digits = static_int_str_len(n);
    if out.len() < digits {
        return Err(Refusal::OutputTooShort);
    }
    put_number(out, 0, n);
    Ok(digits)
}

// The length of a primitive's code; no table is looked up, since this is asked of most nodes.
fn code_len(kind: u64) -> usize
    requires { kind < 24 }
    ensures { (result ≡ length (code kind)) × (result ≤ 2) }
{
    if kind < 13 {
        return 1;
    }
    if kind < 16 {
        return 2;
    }
    if kind == 20 {
        return 2;
    }
    1
}

// The length of a container's own text.
fn container_len(name: u64, level: NestingLevel) -> usize
    requires { name ≤ 2000 }
    ensures { (result ≡ 2 + name + length (fields level [])) × (result ≤ max_node_text) }
{
    let len = 2 + name as usize;
    match level.container_include_fields() {
        Some(_) => len + 1,
        None => len,
    }
}

// The length of a node's own text, without its children's. Nothing is written here, and the guide's order, in which `open_node` decides,
// costs lengths a tenth.
fn node_len(kind: u64, first: u64, second: u64, level: NestingLevel) -> usize
    requires { is_container_kind kind ≡ true → second ≤ 2000 }
    ensures { OwnLength kind first second level result × (result ≤ max_node_text) }
{
    if kind < PRIMITIVES {
        return code_len(kind);
    }
    if is_container(kind) {
        return container_len(second, level);
    }
    if is_indirection(kind) {
        return 1;
    }
    if kind == BIT_FIELD {
        return 1 + static_int_str_len(second);
    }
    if kind == TYPED_BIT_FIELD {
        return 1 + static_int_str_len(first) + static_int_str_len(second);
    }
    if kind == ARRAY {
        return 2 + static_int_str_len(first);
    }
    0
}

// Whether a node of this kind keeps the level, so that its children can be walked like the trees after it.
fn keeps_level(kind: u64, level: NestingLevel) -> bool
    ensures { result ≡ true → inside_kind kind level ≡ level }
{
    // Most nodes are codes and bitfields. What may lead to another level is asked apart, so that each is one test.
    if kind < POINTER {
        return true;
    }
    if is_container(kind) {
        return level.inside(kind) == level;
    }
    if is_indirection(kind) {
        return level.inside(kind) == level;
    }
    true
}

// The length of the text of the children of the node at `at`.
#[cycle(children_len_trees_len)]
fn children_len(nodes: &[u64], at: usize, level: NestingLevel) -> usize
    requires node_at { NodeAt nodes.now at × (count_at nodes.now at ≤ max_nodes) }
    requires kinds_and_names { KindsAndNames nodes.now max_names at (count_at nodes.now at) }
    ensures { ChildrenLength nodes.now at level result × (result + max_node_text ≤ max_node_text * count_at nodes.now at) }
{
    match level.children(nodes[at]) {
        None => 0,
        Some(inner) => {
            let below = nodes[at + 3] as usize - 1;
            trees_len(&nodes[0..], at + 4, below, inner)
        }
    }
}

// The length of the text of the trees of the `n` nodes from `from` on. Only another level takes a call, and there are three.
#[cycle(children_len_trees_len)]
fn trees_len(nodes: &[u64], from: usize, n: usize, level: NestingLevel) -> usize
    requires trees_at { TreesAt nodes.now from n × (n ≤ max_nodes) }
    requires kinds_and_names { KindsAndNames nodes.now max_names from n }
    ensures { TreesLength nodes.now from n level result × (result ≤ max_node_text * n) }
{
    let mut at = from;
    let mut left = n;
    let mut len = 0;
    // `at` moves by a node's count, which is no step of an iterator
    while 0 < left {
        let kind = nodes[at];
        len = len + node_len(kind, nodes[at + 1], nodes[at + 2], level);
        if keeps_level(kind, level) {
            at = at + 4;
            left = left - 1;
            continue;
        }
        len = len + children_len(nodes, at, level);
        let count = nodes[at + 3] as usize;
        at = at + 4 * count;
        left = left - count;
    }
    len
}

// Writes `=` where a container shows its fields; the next place.
fn put_equals(out: &mut [u8], at: usize, level: NestingLevel) -> usize
    requires { at + length (fields level []) ≤ length out.old }
    ensures { Wrote out.old at (fields level []) out.new result }
{
    match level.container_include_fields() {
        Some(_) => put(out, at, b'='),
        None => at,
    }
}

// Writes a container's text up to its fields; the next place.
fn open_container(
    kind: ContainerKind,
    name: &[u8],
    level: NestingLevel,
    out: &mut [u8],
    at: usize,
) -> usize
    requires { at + length (start_byte kind ∷ (name.now ++ fields level [])) ≤ length out.old }
    ensures { Wrote out.old at (start_byte kind ∷ (name.now ++ fields level [])) out.new result }
{
    let after_start = put(out, at, kind.start_byte());
    let after_name = put_bytes(out, after_start, name);
    put_equals(out, after_name, level)
}

// Writes a node's text up to its children's; the next place.
fn open_node(
    kind: u64,
    first: u64,
    second: u64,
    names: &[u8],
    level: NestingLevel,
    out: &mut [u8],
    at: usize,
) -> usize
    requires name_within { is_container_kind kind ≡ true → first + second ≤ length names.now }
    requires room { at + length (opening names.now kind first second level) ≤ length out.old }
    ensures { Wrote out.old at (opening names.now kind first second level) out.new result }
{
    if kind < PRIMITIVES {
        return put_code(out, at, kind);
    }
    // `[`, `{`, `(`, and None, which no byte begins
    if ARRAY <= kind {
        if kind == ARRAY {
            return put_tagged(out, at, b'[', first);
        }
        if is_container(kind) {
            let from = first as usize;
            let to = from + second as usize;
            return open_container(container_of(kind), &names[from..to], level, out, at);
        }
        return at;
    }
    if kind == BIT_FIELD {
        return put_tagged(out, at, b'b', second);
    }
    if kind == TYPED_BIT_FIELD {
        return put_tagged(out, at, b'b', first);
    }
    if kind == POINTER {
        return put(out, at, IndirectionKind::Pointer.prefix_byte());
    }
    put(out, at, IndirectionKind::Atomic.prefix_byte())
}

// Writes a node's text after its children's; the next place.
fn close_node(kind: u64, second: u64, out: &mut [u8], at: usize) -> usize
    requires { at + length (closing kind second) ≤ length out.old }
    ensures { Wrote out.old at (closing kind second) out.new result }
{
    if kind == ARRAY {
        return put(out, at, b']');
    }
    if is_container(kind) {
        return put(out, at, container_of(kind).end_byte());
    }
    if kind == TYPED_BIT_FIELD {
        return put_number(out, at, second);
    }
    at
}

// Writes the text of the children of the node at `at`; the next place.
#[cycle(print_children_print_trees)]
fn print_children(
    nodes: &[u64],
    names: &[u8],
    at: usize,
    level: NestingLevel,
    out: &mut [u8],
    to: usize,
) -> usize
    requires node_at { NodeAt nodes.now at × KindsAndNames nodes.now (length names.now) at (count_at nodes.now at) }
    requires room { to + length (children_text names.now nodes.now at level) ≤ length out.old }
    ensures { Wrote out.old to (children_text names.now nodes.now at level) out.new result }
{
    let count = nodes[at + 3] as usize;
    if count == 1 {
        return to;
    }
    match level.children(nodes[at]) {
        None => to,
        Some(inner) => print_trees(&nodes[0..], &names[0..], at + 4, count - 1, inner, out, to),
    }
}

// Whether nothing is written after what a node of this kind and count, the first of the `left` nodes, holds, so that the nodes after
// it can be walked on: a code, a bitfield, and a pointer or an atomic that no tree follows.
fn walked_on(kind: u64, count: usize, left: usize) -> bool
    ensures { result ≡ true → 25 ≤ kind → (26 ≤ kind) × (kind ≤ 27) × (count ≡ left) }
{
    if kind < TYPED_BIT_FIELD {
        return true;
    }
    if !is_indirection(kind) {
        return false;
    }
    count == left
}

// Writes the text of the trees of the `n` nodes from `from` on; the next place.
#[cycle(print_children_print_trees)]
fn print_trees(
    nodes: &[u64],
    names: &[u8],
    from: usize,
    n: usize,
    mut level: NestingLevel,
    out: &mut [u8],
    start: usize,
) -> usize
    requires trees_at { TreesAt nodes.now from n × KindsAndNames nodes.now (length names.now) from n }
    requires room { start + length (print level (trees names.now nodes.now n from)) ≤ length out.old }
    ensures { Wrote out.old start (print level (trees names.now nodes.now n from)) out.new result }
{
    let mut at = from;
    let mut left = n;
    let mut to = start;
    // `at` moves by a node's count, which is no step of an iterator
    while 0 < left {
        let kind = nodes[at];
        let second = nodes[at + 2];
        let count = nodes[at + 3] as usize;
        to = open_node(kind, nodes[at + 1], second, names, level, out, to);
        if walked_on(kind, count, left) {
            level = level.inside(kind);
            at = at + 4;
            left = left - 1;
            continue;
        }
        to = print_children(nodes, names, at, level, out, to);
        to = close_node(kind, second, out, to);
        at = at + 4 * count;
        left = left - count;
    }
    to
}

// Writes the code of a primitive at the front of the output.
fn print_code(kind: u64, out: &mut [u8]) -> Result<usize, Refusal>
    requires { kind < 24 }
    ensures answers { result ≡ fitted (code kind) (length out.old) }
    ensures writes { out.new ≡ placed (code kind) out.old }
{
    let len = code_len(kind);
    if out.len() < len {
        return Err(Refusal::OutputTooShort);
    }
    put_code(out, 0, kind);
    Ok(len)
}

// Writes the text of the tree of `n` nodes at the front of the output.
fn print_tree(nodes: &[u64], names: &[u8], n: usize, out: &mut [u8]) -> Result<usize, Refusal>
    requires trees_at { TreesAt nodes.now 0 n × (n ≤ max_nodes) }
    requires kinds_and_names { KindsAndNames nodes.now max_names 0 n × KindsAndNames nodes.now (length names.now) 0 n }
    ensures answers { result ≡ fitted (print NestingLevel.Top (trees names.now nodes.now n 0)) (length out.old) }
    ensures writes { out.new ≡ placed (print NestingLevel.Top (trees names.now nodes.now n 0)) out.old }
{
    let len = trees_len(&nodes[0..], 0, n, NestingLevel::new());
    if out.len() < len {
        return Err(Refusal::OutputTooShort);
    }
    print_trees(&nodes[0..], &names[0..], 0, n, NestingLevel::new(), out, 0);
    Ok(len)
}

// The length of the text of the tree that the lists hold.
pub fn static_encoding_str_len(words: &[u64], names: &[u8]) -> Result<usize, Refusal>
    ensures { result ≡ encoding_len words.now names.now }
{
    match check(&words[0..], &names[0..]) {
        Err(why) => Err(why),
        Ok(Found::Code(_, kind)) => Ok(code_len(kind)),
        Ok(Found::Nodes(first, n)) => Ok(trees_len(&words[first..], 0, n, NestingLevel::new())),
    }
}

// Writes the text of the tree that the lists hold at the front of the output.
pub fn static_encoding_str_array(
    words: &[u64],
    names: &[u8],
    out: &mut [u8],
) -> Result<usize, Refusal>
    ensures answers { result ≡ encoding_array words.now names.now (length out.old) }
    ensures writes { out.new ≡ encoding_output words.now names.now out.old }
{
    match check(&words[0..], &names[0..]) {
        Err(refusal) => Err(refusal),
        Ok(Found::Code(_, kind)) => print_code(kind, out),
        Ok(Found::Nodes(first, n)) => print_tree(&words[first..], &names[0..], n, out),
    }
}

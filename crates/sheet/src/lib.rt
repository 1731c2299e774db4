// The border of sheets, trees in a lent list of words and a lent list of name bytes: the check, what it hands to a walk over the
// nodes, and putting nodes and the header. Only here is it known where the nodes begin.
#![tactic(auto)]

ghost use Rattle.std.specs.Prelude.{ℕ, ◌+◌, ◌-◌, ◌*◌, ◌≤◌, ◌<◌, ◌≡◌, true, false, ◌&&◌, [], ◌∷◌, leb, eqb, length, take, drop, replicate};
ghost use Rattle.kinds.specs.Name.{verify_name};
ghost use Rattle.kinds.specs.Sheet.{kind_at, count_at, is_container_kind, numbers, header};
ghost use Rattle.sheet.specs.Answer.{checked, checked_number, sheet_number, sooner, beside, both, checked_both, checked_both_number, sheets_number, lone_code};
ghost use Rattle.sheet.specs.Given.{Gives, GivesBoth};
ghost use Rattle.sheet.specs.Put.{put_node, put_header};
ghost use Rattle.sheet.specs.Walked.{walked, fits, node_fits, verdict_of, answer, LoneCode};

use kinds::{
    ARRAY, BIT_FIELD, MAX_NAMES, MAX_NODES, MAX_TEXT, NONE, PRIMITIVES, Refusal, TYPED_BIT_FIELD,
    is_container, is_indirection, verify_name,
};

// The most bits of a bitfield.
const MAX_BITS: u64 = 255;

// The words before the first node.
pub const HEADER: usize = 4;

// The most words of a sheet that is read from a text.
pub const MAX_WORDS: usize = HEADER + 4 * (MAX_TEXT + 1);

// Where the check of a sheet finds the nodes to begin in the words, with the kind of a tree that is one code or else how many they are.
#[derive(Clone, Copy)]
pub enum Found {
    Code(usize, u64),
    Nodes(usize, usize),
}

// The same of two sheets, a code that stands beside another tree being one node.
#[derive(Clone, Copy)]
pub enum FoundBoth {
    Codes(u64, u64),
    Nodes(usize, usize, usize, usize),
}

// Whether the name at `first` is the next one and ends within the names.
fn name_ok(first: u64, second: u64, name: u64, end: u64) -> bool
    requires { name ≤ end }
    ensures { result ≡ (eqb first name && leb (name + second) end) }
{
    first == name && second <= end - name
}

// Whether the two numbers of a node that has no name are those that its kind takes.
fn numbers_ok(kind: u64, first: u64, second: u64) -> bool
    requires { is_container_kind kind ≡ false }
    ensures { (p e : ℕ) → result ≡ numbers kind first second p e }
{
    if kind == TYPED_BIT_FIELD {
        return second <= MAX_BITS;
    }
    if kind == ARRAY {
        return second == 0;
    }
    if first != 0 {
        return false;
    }
    if kind == BIT_FIELD {
        return second <= MAX_BITS;
    }
    if NONE < kind {
        return false;
    }
    second == 0
}

// Whether a subtree of `count` nodes, whose root stands at `at` and takes one child, lies within the `left` nodes from there on
// and ends where its child's ends.
fn child_ok(nodes: &[u64], at: usize, count: u64, left: usize) -> bool
    requires { (0 < left) × (at + 4 * left ≤ length nodes.now) }
    ensures { (k : ℕ) → 25 ≤ k → k ≤ 28 → result ≡ fits left k count (count_at nodes.now (at + 4)) }
{
    if count < 2 {
        return false;
    }
    if (left as u64) < count {
        return false;
    }
    let child = at + 4;
    nodes[child + 3] == count - 1
}

// Whether a subtree of `count` nodes, whose root is no container and stands at `at`, lies within the `left` nodes from there on
// and has as many children as the root's kind takes.
fn arity_ok(nodes: &[u64], at: usize, kind: u64, count: u64, left: usize) -> bool
    requires { (is_container_kind kind ≡ false) × (0 < left) × (at + 4 * left ≤ length nodes.now) }
    ensures { result ≡ fits left kind count (count_at nodes.now (at + 4)) }
{
    if kind < TYPED_BIT_FIELD {
        return count == 1;
    }
    if ARRAY < kind {
        return count == 1;
    }
    child_ok(nodes, at, count, left)
}

fn no_numbers(first: u64, second: u64) -> bool
    ensures { result ≡ (eqb first 0 && eqb second 0) }
{
    first == 0 && second == 0
}

// Whether the node at `at`, no container, can stand first among the `left` nodes from there on. Codes and what points to others,
// which come in long rows, are told apart before the rest.
fn plain_ok(nodes: &[u64], at: usize, left: usize) -> bool
    requires { (is_container_kind (kind_at nodes.now at) ≡ false) × (0 < left) × (at + 4 * left ≤ length nodes.now) }
    ensures { (p e : ℕ) → result ≡ node_fits nodes.now left at p e }
{
    let kind = nodes[at];
    if kind < PRIMITIVES {
        return no_numbers(nodes[at + 1], nodes[at + 2]) && nodes[at + 3] == 1;
    }
    if is_indirection(kind) {
        return no_numbers(nodes[at + 1], nodes[at + 2]) && child_ok(nodes, at, nodes[at + 3], left);
    }
    numbers_ok(kind, nodes[at + 1], nodes[at + 2]) && arity_ok(nodes, at, kind, nodes[at + 3], left)
}

// Whether the container at `at` can stand first among the `left` nodes from there on, where `name` is the place of the next name.
fn container_ok(nodes: &[u64], at: usize, left: usize, name: u64, end: u64) -> bool
    requires { (is_container_kind (kind_at nodes.now at) ≡ true) × (0 < left) × (at + 4 * left ≤ length nodes.now) × (name ≤ end) }
    ensures { result ≡ node_fits nodes.now left at name end }
{
    if !name_ok(nodes[at + 1], nodes[at + 2], name, end) {
        return false;
    }
    let count = nodes[at + 3];
    1 <= count && count <= left as u64
}

// Whether the names so far are good, and the one of `size` bytes from `from` on.
fn name_good(names: &[u8], from: u64, size: u64, good: bool) -> bool
    requires { from + size ≤ length names.now }
    ensures { result ≡ (good && verify_name (take size (drop from names.now))) }
{
    if !good {
        return false;
    }
    let a = from as usize;
    let b = a + size as usize;
    verify_name(&names[a..b])
}

// One pass over the `left` nodes from `at` on. Only a container that others follow makes a call: a kind with one child and the last
// container end where what they hold ends, so that it can stand as the next of the nodes.
fn check_nodes(
    nodes: &[u64],
    names: &[u8],
    mut at: usize,
    mut left: usize,
    mut name: u64,
    end: u64,
    mut good: bool,
) -> Option<(u64, bool)>
    requires { (at + 4 * left ≤ length nodes.now) × (name ≤ end) × (end ≤ length names.now) }
    ensures { result ≡ walked names.now nodes.now left at name end good }
{
    // A cursor that moves by a node's count: no step of an iterator.
    while 0 < left {
        if !is_container(nodes[at]) {
            if !plain_ok(nodes, at, left) {
                return None;
            }
            at = at + 4;
            left = left - 1;
            continue;
        }
        if !container_ok(nodes, at, left, name, end) {
            return None;
        }
        let size = nodes[at + 2];
        let count = nodes[at + 3] as usize;
        good = name_good(names, name, size, good);
        name = name + size;
        if count == left {
            at = at + 4;
            left = left - 1;
            continue;
        }
        let (next, all_good) = check_nodes(
            &nodes[0..],
            &names[0..],
            at + 4,
            count - 1,
            name,
            end,
            good,
        )?;
        name = next;
        good = all_good;
        at = at + 4 * count;
        left = left - count;
    }
    Some((name, good))
}

#[tactic(auto, unfolding(kinds::specs::Sheet::header))]
fn header_ok(words: &[u64], room: usize) -> bool
    ensures { result ≡ header words.now room }
{
    HEADER <= words.len()
        && 1 <= words[0]
        && words[0] <= MAX_NODES
        && words[1] == HEADER as u64
        && words[2] <= MAX_NAMES
        && words[3] == HEADER as u64 + 4 * words[0]
        && words[3] <= words.len() as u64
        && words[2] <= room as u64
}

// What a whole pass says of a sheet whose names end at `end`.
fn answer_of(end: u64, pass: Option<(u64, bool)>) -> Result<(), Refusal>
    ensures { result ≡ answer end pass }
{
    match pass {
        None => Err(Refusal::NotASheet),
        Some((p, good)) => {
            if p != end {
                return Err(Refusal::NotASheet);
            }
            if good {
                return Ok(());
            }
            Err(Refusal::BadName)
        }
    }
}

// Whether the two lists begin with a sheet, and then whether each container of it has a good name.
fn judged(words: &[u64], names: &[u8]) -> Result<(), Refusal>
    ensures { result ≡ verdict_of words.now names.now }
{
    if !header_ok(words, names.len()) {
        return Err(Refusal::NotASheet);
    }
    let nodes = words[0];
    if words[HEADER + 3] != nodes {
        return Err(Refusal::NotASheet);
    }
    let end = words[2];
    let pass = check_nodes(
        &words[HEADER..],
        &names[0..],
        0,
        nodes as usize,
        0,
        end,
        true,
    );
    answer_of(end, pass)
}

fn check_sheet(words: &[u64], names: &[u8]) -> Result<Found, Refusal>
    ensures { result ≡ checked words.now names.now }
{
    judged(words, names)?;
    let kind = words[HEADER];
    if kind < PRIMITIVES {
        return Ok(Found::Code(HEADER, kind));
    }
    Ok(Found::Nodes(HEADER, words[0] as usize))
}

// Whether the words are the sheet of one code: the case that is asked for most, told apart before all else.
fn lone_code(words: &[u64]) -> bool
    ensures holds { result ≡ true → LoneCode words.now }
    ensures fails { result ≡ false → LoneCode words.now → ⊥ }
{
    // one test after the other: as a chain of `&&` the calls on codes took a tenth more
    if words.len() < HEADER + 4 {
        return false;
    }
    if words[0] != 1 {
        return false;
    }
    if words[1] != HEADER as u64 {
        return false;
    }
    if words[2] != 0 {
        return false;
    }
    if words[3] != HEADER as u64 + 4 {
        return false;
    }
    if PRIMITIVES <= words[HEADER] {
        return false;
    }
    if !no_numbers(words[HEADER + 1], words[HEADER + 2]) {
        return false;
    }
    words[HEADER + 3] == 1
}

// The code that the words hold, whatever names stand beside them: for a call that can answer for codes before the check of its sheets.
pub fn code_alone(words: &[u64]) -> Option<u64>
    ensures { result ≡ lone_code words.now }
{
    if lone_code(words) {
        return Some(words[HEADER]);
    }
    None
}

// The check of a sheet.
pub fn check(words: &[u64], names: &[u8]) -> Result<Found, Refusal>
    ensures answers { result ≡ checked words.now names.now }
    ensures gives { Gives words.now names.now result }
    ensures number { checked_number result ≡ sheet_number words.now names.now }
{
    if lone_code(words) {
        return Ok(Found::Code(HEADER, words[HEADER]));
    }
    check_sheet(&words[0..], &names[0..])
}

fn sooner_of(a: Refusal, b: Refusal) -> Refusal
    ensures { result ≡ sooner a b }
{
    if a.number() <= b.number() {
        return a;
    }
    b
}

fn beside(x: Found, y: Found) -> FoundBoth
    ensures { result ≡ beside x y }
{
    match (x, y) {
        (Found::Code(_, k), Found::Code(_, j)) => FoundBoth::Codes(k, j),
        (Found::Code(f, _), Found::Nodes(g, m)) => FoundBoth::Nodes(f, 1, g, m),
        (Found::Nodes(f, n), Found::Code(g, _)) => FoundBoth::Nodes(f, n, g, 1),
        (Found::Nodes(f, n), Found::Nodes(g, m)) => FoundBoth::Nodes(f, n, g, m),
    }
}

// What the checks of two sheets say together.
pub fn both_of(a: Result<Found, Refusal>, b: Result<Found, Refusal>) -> Result<FoundBoth, Refusal>
    ensures { result ≡ both a b }
{
    match (a, b) {
        (Err(r), Err(q)) => Err(sooner_of(r, q)),
        (Err(r), Ok(_)) => Err(r),
        (Ok(_), Err(q)) => Err(q),
        (Ok(x), Ok(y)) => Ok(beside(x, y)),
    }
}

// The check of two sheets.
pub fn check_both(aw: &[u64], an: &[u8], bw: &[u64], bn: &[u8]) -> Result<FoundBoth, Refusal>
    ensures answers { result ≡ checked_both aw.now an.now bw.now bn.now }
    ensures gives { GivesBoth aw.now an.now bw.now bn.now result }
    ensures number { checked_both_number result ≡ sheets_number aw.now an.now bw.now bn.now }
{
    if lone_code(aw) {
        if lone_code(bw) {
            return Ok(FoundBoth::Codes(aw[HEADER], bw[HEADER]));
        }
        return both_of(
            Ok(Found::Code(HEADER, aw[HEADER])),
            check_sheet(&bw[0..], &bn[0..]),
        );
    }
    both_of(check_sheet(&aw[0..], &an[0..]), check(&bw[0..], &bn[0..]))
}

// Node `n` of the words from the first node on. Does nothing where there is no room for it.
pub fn put_node(nodes: &mut [u64], n: usize, kind: u64, first: u64, second: u64, count: u64)
    ensures { nodes.new ≡ put_node n (kind ∷ first ∷ second ∷ count ∷ []) nodes.old }
{
    if nodes.len() / 4 <= n {
        return;
    }
    let at = 4 * n;
    nodes[at] = kind;
    nodes[at + 1] = first;
    nodes[at + 2] = second;
    nodes[at + 3] = count;
}

// The header of a sheet of so many nodes and name bytes. Does nothing where there is no room for them.
pub fn put_header(words: &mut [u64], nodes: usize, names: usize)
    ensures { words.new ≡ put_header nodes names words.old }
{
    if words.len() < HEADER {
        return;
    }
    if (words.len() - HEADER) / 4 < nodes {
        return;
    }
    words[0] = nodes as u64;
    words[1] = HEADER as u64;
    words[2] = names as u64;
    words[3] = (HEADER + 4 * nodes) as u64;
}

// Every word becomes 0: a caller lends the part that is to be cleared.
pub fn clear_words(words: &mut [u64])
    ensures { words.new ≡ replicate (length words.old) 0 }
{
    words.fill(0);
}

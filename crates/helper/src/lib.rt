// The size of a tree, and tree against tree (helper.rs, `Helper::size` and `compare_encodings`).
#![tactic(auto)]

ghost use Rattle.std.specs.Prelude.{ℕ, ◌+◌, ◌-◌, ◌*◌, ◌≤◌, ◌<◌, ◌≡◌, true, false, ◌||◌, eqb, List, [], length, take, drop};
ghost use Rattle.kinds.specs.Byte.{same_bytes};
ghost use Rattle.kinds.specs.Compare.{compare_labels, level_for};
ghost use Rattle.kinds.specs.Primitive.{Widths, entry};
ghost use Rattle.kinds.specs.Sheet.{label, label_at, first_at, second_at, is_container_kind, trees};
ghost use Rattle.kinds.specs.Size.{bit_bytes};
ghost use Rattle.kinds.specs.Tree.{inside, end, node, primitive};
ghost use Rattle.kinds.specs.Walk.{NodeAt, TreesAt, KindAndName, KindsAndNames};
ghost use Rattle.helper.specs.Answer.{max_size, sized_in, size_answer, compare_answer};
ghost use Rattle.helper.specs.Measure.{clip, plus_measured, larger_measured, times_measured, join_measured, fold, holding_measured, is_leaf, leaf_entry, RowOf, size_at, answer_at, compare_fields, shown_count, level_after, measured};

use kinds::{
    ARRAY, BIT_FIELD, NONE, NestingLevel, POINTER, PRIMITIVES, ROWS, Refusal, SIZES, STRUCT,
    TYPED_BIT_FIELD, equivalent_kinds, is_container, primitive_size,
};
use sheet::{Found, FoundBoth, check, check_both, code_alone};

// The kind word of a primitive that is a pointer, by which a pointer's size is found in a row.
const STRING: usize = 18;

// The row in which pointers have 32 bits.
const ROW_OF_32_BITS: u64 = 2;

// A size: none, a count of bytes, or one above 2^64 - 1. Sizes add up with all three, so too large is a value here and no refusal yet.
#[derive(Clone, Copy)]
pub enum Measured {
    Nothing,
    Bytes(u64),
    TooLarge,
}

impl Measured {
    pub fn plus(self, other: Measured) -> Measured
        ensures { result ≡ plus_measured self other }
    {
        match self {
            Measured::Nothing => Measured::Nothing,
            Measured::TooLarge => match other {
                Measured::Nothing => Measured::Nothing,
                Measured::Bytes(_) => Measured::TooLarge,
                Measured::TooLarge => Measured::TooLarge,
            },
            Measured::Bytes(a) => match other {
                Measured::Nothing => Measured::Nothing,
                Measured::TooLarge => Measured::TooLarge,
                Measured::Bytes(b) => {
                    if a <= 18446744073709551615 - b {
                        Measured::Bytes(a + b)
                    } else {
                        Measured::TooLarge
                    }
                }
            },
        }
    }

    pub fn larger(self, other: Measured) -> Measured
        ensures { result ≡ larger_measured self other }
    {
        match self {
            Measured::Nothing => other,
            Measured::TooLarge => Measured::TooLarge,
            Measured::Bytes(a) => match other {
                Measured::Nothing => Measured::Bytes(a),
                Measured::TooLarge => Measured::TooLarge,
                Measured::Bytes(b) => Measured::Bytes(a.max(b)),
            },
        }
    }

    pub fn times(self, n: u64) -> Measured
        ensures { result ≡ times_measured n self }
    {
        match self {
            Measured::Nothing => Measured::Nothing,
            Measured::TooLarge => {
                if n == 0 {
                    Measured::Bytes(0)
                } else {
                    Measured::TooLarge
                }
            }
            Measured::Bytes(a) => {
                if n == 0 {
                    return Measured::Bytes(0);
                }
                if a <= 18446744073709551615 / n {
                    Measured::Bytes(n * a)
                } else {
                    Measured::TooLarge
                }
            }
        }
    }

    // A number of the table of sizes: 0 for none.
    fn of_entry(n: u8) -> Measured
        ensures { result ≡ clip (entry n) }
    {
        if n == 0 {
            return Measured::Nothing;
        }
        Measured::Bytes(n as u64)
    }

    // What a call answers where sizes are at most `limit`.
    fn answer(self, limit: u64) -> Result<Option<u64>, Refusal>
        ensures { result ≡ measured limit self }
    {
        match self {
            Measured::Nothing => Ok(None),
            Measured::Bytes(n) => {
                if limit < n {
                    return Err(Refusal::SizeTooLarge);
                }
                Ok(Some(n))
            }
            Measured::TooLarge => Err(Refusal::SizeTooLarge),
        }
    }

    fn of_no_fields(kind: u64) -> Measured
        ensures { result ≡ clip (fold kind []) }
    {
        if kind == STRUCT {
            return Measured::Bytes(0);
        }
        Measured::Nothing
    }

    // What a container of this kind makes of its fields' sizes.
    fn join(self, kind: u64, other: Measured) -> Measured
        ensures { result ≡ join_measured kind self other }
    {
        if kind == STRUCT {
            self.plus(other)
        } else {
            self.larger(other)
        }
    }

    // What a typed bitfield, an atomic or an array makes of the size of what it holds.
    fn held_by(self, kind: u64, first: u64, second: u64) -> Measured
        ensures { result ≡ holding_measured kind first second self }
    {
        if kind == TYPED_BIT_FIELD {
            return Measured::Bytes(bit_bytes(second)).larger(self);
        }
        if kind == ARRAY {
            return self.times(first);
        }
        self
    }
}

// The bits raised to a power of two, at least 8, in bytes.
fn bit_bytes(n: u64) -> u64
    ensures { result ≡ bit_bytes n }
{
    n.div_ceil(8).next_power_of_two()
}

// A node whose size does not depend on what it holds: a primitive, a bitfield without a type, a pointer, None.
fn is_leaf(kind: u64) -> bool
    ensures { result ≡ is_leaf kind }
{
    if kind < TYPED_BIT_FIELD {
        return true;
    }
    if kind == POINTER {
        return true;
    }
    NONE <= kind
}

// The size of such a node, by the row of sizes.
fn leaf_size(sizes: &[u8; 24], kind: u64, bits: u64) -> Measured
    ensures { result ≡ clip (leaf_entry sizes.now kind bits) }
{
    if kind < PRIMITIVES {
        return Measured::of_entry(sizes[kind as usize]);
    }
    if kind == BIT_FIELD {
        return Measured::Bytes(bit_bytes(bits));
    }
    if kind == POINTER {
        return Measured::of_entry(sizes[STRING]);
    }
    Measured::Nothing
}

// The size of the node at `at`, from the sizes of its children. Leaves among a container's fields need no call of their own.
fn size_of(sizes: &[u8; 24], nodes: &[u64], at: usize, level: NestingLevel) -> Measured
    requires { NodeAt nodes.now at }
    ensures { (m : Widths) → RowOf sizes.now m → (s : List ℕ) → result ≡ clip (size_at m s nodes.now at level) }
{
    let kind = nodes[at];
    if is_leaf(kind) {
        return leaf_size(sizes, kind, nodes[at + 2]);
    }
    if kind < STRUCT {
        let item = size_of(sizes, &nodes[0..], at + 4, level.inside(kind));
        return item.held_by(kind, nodes[at + 1], nodes[at + 2]);
    }
    let Some(inner) = level.container_include_fields() else {
        return Measured::Nothing;
    };
    let mut child = at + 4;
    let mut left = (nodes[at + 3] as usize) - 1;
    let mut all = Measured::of_no_fields(kind);
    // `child` moves by a node's count, which is no step of an iterator
    while 0 < left {
        let field = nodes[child];
        if field < TYPED_BIT_FIELD {
            all = all.join(kind, leaf_size(sizes, field, nodes[child + 2]));
            child += 4;
            left -= 1;
            continue;
        }
        if field == kind {
            // a struct in a struct, or a union in a union: its fields count as the outer's own
            child += 4;
            left -= 1;
            continue;
        }
        let mut item = leaf_size(sizes, field, nodes[child + 2]);
        if !is_leaf(field) {
            item = size_of(sizes, &nodes[0..], child, inner);
        }
        all = all.join(kind, item);
        let count = nodes[child + 3] as usize;
        child += 4 * count;
        left -= count;
    }
    all
}

// Whether the names of two containers are the same bytes.
fn same_name(a: &[u64], an: &[u8], at: usize, b: &[u64], bn: &[u8], bt: usize) -> bool
    requires at_in_bounds { (at + 4 ≤ length a.now) × (bt + 4 ≤ length b.now) }
    requires names_in_bounds { (first_at a.now at + second_at a.now at ≤ length an.now) × (first_at b.now bt + second_at b.now bt ≤ length bn.now) }
    ensures { result ≡ same_bytes (take (second_at a.now at) (drop (first_at a.now at) an.now)) (take (second_at b.now bt) (drop (first_at b.now bt) bn.now)) }
{
    let af = a[at + 1] as usize;
    let al = a[at + 2] as usize;
    let bf = b[bt + 1] as usize;
    let bl = b[bt + 2] as usize;
    let ae = af + al;
    let be = bf + bl;
    an[af..ae] == bn[bf..be]
}

// Whether the numbers of two nodes of this kind, which is no container's, match.
fn same_numbers(kind: u64, af: u64, al: u64, bf: u64, bl: u64) -> bool
    requires { (24 ≤ kind) × (kind ≤ 31) × (is_container_kind kind ≡ false) }
    ensures { (s t : List ℕ) → result ≡ compare_labels (label s kind af al) (label t kind bf bl) }
{
    if kind == BIT_FIELD {
        return al == bl;
    }
    if kind == TYPED_BIT_FIELD {
        return af == bf && al == bl;
    }
    if kind == ARRAY {
        return af == bf;
    }
    true
}

// Whether two nodes match, their children aside: kind, numbers, name.
fn compare_labels(a: &[u64], an: &[u8], at: usize, b: &[u64], bn: &[u8], bt: usize) -> bool
    requires at_in_bounds { (at + 4 ≤ length a.now) × (bt + 4 ≤ length b.now) }
    requires kind_and_name { KindAndName a.now (length an.now) at × KindAndName b.now (length bn.now) bt }
    ensures { result ≡ compare_labels (label_at an.now a.now at) (label_at bn.now b.now bt) }
{
    let kind = a[at];
    if !equivalent_kinds(kind, b[bt]) {
        return false;
    }
    if kind < PRIMITIVES {
        return true;
    }
    if is_container(kind) {
        return same_name(a, an, at, b, bn, bt);
    }
    same_numbers(kind, a[at + 1], a[at + 2], b[bt + 1], b[bt + 2])
}

pub fn level_for(all: bool, level: NestingLevel) -> NestingLevel
    ensures { result ≡ level_for all level }
{
    if all {
        return NestingLevel::new();
    }
    level
}

// The level after a node: that of what it holds, or, after a container and what holds nothing, `level`, at which the trees side by side are.
// `expect` has a function of this name with another promise: it follows a pointer or an atomic alone.
pub fn level_after(all: bool, kind: u64, level: NestingLevel, here: NestingLevel) -> NestingLevel
    ensures { result ≡ level_after all kind level here }
{
    if kind < TYPED_BIT_FIELD {
        return level;
    }
    if ARRAY < kind {
        return level;
    }
    level_for(all, here).inside(kind)
}

// How many of a container's `n` field nodes are compared.
pub fn shown_count(level: NestingLevel, n: usize) -> usize
    ensures { result ≡ shown_count level n }
{
    match level.container_include_fields() {
        Some(_) => n,
        None => 0,
    }
}

fn either_none(n: usize, m: usize) -> bool
    ensures { result ≡ (eqb n 0 || eqb m 0) }
{
    n == 0 || m == 0
}

// Whether nothing comes after two containers, of `n` and `m` nodes of fields, that both have some.
fn fields_last(after: usize, n: usize, later: usize, m: usize) -> bool
    ensures { result ≡ true → (after ≤ 0) × (later ≤ 0) × (0 < n) × (0 < m) }
{
    after == 0 && later == 0 && 0 < n && 0 < m
}

// Whether the fields match: the trees of the `left` nodes from `at` on and those of the `more` nodes from `bt` on. One that has none
// matches any. A node with one child is followed by that child, and the last containers by their fields, so only others need a call.
fn compare_fields(
    a: &[u64],
    an: &[u8],
    mut at: usize,
    mut left: usize,
    b: &[u64],
    bn: &[u8],
    mut bt: usize,
    mut more: usize,
    mut level: NestingLevel,
    all: bool,
) -> bool
    requires trees_at { TreesAt a.now at left × TreesAt b.now bt more }
    requires kinds_and_names { KindsAndNames a.now (length an.now) at left × KindsAndNames b.now (length bn.now) bt more }
    ensures { result ≡ compare_fields all level (trees an.now a.now left at) (trees bn.now b.now more bt) }
{
    if either_none(left, more) {
        return true;
    }
    let mut here = level;
    // `at` and `bt` move by their nodes' counts, which is no step of an iterator
    while !either_none(left, more) {
        if !compare_labels(a, an, at, b, bn, bt) {
            return false;
        }
        let kind = a[at];
        let mut c = 1;
        let mut d = 1;
        if is_container(kind) {
            c = a[at + 3] as usize;
            d = b[bt + 3] as usize;
            let n = shown_count(level_for(all, here), c - 1);
            let m = d - 1;
            let i = at + 4;
            let j = bt + 4;
            let inner = NestingLevel::Within;
            if fields_last(left - c, n, more - d, m) {
                at = i;
                left = n;
                bt = j;
                more = m;
                level = inner;
                here = inner;
                continue;
            }
            if !compare_fields(&a[0..], &an[0..], i, n, &b[0..], &bn[0..], j, m, inner, all) {
                return false;
            }
        }
        at += 4 * c;
        left -= c;
        bt += 4 * d;
        more -= d;
        here = level_after(all, kind, level, here);
    }
    left == more
}

// The largest size in a row.
pub fn max_size(row: u64) -> u64
    ensures { result ≡ max_size row }
{
    if row == ROW_OF_32_BITS {
        return 4294967295;
    }
    18446744073709551615
}

// The size in a row of the tree of the nodes. The row is looked up once: a constant table is put on the stack wherever it is indexed.
fn nodes_size(row: u64, nodes: &[u64]) -> Result<Option<u64>, Refusal>
    requires { NodeAt nodes.now 0 }
    ensures { (s : List ℕ) → result ≡ answer_at row s nodes.now }
{
    if ROWS <= row {
        return Err(Refusal::NoSuchRow);
    }
    let table = SIZES;
    let sizes = &table[row as usize];
    let kind = nodes[0];
    if is_leaf(kind) {
        return leaf_size(sizes, kind, nodes[2]).answer(max_size(row));
    }
    size_of(sizes, &nodes[0..], 0, NestingLevel::new()).answer(max_size(row))
}

// The size in a row of a tree that is one code.
fn code_size(row: u64, kind: u64) -> Result<Option<u64>, Refusal>
    ensures { result ≡ sized_in row (node (primitive kind) end end) }
{
    if ROWS <= row {
        return Err(Refusal::NoSuchRow);
    }
    Ok(primitive_size(row, kind))
}

// The size of the tree in a sheet in a row.
pub fn size(words: &[u64], names: &[u8], row: u64) -> Result<Option<u64>, Refusal>
    ensures { result ≡ size_answer row words.now names.now }
{
    let found = check(words, names)?;
    match found {
        Found::Code(_, kind) => code_size(row, kind),
        Found::Nodes(first, _) => nodes_size(row, &words[first..]),
    }
}

fn compare_sheets(aw: &[u64], an: &[u8], bw: &[u64], bn: &[u8], all: bool) -> Result<bool, Refusal>
    ensures { result ≡ compare_answer all aw.now an.now bw.now bn.now }
{
    let found = check_both(aw, an, bw, bn)?;
    match found {
        FoundBoth::Codes(k, j) => Ok(equivalent_kinds(k, j)),
        FoundBoth::Nodes(f, n, g, m) => {
            let top = NestingLevel::new();
            let same = compare_fields(&aw[f..], &an[0..], 0, n, &bw[g..], &bn[0..], 0, m, top, all);
            Ok(same)
        }
    }
}

// Whether the trees in two sheets match, by levels or with `all` fields. Two codes are told before the check of both sheets, whose
// answer goes through memory.
pub fn compare_encodings(
    aw: &[u64],
    an: &[u8],
    bw: &[u64],
    bn: &[u8],
    all: bool,
) -> Result<bool, Refusal>
    ensures { result ≡ compare_answer all aw.now an.now bw.now bn.now }
{
    if let Some(k) = code_alone(aw) {
        if let Some(j) = code_alone(bw) {
            return Ok(equivalent_kinds(k, j));
        }
    }
    compare_sheets(&aw[0..], &an[0..], &bw[0..], &bn[0..], all)
}

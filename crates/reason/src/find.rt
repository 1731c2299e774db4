// The first difference of two trees, in the order of helper.rs, `compare_encodings`.
ghost use Rattle.std.specs.Prelude.{ℕ, ◌+◌, ◌-◌, ◌≤◌, ◌<◌, ◌≡◌, true, false, List, [], length};
ghost use Rattle.kinds.specs.Byte.{same_bytes};
ghost use Rattle.kinds.specs.Sheet.{kind_at, first_at, second_at, count_at, label_at, is_container_kind, trees};
ghost use Rattle.kinds.specs.Walk.{NodeAt, TreesAt, KindAndName, KindsAndNames};
ghost use Rattle.kinds.specs.declared.NestingLevel.TheVariants.{Within};
ghost use Rattle.reason.specs.Reason.{items, own_difference};
ghost use Rattle.reason.specs.Spot.{spotted, items_spot, name_at, Finds, CountsAre};

use helper::{level_after, level_for, shown_count};
use kinds::{
    ARRAY, BIT_FIELD, NestingLevel, PRIMITIVES, TYPED_BIT_FIELD, equivalent_kinds, is_container,
};

// What of two nodes differs.
#[derive(Clone, Copy)]
pub(crate) enum Aspect {
    Kind,
    Size,
    Offset,
    Length,
    Name,
    Count,
}

// The first difference: the words at which the nodes that differ begin in the first tree and in the second, what of them differs, and the number of
// each side; a name has its length.
#[derive(Clone, Copy)]
pub(crate) struct FirstDifference {
    pub(crate) at: usize,
    pub(crate) bt: usize,
    pub(crate) aspect: Aspect,
    pub(crate) k: u64,
    pub(crate) j: u64,
}

// That the nodes at `at` and `bt` differ, in this and by these numbers.
fn found(at: usize, bt: usize, aspect: Aspect, k: u64, j: u64) -> Option<FirstDifference>
    ensures { result ≡ Some (record { at = at; bt = bt; aspect = aspect; k = k; j = j }) }
{
    Some(FirstDifference {
        at,
        bt,
        aspect,
        k,
        j,
    })
}

// How the counts of two containers' fields compare, where the fields are compared at all.
#[derive(Clone, Copy)]
enum Counts {
    NotCompared,
    Unequal(u64, u64),
    Equal,
}

// Whether the names of two containers are the same bytes. Private here as in helper, since it asks more than a public function may.
fn same_name(a: &[u64], an: &[u8], at: usize, b: &[u64], bn: &[u8], bt: usize) -> bool
    requires at_in_bounds { (at + 4 ≤ length a.now) × (bt + 4 ≤ length b.now) }
    requires names_in_bounds { (first_at a.now at + second_at a.now at ≤ length an.now) × (first_at b.now bt + second_at b.now bt ≤ length bn.now) }
    ensures { result ≡ same_bytes (name_at an.now a.now at) (name_at bn.now b.now bt) }
{
    let af = a[at + 1] as usize;
    let ae = af + a[at + 2] as usize;
    let bf = b[bt + 1] as usize;
    let be = bf + b[bt + 2] as usize;
    an[af..ae] == bn[bf..be]
}

// What of the numbers of two nodes of one kind, which is neither a primitive's nor a container's, differs first.
fn number_difference(a: &[u64], at: usize, b: &[u64], bt: usize) -> Option<FirstDifference>
    requires node_at { NodeAt a.now at × NodeAt b.now bt × (kind_at b.now bt ≡ kind_at a.now at) }
    requires bound { (24 ≤ kind_at a.now at) × (kind_at a.now at ≤ 31) × (is_container_kind (kind_at a.now at) ≡ false) }
    ensures { (an bn : List ℕ) → Finds an a.now at 1 bn b.now bt 1 (spotted at (own_difference (label_at an a.now at) (label_at bn b.now bt))) result }
{
    let kind = a[at];
    let k = a[at + 1];
    let j = b[bt + 1];
    if kind <= TYPED_BIT_FIELD {
        let n = a[at + 2];
        let m = b[bt + 2];
        if n != m {
            return found(at, bt, Aspect::Size, n, m);
        }
        if kind == BIT_FIELD {
            return None;
        }
        if k != j {
            return found(at, bt, Aspect::Offset, k, j);
        }
        return None;
    }
    if kind != ARRAY {
        return None;
    }
    if k != j {
        return found(at, bt, Aspect::Length, k, j);
    }
    None
}

// What of two nodes, their children aside, differs first.
fn own_difference(
    a: &[u64],
    an: &[u8],
    at: usize,
    b: &[u64],
    bn: &[u8],
    bt: usize,
) -> Option<FirstDifference>
    requires node_at { NodeAt a.now at × NodeAt b.now bt }
    requires kind_and_name { KindAndName a.now (length an.now) at × KindAndName b.now (length bn.now) bt }
    ensures { Finds an.now a.now at 1 bn.now b.now bt 1 (spotted at (own_difference (label_at an.now a.now at) (label_at bn.now b.now bt))) result }
{
    let kind = a[at];
    let other = b[bt];
    if !equivalent_kinds(kind, other) {
        return found(at, bt, Aspect::Kind, kind, other);
    }
    if kind < PRIMITIVES {
        return None;
    }
    if !is_container(kind) {
        return number_difference(a, at, b, bt);
    }
    if same_name(a, an, at, b, bn, bt) {
        return None;
    }
    found(at, bt, Aspect::Name, a[at + 2], b[bt + 2])
}

// How many nodes the subtree at `at` has. Most nodes are codes, and asking for the kind first does not wait for the count.
pub(crate) fn subtree(nodes: &[u64], at: usize) -> usize
    requires { NodeAt nodes.now at }
    ensures { result ≡ count_at nodes.now at }
{
    if nodes[at] < TYPED_BIT_FIELD {
        return 1;
    }
    nodes[at + 3] as usize
}

// How many trees the `n` nodes from `from` on are.
fn count_items(nodes: &[u64], from: usize, n: usize) -> u64
    requires { TreesAt nodes.now from n }
    ensures { result ≡ items (trees [] nodes.now n from) }
{
    let mut at = from;
    let mut left = n;
    let mut count = 0;
    // `at` moves by a node's count, which is no step of an iterator
    while 0 < left {
        let c = subtree(nodes, at);
        at += 4 * c;
        left -= c;
        count += 1;
    }
    count
}

// How the counts of the fields of two containers at a level compare.
fn compare_counts(a: &[u64], at: usize, b: &[u64], bt: usize, level: NestingLevel) -> Counts
    requires { NodeAt a.now at × NodeAt b.now bt × (is_container_kind (kind_at a.now at) ≡ true) }
    ensures { (s t : List ℕ) → CountsAre s a.now at t b.now bt level result }
{
    let n = shown_count(level, a[at + 3] as usize - 1);
    if n == 0 {
        return Counts::NotCompared;
    }
    let m = b[bt + 3] as usize - 1;
    if m == 0 {
        return Counts::NotCompared;
    }
    let k = count_items(a, at + 4, n);
    let j = count_items(b, bt + 4, m);
    if k == j {
        return Counts::Equal;
    }
    Counts::Unequal(k, j)
}

// The first difference of the items of two containers, of `c` nodes from `at` on and of `d` nodes from `bt` on, where both are compared.
#[cycle(first_difference_items_difference)]
fn items_difference(
    a: &[u64],
    an: &[u8],
    at: usize,
    c: usize,
    b: &[u64],
    bn: &[u8],
    bt: usize,
    d: usize,
    all: bool,
) -> Option<FirstDifference>
    requires c_nonzero { (0 < c) × (0 < d) × TreesAt a.now (at + 4) (c - 1) × TreesAt b.now (bt + 4) (d - 1) }
    requires kinds_and_names { KindsAndNames a.now (length an.now) (at + 4) (c - 1) × KindsAndNames b.now (length bn.now) (bt + 4) (d - 1) }
    ensures { Finds an.now a.now (at + 4) (c - 1) bn.now b.now (bt + 4) (d - 1)
        (items_spot all Within (at + 4) (trees an.now a.now (c - 1) (at + 4)) (trees bn.now b.now (d - 1) (bt + 4))) result }
{
    let inner = NestingLevel::Within;
    first_difference(
        &a[0..],
        &an[0..],
        at + 4,
        c - 1,
        &b[0..],
        &bn[0..],
        bt + 4,
        d - 1,
        inner,
        all,
    )
}

// The first difference of the trees of the `left` nodes from `at` on and those of the `more` nodes from `bt` on, up to where either ends. A node with
// one child is followed by that child, and a container with nothing behind it by its fields, so only other containers need a call.
// `at` and `bt` move by their nodes' counts, which is no step of an iterator.
#[cycle(first_difference_items_difference)]
pub(crate) fn first_difference(
    a: &[u64],
    an: &[u8],
    mut at: usize,
    mut left: usize,
    b: &[u64],
    bn: &[u8],
    mut bt: usize,
    mut more: usize,
    mut level: NestingLevel,
    all: bool,
) -> Option<FirstDifference>
    requires trees_at { TreesAt a.now at left × TreesAt b.now bt more }
    requires kinds_and_names { KindsAndNames a.now (length an.now) at left × KindsAndNames b.now (length bn.now) bt more }
    ensures { Finds an.now a.now at left bn.now b.now bt more
        (items_spot all level at (trees an.now a.now left at) (trees bn.now b.now more bt)) result }
{
    let mut here = level;
    while 0 < left {
        if more == 0 {
            return None;
        }
        if let Some(d) = own_difference(a, an, at, b, bn, bt) {
            return Some(d);
        }
        let mut c = 1;
        let mut d = 1;
        if is_container(a[at]) {
            c = a[at + 3] as usize;
            d = b[bt + 3] as usize;
            match compare_counts(a, at, b, bt, level_for(all, here)) {
                Counts::NotCompared => {}
                Counts::Unequal(k, j) => return found(at, bt, Aspect::Count, k, j),
                Counts::Equal => {
                    if left == c {
                        at += 4;
                        left = c - 1;
                        bt += 4;
                        more = d - 1;
                        level = NestingLevel::Within;
                        here = NestingLevel::Within;
                        continue;
                    }
                    let below = items_difference(a, an, at, c, b, bn, bt, d, all);
                    if let Some(d) = below {
                        return Some(d);
                    }
                }
            }
        }
        here = level_after(all, a[at], level, here);
        at += 4 * c;
        left -= c;
        bt += 4 * d;
        more -= d;
    }
    None
}

// The longer way, for any tree: a pass that finds whether there is a layout, and a walk that calls itself for what is nested and counts up to 2^64 - 1.
ghost use Rattle.std.specs.Prelude.{ℕ, ◌+◌, ◌-◌, ◌*◌, ◌%◌, ◌≤◌, ◌<◌, max, ◌≡◌, true, false, cond, ◌&&◌, List, ◌++◌, eqb, length, get_or, set, drop};
ghost use Rattle.kinds.specs.Primitive.{Widths};
ghost use Rattle.kinds.specs.Sheet.{count_at};
ghost use Rattle.kinds.specs.Walk.{NodeAt};
ghost use Rattle.helper.specs.Measure.{RowOf, fit, plus_measured, larger_measured};
ghost use Rattle.layout.specs.Answer.{list_after};
ghost use Rattle.layout.specs.Layout.{next_multiple, no_room};
ghost use Rattle.layout.specs.Placing.{next_measured, placed_of, stored_of, is_bytes, is_plain, is_simple, simple_placed, plain_extent, begin_measured, with_field, closed, held_by, ended_by, Zeros, Laid};
ghost use Rattle.layout.specs.Placing.{within_limit, finished, fitted_at, answer_at, list_at, list_for};
ghost use Rattle.layout.specs.Walking.{Sought};

use super::find::{Found, find};
use super::tree::Tree;
use super::{LaidOut, STRING, part_kind};
use helper::Measured;
use kinds::{ARRAY, ATOMIC, POINTER, PRIMITIVES, Refusal, STRUCT, UNION};

// What trees take: the end of the last, the largest alignment, and whether each offset below them is below 2^64.
#[derive(Clone, Copy)]
pub(crate) struct Placed {
    pub(crate) bytes: Measured,
    pub(crate) alignment: u8,
    pub(crate) fits: bool,
}

// Alignments are powers of two, for which a mask is enough.
fn remainder(n: u64, alignment: u8) -> u64
    requires { 0 < alignment }
    ensures { result ≡ n % alignment }
{
    let a = u64::from(alignment);
    let mask = a - 1;
    if a & mask == 0 {
        return n & mask;
    }
    n % a
}

// The next multiple of an alignment, of one of the last numbers below 2^64.
fn rounded_last(n: u64, alignment: u8) -> Measured
    requires { 0 < alignment }
    ensures { result ≡ fit (next_multiple alignment n) }
{
    let over = remainder(n, alignment);
    if over == 0 {
        return Measured::Bytes(n);
    }
    let padding = u64::from(alignment) - over;
    if n <= 18446744073709551615 - padding {
        return Measured::Bytes(n + padding);
    }
    Measured::TooLarge
}

// The next multiple of an alignment: by a sum and no branch, wherever that fits.
fn rounded_up(n: u64, alignment: u8) -> Measured
    requires { 0 < alignment }
    ensures { result ≡ fit (next_multiple alignment n) }
{
    let most = u64::from(alignment) - 1;
    if n <= 18446744073709551615 - most {
        let up = n + most;
        return Measured::Bytes(up - remainder(up, alignment));
    }
    rounded_last(n, alignment)
}

fn next_multiple(n: Measured, alignment: u8) -> Measured
    requires { 0 < alignment }
    ensures { result ≡ next_measured alignment n }
{
    match n {
        Measured::Nothing => Measured::Nothing,
        Measured::TooLarge => Measured::TooLarge,
        Measured::Bytes(b) => rounded_up(b, alignment),
    }
}

// A kind whose node holds nothing inside: a primitive, a bitfield, a pointer, None.
#[tactic(auto, unfolding(crate::specs::Placing::is_plain))]
fn is_plain(kind: u64) -> bool
    ensures { result ≡ is_plain kind }
{
    kind < ATOMIC || UNION < kind
}

// What a node of such a kind takes, by the row of sizes.
fn plain(sizes: &[u8; 24], kind: u64) -> Placed
    ensures { result ≡ placed_of (plain_extent sizes.now kind) true }
{
    if kind < PRIMITIVES {
        let k = kind as usize;
        let bytes = Measured::Bytes(u64::from(sizes[k]));
        let alignment = sizes[part_kind(k)].max(1);
        return Placed {
            bytes,
            alignment,
            fits: true,
        };
    }
    if kind == POINTER {
        let bytes = Measured::Bytes(u64::from(sizes[STRING]));
        let alignment = sizes[STRING].max(1);
        return Placed {
            bytes,
            alignment,
            fits: true,
        };
    }
    Placed::new()
}

// Whether nothing below the node holds anything inside: such a node, or an atomic or an array of one.
fn is_simple(nodes: &[u64], at: usize) -> bool
    requires { NodeAt nodes.now at }
    ensures { result ≡ is_simple nodes.now at }
{
    let kind = nodes[at];
    is_plain(kind) || (kind <= ARRAY && is_plain(nodes[at + 4]))
}

// What it takes.
fn simple(sizes: &[u8; 24], nodes: &[u64], at: usize) -> Placed
    requires { NodeAt nodes.now at × (is_simple nodes.now at ≡ true) }
    ensures { result ≡ simple_placed sizes.now nodes.now at }
{
    let kind = nodes[at];
    if is_plain(kind) {
        return plain(sizes, kind);
    }
    plain(sizes, nodes[at + 4]).held_by(kind, nodes[at + 1])
}

impl Placed {
    // No room.
    fn new() -> Self
        ensures { result ≡ placed_of no_room true }
    {
        Placed {
            bytes: Measured::Bytes(0),
            alignment: 1,
            fits: true,
        }
    }

    // What a container takes, its size rounded up to its alignment.
    fn closed(self) -> Self
        requires { 0 < self.alignment }
        ensures { result ≡ closed self }
    {
        let alignment = self.alignment;
        let end = self.bytes;
        Placed {
            bytes: next_multiple(end, alignment),
            alignment,
            fits: self.fits,
        }
    }

    // What an atomic or an array makes of what it holds.
    fn held_by(self, kind: u64, n: u64) -> Self
        ensures { result ≡ held_by kind n self }
    {
        if kind == ARRAY {
            let item = self.bytes;
            return Placed {
                bytes: item.times(n),
                alignment: self.alignment,
                fits: self.fits,
            };
        }
        self
    }

    // What a node makes of what its children take together.
    fn ended_by(self, kind: u64, n: u64) -> Self
        requires { 0 < self.alignment }
        ensures { result ≡ ended_by kind n self }
    {
        if kind < STRUCT {
            return self.held_by(kind, n);
        }
        self.closed()
    }
}

// Where a field begins in a container of this kind, the last one ending at `end`.
fn begin_of(kind: u64, end: Measured, alignment: u8) -> Measured
    requires { 0 < alignment }
    ensures { result ≡ begin_measured kind end alignment }
{
    if kind == STRUCT {
        return next_multiple(end, alignment);
    }
    Measured::Bytes(0)
}

// Where the container ends with the field.
fn end_of(kind: u64, end: Measured, begin: Measured, bytes: Measured) -> Measured
    ensures { result ≡ cond (eqb kind 29) (plus_measured begin bytes) (larger_measured end bytes) }
{
    if kind == STRUCT {
        return begin.plus(bytes);
    }
    end.larger(bytes)
}

// A number as it stands in the list; 0 stands for one that does not fit.
fn stored(n: Measured) -> u64
    ensures { result ≡ stored_of n }
{
    match n {
        Measured::Nothing => 0,
        Measured::Bytes(b) => b,
        Measured::TooLarge => 0,
    }
}

fn is_bytes(n: Measured) -> bool
    ensures { result ≡ is_bytes n }
{
    match n {
        Measured::Nothing => false,
        Measured::Bytes(_) => true,
        Measured::TooLarge => false,
    }
}

// What a container takes with node `i` as a field more, whose number is put into the list.
fn add_field(run: Placed, kind: u64, x: Placed, offsets: &mut [u64], i: usize) -> Placed
    requires { (0 < x.alignment) × (i < length offsets.old) }
    ensures takes { result ≡ with_field kind run x }
    ensures list { offsets.new ≡ set offsets.old i (stored_of (begin_measured kind run.bytes x.alignment)) }
{
    let end = run.bytes;
    let bytes = x.bytes;
    let begin = begin_of(kind, end, x.alignment);
    let next = end_of(kind, end, begin, bytes);
    let alignment = run.alignment.max(x.alignment);
    let fits = run.fits & x.fits & is_bytes(begin);
    offsets[i] = stored(begin);
    Placed {
        bytes: next,
        alignment,
        fits,
    }
}

// What node `i` takes. The numbers of the nodes below it are put into the list, which has 0 there.
pub(crate) fn place(sizes: &[u8; 24], nodes: &[u64], i: usize, offsets: &mut [u64]) -> Placed
    requires { NodeAt nodes.now (4 * i) × (i + count_at nodes.now (4 * i) ≤ length offsets.old) × Zeros offsets.old (i + 1) (count_at nodes.now (4 * i) - 1) }
    ensures { Laid sizes.now nodes.now i offsets.old offsets.new result }
{
    let at = 4 * i;
    if is_simple(nodes, at) {
        return simple(sizes, nodes, at);
    }
    let kind = nodes[at];
    let mut j = i + 1;
    let mut left = (nodes[at + 3] as usize) - 1;
    let mut run = Placed::new();
    // the cursor moves by a node's count, which is no step of an iterator
    while 0 < left {
        let x = if is_simple(nodes, 4 * j) {
            simple(sizes, nodes, 4 * j)
        } else {
            place(sizes, nodes, j, offsets)
        };
        // one call for both, so that the compiler puts it into the loop
        run = add_field(run, kind, x, offsets, j);
        // read only here, so that nothing of it is kept over the call
        let count = nodes[4 * j + 3] as usize;
        j += count;
        left -= count;
    }
    run.ended_by(kind, nodes[4 * i + 1])
}

// A number that none of them is above: all their bits together, for which the compiler takes several at a time.
fn joined(numbers: &[u64]) -> u64
    ensures { (i : ℕ) → get_or numbers.now i 0 ≤ result }
{
    let mut all = 0;
    for n in numbers {
        all |= *n;
    }
    all
}

// Whether no number is above the limit. Where the limit is the largest number there is nothing to look for.
fn within_limit(numbers: &[u64], limit: u64) -> bool
    ensures { result ≡ within_limit limit numbers.now }
{
    if limit == u64::MAX || joined(numbers) <= limit {
        return true;
    }
    numbers.iter().all(|n| *n <= limit)
}

fn copy_numbers(numbers: &[u64], offsets: &mut [u64])
    requires { length numbers.now ≤ length offsets.old }
    ensures { offsets.new ≡ numbers.now ++ drop (length numbers.now) offsets.old }
{
    for i in 0..numbers.len() {
        offsets[i] = numbers[i];
    }
}

// The answer for a whole tree: its numbers are written where the size and each of them is at most `limit`.
pub(crate) fn finish(whole: Placed, numbers: &[u64], limit: u64, offsets: &mut [u64]) -> LaidOut
    requires { length numbers.now ≤ length offsets.old }
    ensures answers { result ≡ finished limit whole numbers.now }
    ensures fills { offsets.new ≡ list_after (finished limit whole numbers.now) numbers.now offsets.old }
{
    if !whole.fits {
        return Err(Refusal::SizeTooLarge);
    }
    let end = whole.bytes;
    match end {
        Measured::Nothing => Err(Refusal::SizeTooLarge),
        Measured::TooLarge => Err(Refusal::SizeTooLarge),
        Measured::Bytes(bytes) => {
            if limit < bytes {
                return Err(Refusal::SizeTooLarge);
            }
            if !within_limit(numbers, limit) {
                return Err(Refusal::SizeTooLarge);
            }
            copy_numbers(numbers, offsets);
            Ok(Some((bytes, u64::from(whole.alignment))))
        }
    }
}

// The layout of a tree in which each laid-out node has a size. Nothing is written before it is known that there is a layout: the numbers are gathered in
// another list.
fn lay_out(tree: Tree, offsets: &mut [u64]) -> LaidOut
    requires { tree.n ≤ length offsets.old }
    ensures answers { (m : Widths) → RowOf tree.entry.sizes.now m → (s : List ℕ) → result ≡ fitted_at m s tree.entry.nodes.now tree.entry.limit }
    ensures fills { (m : Widths) → RowOf tree.entry.sizes.now m → (s : List ℕ) → offsets.new ≡ list_at m s tree.entry.nodes.now tree.entry.limit offsets.old }
{
    let n = tree.n;
    let mut numbers = [0u64; 2001];
    let whole = place(tree.sizes, tree.nodes, 0, &mut numbers[0..n]);
    finish(whole, &numbers[0..n], tree.limit, offsets)
}

// The layout of any tree, in two passes: whether there is one, which is known of the nodes before `from`, then its numbers.
pub(crate) fn lay_out_any(tree: Tree, from: usize, offsets: &mut [u64]) -> LaidOut
    requires { (tree.n ≤ length offsets.old) × Sought tree.sizes.now tree.nodes.now tree.n from false false }
    ensures answers { (m : Widths) → RowOf tree.entry.sizes.now m → (s : List ℕ) → result ≡ answer_at m s tree.entry.nodes.now tree.entry.limit }
    ensures fills { (m : Widths) → RowOf tree.entry.sizes.now m → (s : List ℕ) → offsets.new ≡ list_for m s tree.entry.nodes.now tree.entry.limit offsets.old }
{
    match find(tree.sizes, tree.nodes, from, tree.n) {
        Found::BitField(i) => Err(Refusal::BitFieldInLayout(i)),
        Found::Nothing => Ok(None),
        Found::Sized => lay_out(tree, offsets),
    }
}

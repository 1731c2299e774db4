// The quick walk: a tree that takes little room, in one pass that makes no calls for what is nested. It stops at a node that it does not lay out,
// as a bitfield or one that has no size, and the tree is left to the longer way.
ghost use Rattle.std.specs.Prelude.{ℕ, ◌*◌, ◌≤◌, ◌<◌, ◌≡◌, true, false, List, length, IfSome, IfOk, IfErr};
ghost use Rattle.kinds.specs.Primitive.{Widths};
ghost use Rattle.kinds.specs.Sheet.{count_at, trees};
ghost use Rattle.kinds.specs.Walk.{NodeAt};
ghost use Rattle.helper.specs.Measure.{RowOf};
ghost use Rattle.layout.specs.Answer.{layout_in, list_in};
ghost use Rattle.layout.specs.Layout.{next_multiple};
ghost use Rattle.layout.specs.Placing.{Zeros, answer_at, list_for};
ghost use Rattle.layout.specs.Walking.{Sought, IsPower, Powers, most, PlainRoom, SimpleRoom, EndedRoom, AddedRoom, Enters, Walking, Settled};

use super::place::{Placed, finish, lay_out_any};
use super::tree::Tree;
use super::{LaidOut, STRING, part_kind};
use helper::{Measured, max_size};
use kinds::{ARRAY, ATOMIC, POINTER, PRIMITIVES, ROWS, Refusal, SIZES, STRUCT, UNION};

// The largest end that the quick walk goes by, and the largest count of an array's items.
const MOST: u64 = 2147483647;

// What trees take where all of it is small.
#[derive(Clone, Copy)]
struct Room {
    bytes: u64,
    alignment: u64,
}

// Where the quick walk stands: in which container, of what kind and ending before which node, at which node, and what the fields before take.
#[derive(Clone, Copy)]
struct Open {
    container: usize,
    kind: u64,
    stop: usize,
    next: usize,
    run: Room,
}

// The next multiple of a power of two.
fn power_multiple(n: u64, alignment: u64) -> u64
    requires { IsPower alignment × (n ≤ most * most) }
    ensures { result ≡ next_multiple alignment n }
{
    let mask = alignment - 1;
    let up = n + mask;
    up - (up & mask)
}

impl Room {
    // No room.
    fn new() -> Self
        ensures { (result.bytes ≡ 0) × (result.alignment ≡ 1) }
    {
        Room {
            bytes: 0,
            alignment: 1,
        }
    }
}

// What a code takes that has a size.
fn code_room(sizes: &[u8; 24], k: usize) -> Option<Room>
    requires { Powers sizes.now × (k < 24) }
    ensures { IfSome result (PlainRoom sizes.now k) }
{
    let bytes = u64::from(sizes[k]);
    if bytes == 0 {
        return None;
    }
    Some(Room {
        bytes,
        alignment: u64::from(sizes[part_kind(k)]),
    })
}

// What a node takes that is such a code or a pointer.
fn plain_room(sizes: &[u8; 24], kind: u64) -> Option<Room>
    requires { Powers sizes.now }
    ensures { IfSome result (PlainRoom sizes.now kind) }
{
    if kind < PRIMITIVES {
        return code_room(sizes, kind as usize);
    }
    if kind == POINTER {
        return code_room(sizes, STRING);
    }
    None
}

// What an array of `n` takes.
fn array_room(n: u64, item: Room) -> Option<Room>
    requires { IsPower item.alignment × (item.bytes ≤ most) }
    ensures { IfSome result (EndedRoom 28 n item) }
{
    if MOST < n {
        return None;
    }
    Some(Room {
        bytes: n * item.bytes,
        alignment: item.alignment,
    })
}

// What the node takes, if it is such a one or an atomic or an array of one.
fn simple_room(sizes: &[u8; 24], nodes: &[u64], at: usize) -> Option<Room>
    requires { Powers sizes.now × NodeAt nodes.now at }
    ensures { IfSome result (SimpleRoom sizes.now nodes.now at) }
{
    let kind = nodes[at];
    if kind < ATOMIC {
        return plain_room(sizes, kind);
    }
    if ARRAY < kind {
        return None;
    }
    let item = plain_room(sizes, nodes[at + 4])?;
    if kind == ARRAY {
        return array_room(nodes[at + 1], item);
    }
    Some(item)
}

// Whether the node is an array, a struct, or a union that has members.
fn enters(nodes: &[u64], at: usize) -> bool
    requires { NodeAt nodes.now at }
    ensures { result ≡ true → Enters nodes.now at }
{
    let kind = nodes[at];
    kind == ARRAY || kind == STRUCT || (kind == UNION && 1 < nodes[at + 3])
}

// What a node takes whose children take `run` together.
fn ended_room(kind: u64, n: u64, run: Room) -> Option<Room>
    requires { (28 ≤ kind) × (kind ≤ 30) × IsPower run.alignment × (run.bytes ≤ most) }
    ensures { IfSome result (EndedRoom kind n run) }
{
    if kind == ARRAY {
        return array_room(n, run);
    }
    Some(Room {
        bytes: power_multiple(run.bytes, run.alignment),
        alignment: run.alignment,
    })
}

// The room, unless it ends too far for the quick walk.
fn small_room(bytes: u64, alignment: u64) -> Option<Room>
    ensures { IfSome result (λ x. (x.alignment ≡ alignment) × (x.bytes ≡ bytes) × (bytes ≤ most)) }
{
    if MOST < bytes {
        return None;
    }
    Some(Room { bytes, alignment })
}

// What a container takes with node `j` as a field more, whose number is put into the list.
fn add_room(kind: u64, run: Room, x: Room, numbers: &mut [u64], j: usize) -> Option<Room>
    requires { IsPower run.alignment × (run.bytes ≤ most) × IsPower x.alignment × (x.bytes ≤ most * most) × (j < length numbers.old) }
    ensures { IfSome result (AddedRoom kind run x numbers.old numbers.new j) }
{
    let alignment = run.alignment.max(x.alignment);
    if kind == STRUCT {
        let begin = power_multiple(run.bytes, x.alignment);
        numbers[j] = begin;
        return small_room(begin + x.bytes, alignment);
    }
    numbers[j] = 0;
    small_room(run.bytes.max(x.bytes), alignment)
}

// The container at which the walk stands is entered: the word in its place tells of the one around it.
fn enter(sizes: &[u8; 24], nodes: &[u64], o: Open, numbers: &mut [u64]) -> Open
    requires { Walking sizes.now nodes.now numbers.old o × (o.next < o.stop) × Enters nodes.now (4 * o.next) }
    ensures { Walking sizes.now nodes.now numbers.new result × (o.next < result.next) }
{
    let j = o.next;
    let run = o.run;
    numbers[j] = (256 * run.bytes + run.alignment) * 2048 + o.container as u64;
    Open {
        container: j,
        kind: nodes[4 * j],
        stop: j + nodes[4 * j + 3] as usize,
        next: j + 1,
        run: Room::new(),
    }
}

// The container in which the walk stands has come to its end, and is a field more of the one around it.
fn close(sizes: &[u8; 24], nodes: &[u64], o: Open, numbers: &mut [u64]) -> Option<Open>
    requires { Walking sizes.now nodes.now numbers.old o × (o.stop ≤ o.next) × (0 < o.container) }
    ensures { IfSome result (λ r. Walking sizes.now nodes.now numbers.new r × (r.next ≡ o.next) × (r.container < o.container)) }
{
    let c = o.container;
    let x = ended_room(o.kind, nodes[4 * c + 1], o.run)?;
    let word = numbers[c];
    let i = (word % 2048) as usize;
    let run = Room {
        bytes: word / 524288,
        alignment: word / 2048 % 256,
    };
    let kind = nodes[4 * i];
    Some(Open {
        container: i,
        kind,
        stop: i + nodes[4 * i + 3] as usize,
        next: o.next,
        run: add_room(kind, run, x, numbers, c)?,
    })
}

// One node more.
fn step(sizes: &[u8; 24], nodes: &[u64], o: Open, numbers: &mut [u64]) -> Option<Open>
    requires { Powers sizes.now × Walking sizes.now nodes.now numbers.old o × (o.next < o.stop) }
    ensures { IfSome result (λ r. Walking sizes.now nodes.now numbers.new r × (o.next < r.next)) }
{
    let j = o.next;
    let kind = nodes[4 * j];
    if kind < PRIMITIVES {
        return Some(Open {
            next: j + 1,
            run: add_room(o.kind, o.run, code_room(sizes, kind as usize)?, numbers, j)?,
            ..o
        });
    }
    let Some(x) = simple_room(sizes, nodes, 4 * j) else {
        if enters(nodes, 4 * j) {
            return Some(enter(sizes, nodes, o, numbers));
        }
        return None;
    };
    Some(Open {
        next: j + nodes[4 * j + 3] as usize,
        run: add_room(o.kind, o.run, x, numbers, j)?,
        ..o
    })
}

// What the whole tree takes, whose root is entered, in one pass that makes no calls for what is nested; or else up to which node it is known that none is a
// bitfield or has no size.
fn walk(tree: Tree, numbers: &mut [u64]) -> Result<Room, usize>
    requires { Enters tree.nodes.now 0 × (length numbers.old ≡ tree.n) × Zeros numbers.old 0 tree.n }
    ensures settles { IfOk result (Settled tree.entry.sizes.now tree.entry.nodes.now numbers.new) }
    ensures passed { IfErr result (λ from. Sought tree.entry.sizes.now tree.entry.nodes.now tree.entry.n from false false) }
{
    let sizes = tree.sizes;
    let nodes = tree.nodes;
    let mut o = Open {
        container: 0,
        kind: nodes[0],
        stop: tree.n,
        next: 1,
        run: Room::new(),
    };
    // the walk enters and leaves containers, which is no step of an iterator
    loop {
        let from = o.next;
        if from < o.stop {
            o = step(sizes, nodes, o, numbers).ok_or(from)?;
        } else if o.container == 0 {
            return ended_room(o.kind, nodes[1], o.run).ok_or(0);
        } else {
            o = close(sizes, nodes, o, numbers).ok_or(from)?;
        }
    }
}

// What the whole tree takes, where it is small, each laid-out node has a size and none is a bitfield; the numbers of its nodes are put into the list. Or else
// up to which node that is known.
fn quick_room(tree: Tree, numbers: &mut [u64]) -> Result<Room, usize>
    requires { (length numbers.old ≡ tree.n) × Zeros numbers.old 0 tree.n }
    ensures settles { IfOk result (Settled tree.entry.sizes.now tree.entry.nodes.now numbers.new) }
    ensures passed { IfErr result (λ from. Sought tree.entry.sizes.now tree.entry.nodes.now tree.entry.n from false false) }
{
    if enters(tree.nodes, 0) {
        return walk(tree, numbers);
    }
    simple_room(tree.sizes, tree.nodes, 0).ok_or(0)
}

// The layout of any tree, by the quick walk where that comes to the end. The numbers are gathered in another list, which has 0 throughout.
fn lay_out_quick(tree: Tree, numbers: &mut [u64], offsets: &mut [u64]) -> LaidOut
    requires { (tree.n ≤ length offsets.old) × (length numbers.old ≡ tree.n) × Zeros numbers.old 0 tree.n }
    ensures answers { (m : Widths) → RowOf tree.entry.sizes.now m → (s : List ℕ) → result ≡ answer_at m s tree.entry.nodes.now tree.entry.limit }
    ensures fills { (m : Widths) → RowOf tree.entry.sizes.now m → (s : List ℕ) → offsets.new ≡ list_for m s tree.entry.nodes.now tree.entry.limit offsets.old }
{
    match quick_room(tree, numbers) {
        Err(from) => lay_out_any(tree, from, offsets),
        Ok(x) => {
            let whole = Placed {
                bytes: Measured::Bytes(x.bytes),
                alignment: x.alignment as u8,
                fits: true,
            };
            finish(whole, numbers, tree.limit, offsets)
        }
    }
}

// The layout by a list of `N` numbers, of which no more is cleared than the size of the tree wants.
fn lay_out_in<const N: usize>(tree: Tree, offsets: &mut [u64]) -> LaidOut
    requires { (tree.n ≤ N) × (N ≤ 2001) × (tree.n ≤ length offsets.old) }
    ensures answers { (m : Widths) → RowOf tree.entry.sizes.now m → (s : List ℕ) → result ≡ answer_at m s tree.entry.nodes.now tree.entry.limit }
    ensures fills { (m : Widths) → RowOf tree.entry.sizes.now m → (s : List ℕ) → offsets.new ≡ list_for m s tree.entry.nodes.now tree.entry.limit offsets.old }
{
    let mut numbers = [0u64; N];
    let numbers = &mut numbers[..];
    lay_out_quick(tree, &mut numbers[0..tree.n], offsets)
}

// The layout of a tree.
fn lay_out_nodes(tree: Tree, offsets: &mut [u64]) -> LaidOut
    requires { tree.n ≤ length offsets.old }
    ensures answers { (m : Widths) → RowOf tree.entry.sizes.now m → (s : List ℕ) → result ≡ answer_at m s tree.entry.nodes.now tree.entry.limit }
    ensures fills { (m : Widths) → RowOf tree.entry.sizes.now m → (s : List ℕ) → offsets.new ≡ list_for m s tree.entry.nodes.now tree.entry.limit offsets.old }
{
    match tree.n {
        ..=32 => lay_out_in::<32>(tree, offsets),
        ..=128 => lay_out_in::<128>(tree, offsets),
        ..=512 => lay_out_in::<512>(tree, offsets),
        ..=1024 => lay_out_in::<1024>(tree, offsets),
        _ => lay_out_in::<2001>(tree, offsets),
    }
}

// The layout in a row of the tree of the nodes.
pub(crate) fn nodes_layout(row: u64, nodes: &[u64], n: usize, offsets: &mut [u64]) -> LaidOut
    requires { NodeAt nodes.now 0 × (count_at nodes.now 0 ≡ n) × (n ≤ 2001) }
    ensures answers { (s : List ℕ) → result ≡ layout_in row (length offsets.old) (trees s nodes.now n 0) }
    ensures fills { (s : List ℕ) → offsets.new ≡ list_in row (trees s nodes.now n 0) offsets.old }
{
    if ROWS <= row {
        return Err(Refusal::NoSuchRow);
    }
    if offsets.len() < n {
        return Err(Refusal::ListTooShort);
    }
    let table = SIZES;
    let sizes = &table[row as usize];
    let limit = max_size(row);
    let tree = Tree {
        sizes,
        nodes,
        n,
        limit,
    };
    lay_out_nodes(tree, offsets)
}

// Where the fields of a tree lie. All take the words of a sheet from its first node on; `offsets` is the list that `layout` fills, and `extents` the one that
// `extents` fills.
#![tactic(auto)]

ghost use Rattle.std.specs.Prelude.{◌+◌, ◌-◌, ◌*◌, max, ◌≡◌, cond, ◌&&◌, get_or};
ghost use Rattle.kinds.specs.Sheet.{kind_at, count_at, is_container_kind};
ghost use Rattle.fields.specs.Answer.{holds, points, none_of, is_laid_out, last_of, holder_of, is_field_of, is_field, extent_of, gap, is_last, ends_with, largest, hole_in, hole_after};

use kinds::{POINTER, Refusal, UNION, is_container};
use layout::LaidOut;

// A gap in a container: where it begins, and its bytes; 0 of them where there is none.
#[derive(Clone, Copy)]
pub struct Hole {
    pub begin: u64,
    pub bytes: u64,
}

fn kind_of(nodes: &[u64], i: u16) -> u64
    ensures { result ≡ kind_at nodes.now (4 * i) }
{
    lines::word_at(nodes, 4 * (i as usize))
}

// How many nodes a node's subtree has.
fn count_of(nodes: &[u64], i: u16) -> u64
    ensures { result ≡ count_at nodes.now (4 * i) }
{
    lines::word_at(nodes, 4 * (i as usize) + 3)
}

fn bytes_of(extents: &[u64], i: u16) -> u64
    ensures { result ≡ get_or extents.now (2 * i) 0 }
{
    lines::word_at(extents, 2 * (i as usize))
}

// How far node `i` stands behind node `j`.
fn behind(j: u16, i: u16) -> u64
    ensures { result ≡ i - j }
{
    u64::from(i.saturating_sub(j))
}

fn holds(nodes: &[u64], j: u16, i: u16) -> bool
    ensures { result ≡ holds nodes.now j i }
{
    if j < i {
        return behind(j, i) < count_of(nodes, j);
    }
    false
}

fn points(nodes: &[u64], j: u16, i: u16) -> bool
    ensures { result ≡ points nodes.now j i }
{
    if kind_of(nodes, j) == POINTER {
        return holds(nodes, j, i);
    }
    false
}

// Whether node `i` of a tree that has a layout is laid out.
pub fn is_laid_out(nodes: &[u64], i: u16) -> bool
    ensures { result ≡ is_laid_out nodes.now i }
{
    for j in (0..i).rev() {
        if points(nodes, j, i) {
            return false;
        }
    }
    true
}

// The node that holds node `i` directly; the node itself where there is none.
fn holder(nodes: &[u64], i: u16) -> u16
    ensures { result ≡ holder_of nodes.now i }
{
    for j in (0..i).rev() {
        if holds(nodes, j, i) {
            return j;
        }
    }
    i
}

fn is_field_of(nodes: &[u64], p: u16, j: u16) -> bool
    ensures { result ≡ is_field_of nodes.now p j }
{
    if j <= p {
        return false;
    }
    if holder(nodes, j) == p {
        return is_container(kind_of(nodes, p));
    }
    false
}

// Whether node `i` is a field of a struct or a union.
pub fn is_field(nodes: &[u64], i: u16) -> bool
    ensures { result ≡ is_field nodes.now i }
{
    is_field_of(nodes, holder(nodes, i), i)
}

// Whether node `last` is the last of what node `i` holds, or the node itself.
pub fn ends_with(nodes: &[u64], i: u16, last: u16) -> bool
    ensures { result ≡ ends_with nodes.now i last }
{
    count_of(nodes, i) == behind(i, last) + 1
}

// The size and the alignment of node `i`, or that the size is too large.
pub fn extent_of(extents: &[u64], i: u16) -> LaidOut
    ensures { result ≡ extent_of extents.now i }
{
    let alignment = lines::word_at(extents, 2 * (i as usize) + 1);
    if alignment == 0 {
        return Err(Refusal::SizeTooLarge);
    }
    Ok(Some((bytes_of(extents, i), alignment)))
}

// What lies between the end of something that begins at `offset` and `next`.
fn between(offset: u64, bytes: u64, next: u64) -> Hole
    ensures { result ≡ gap (offset + bytes) next }
{
    if next < offset {
        return Hole { begin: 0, bytes: 0 };
    }
    if next - offset <= bytes {
        return Hole { begin: 0, bytes: 0 };
    }
    Hole {
        begin: offset + bytes,
        bytes: next - offset - bytes,
    }
}

// Whether the subtrees of node `i` and of the container `p` end together.
fn is_last(nodes: &[u64], p: u16, i: u16) -> bool
    ensures { result ≡ is_last nodes.now p i }
{
    let count = count_of(nodes, p);
    let before = behind(p, i);
    if before <= count {
        return count - before <= count_of(nodes, i);
    }
    true
}

// The size of node `j`, if it is a field of `p`.
fn field_bytes(nodes: &[u64], extents: &[u64], p: u16, j: u16) -> u64
    ensures { result ≡ cond (is_field_of nodes.now p j) (get_or extents.now (2 * j) 0) 0 }
{
    if is_field_of(nodes, p, j) {
        return bytes_of(extents, j);
    }
    0
}

// The size of the largest field of `p` before node `i`.
fn largest(nodes: &[u64], extents: &[u64], p: u16, i: u16) -> u64
    ensures { result ≡ largest nodes.now extents.now p i }
{
    let mut bytes = 0;
    for j in 0..i {
        bytes = bytes.max(field_bytes(nodes, extents, p, j));
    }
    bytes
}

// The offset of the node after node `i` with what it holds; 0 beyond the end of the list.
fn next_offset(nodes: &[u64], offsets: &[u64], i: u16) -> u64
    ensures { result ≡ get_or offsets.now (i + count_at nodes.now (4 * i)) 0 }
{
    let count = count_of(nodes, i);
    if count < (offsets.len() as u64) {
        return lines::word_at(offsets, (i as usize) + (count as usize));
    }
    0
}

// Where the room of field `i` of a struct `p` ends, with the padding.
fn room_end(nodes: &[u64], offsets: &[u64], extents: &[u64], p: u16, i: u16) -> u64
    ensures { result ≡ cond (is_last nodes.now p i) (get_or extents.now (2 * p) 0) (get_or offsets.now (i + count_at nodes.now (4 * i)) 0) }
{
    if is_last(nodes, p, i) {
        return bytes_of(extents, p);
    }
    next_offset(nodes, offsets, i)
}

// The padding after node `i`, a field of the container `p`.
fn hole_in(nodes: &[u64], offsets: &[u64], extents: &[u64], p: u16, i: u16) -> Hole
    ensures { result ≡ hole_in nodes.now offsets.now extents.now p i }
{
    let bytes = bytes_of(extents, i);
    if kind_of(nodes, p) == UNION {
        if is_last(nodes, p, i) {
            let most = largest(nodes, extents, p, i).max(bytes);
            return between(0, most, bytes_of(extents, p));
        }
        return between(0, 0, 0);
    }
    between(
        lines::word_at(offsets, i as usize),
        bytes,
        room_end(nodes, offsets, extents, p, i),
    )
}

fn is_laid_out_field(nodes: &[u64], i: u16) -> bool
    ensures { result ≡ (is_field nodes.now i && is_laid_out nodes.now i) }
{
    if is_field(nodes, i) {
        return is_laid_out(nodes, i);
    }
    false
}

// The padding after node `i`; none where it is no field or is not laid out.
pub fn hole_after(nodes: &[u64], offsets: &[u64], extents: &[u64], i: u16) -> Hole
    ensures { result ≡ hole_after nodes.now offsets.now extents.now i }
{
    if is_laid_out_field(nodes, i) {
        return hole_in(nodes, offsets, extents, holder(nodes, i), i);
    }
    between(0, 0, 0)
}

// What each node of a tree takes, with what it holds.
ghost use Rattle.std.specs.Prelude.{ℕ, ◌+◌, ◌*◌, ◌≤◌, ◌≡◌, List, [], ◌∷◌, length};
ghost use Rattle.std.proofs.lemmas.List.Edits.{sets};
ghost use Rattle.kinds.specs.Primitive.{Widths};
ghost use Rattle.kinds.specs.Sheet.{count_at, trees};
ghost use Rattle.kinds.specs.Walk.{NodeAt, TreesAt};
ghost use Rattle.helper.specs.Measure.{RowOf};
ghost use Rattle.layout.specs.Answer.{extent_words, extents_of, extents_fit, extents_in};
ghost use Rattle.layout.specs.Placing.{room_words, extent_at};

use super::place::{Placed, place};
use helper::{Measured, max_size};
use kinds::{ROWS, SIZES};

// A size that is at most the limit, with its alignment; 0 for both where it is larger.
fn room_within(x: Placed, limit: u64) -> (u64, u64)
    ensures { result.0 ∷ result.1 ∷ [] ≡ room_words limit x.bytes x.alignment }
{
    match x.bytes {
        Measured::Bytes(n) if n <= limit => (n, u64::from(x.alignment)),
        _ => (0, 0),
    }
}

// What node `i` takes, within the limit.
fn node_room(sizes: &[u8; 24], nodes: &[u64], i: usize, limit: u64) -> (u64, u64)
    requires { NodeAt nodes.now (4 * i) × (i + count_at nodes.now (4 * i) ≤ 2001) }
    ensures { (m : Widths) → RowOf sizes.now m → (s : List ℕ) → result.0 ∷ result.1 ∷ [] ≡ extent_words limit (extent_at m s nodes.now (4 * i)) }
{
    let mut numbers = [0u64; 2001];
    room_within(place(sizes, nodes, i, &mut numbers), limit)
}

// Puts what each of the `n` nodes takes into the list, two words a node.
fn put_rooms(sizes: &[u8; 24], nodes: &[u64], n: usize, limit: u64, list: &mut [u64])
    requires { TreesAt nodes.now 0 n × (n ≤ 2001) × (2 * n ≤ length list.old) }
    ensures { (m : Widths) → RowOf sizes.now m → (s : List ℕ) → list.new ≡ sets list.old 0 (extents_of m limit (trees s nodes.now n 0)) }
{
    for i in 0..n {
        let (bytes, alignment) = node_room(sizes, nodes, i, limit);
        list[2 * i] = bytes;
        list[2 * i + 1] = alignment;
    }
}

// The same of the nodes of a tree in a row, if there is such a row and room in the list.
pub(crate) fn nodes_extents(row: u64, nodes: &[u64], n: usize, list: &mut [u64]) -> bool
    requires { TreesAt nodes.now 0 n × (n ≤ 2001) }
    ensures answers { (s : List ℕ) → result ≡ extents_fit row (length list.old) (trees s nodes.now n 0) }
    ensures fills { (s : List ℕ) → list.new ≡ extents_in row (trees s nodes.now n 0) list.old }
{
    if ROWS <= row {
        return false;
    }
    if list.len() < 2 * n {
        return false;
    }
    let table = SIZES;
    let sizes = &table[row as usize];
    put_rooms(sizes, nodes, n, max_size(row), list);
    true
}

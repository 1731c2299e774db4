// A pass over the nodes of a tree: which laid-out node is the first bitfield, and whether one has no size.
ghost use Rattle.std.specs.Prelude.{ℕ, ◌≡◌, false, ◌||◌, List, eqb};
ghost use Rattle.kinds.specs.Primitive.{Widths};
ghost use Rattle.kinds.specs.Sheet.{trees};
ghost use Rattle.helper.specs.Measure.{RowOf};
ghost use Rattle.layout.specs.Layout.{laid_out};
ghost use Rattle.layout.specs.Placing.{sizeless_kind, passes_kind, bottom_after, found_in};
ghost use Rattle.layout.specs.Walking.{Sought};

use kinds::{
    ARRAY, ATOMIC, BIT_FIELD, NestingLevel, POINTER, PRIMITIVES, STRUCT, TYPED_BIT_FIELD, UNION,
};

// What a pass over the laid-out nodes finds: the first bitfield, that one has no size, or neither. Three answers by name: an Option in a Result is no plainer.
#[derive(Clone, Copy)]
pub(crate) enum Found {
    BitField(usize),
    Nothing,
    Sized,
}

fn is_bit_field(kind: u64) -> bool
    ensures { result ≡ (eqb kind 24 || eqb kind 25) }
{
    kind == BIT_FIELD || kind == TYPED_BIT_FIELD
}

// Whether a laid-out node has no size of its own; `bottom` says whether it stands at the bottom level.
#[tactic(auto, unfolding(crate::specs::Placing::sizeless_kind))]
fn is_sizeless(sizes: &[u8; 24], kind: u64, count: usize, bottom: bool) -> bool
    ensures { result ≡ sizeless_kind sizes.now kind count bottom }
{
    if kind < PRIMITIVES {
        return sizes[kind as usize] == 0;
    }
    if kind < STRUCT {
        return false;
    }
    UNION < kind || bottom || (kind == UNION && count == 1)
}

// Whether the nodes below a node are not laid out: those behind a pointer, and the fields of a container at bottom.
#[tactic(auto, unfolding(crate::specs::Placing::passes_kind))]
fn passes(kind: u64, bottom: bool) -> bool
    ensures { result ≡ passes_kind kind bottom }
{
    kind == POINTER || (STRUCT <= kind && bottom)
}

// Whether the next laid-out node stands at the bottom level: what an atomic holds, and an array's item where the array does. After a node that holds nothing
// inside comes a field of some container, and fields that are laid out are never at bottom.
#[tactic(auto, unfolding(crate::specs::Placing::bottom_after))]
fn bottom_after(kind: u64, bottom: bool) -> bool
    ensures { result ≡ bottom_after kind bottom }
{
    kind == ATOMIC || (kind == ARRAY && bottom)
}

// One pass over the `n` nodes of a tree, from a node on before which there is none of either, for the first bitfield that is laid out, and for a laid-out
// node that has no size.
pub(crate) fn find(sizes: &[u8; 24], nodes: &[u64], from: usize, n: usize) -> Found
    requires { Sought sizes.now nodes.now n from false false }
    ensures { (m : Widths) → RowOf sizes.now m → (s : List ℕ) → result ≡ found_in m false (laid_out NestingLevel.Top 0 (trees s nodes.now n 0)) }
{
    let mut i = from;
    let mut bottom = false;
    let mut none = false;
    // a cursor that may move by a node's count, which is no step of an iterator
    while i < n {
        let at = 4 * i;
        let kind = nodes[at];
        if kind < PRIMITIVES {
            // codes, which come in long rows, before the rest
            none |= sizes[kind as usize] == 0;
            bottom = false;
            i += 1;
            continue;
        }
        if is_bit_field(kind) {
            return Found::BitField(i);
        }
        let count = nodes[at + 3] as usize;
        none |= is_sizeless(sizes, kind, count, bottom);
        if passes(kind, bottom) {
            bottom = false;
            i += count;
            continue;
        }
        bottom = bottom_after(kind, bottom);
        i += 1;
    }
    if none {
        return Found::Nothing;
    }
    Found::Sized
}

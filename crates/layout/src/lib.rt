// Where each field of a tree lies, with padding (02, N7), and what each of its nodes takes.
#![tactic(auto)]

ghost use Rattle.std.specs.Prelude.{◌<◌, ◌≡◌, length};
ghost use Rattle.kinds.specs.Tree.{end, node, primitive};
ghost use Rattle.layout.specs.Answer.{layout_in, list_in, layout_answer, layout_list, extents_answer, extents_list};
ghost use Rattle.layout.specs.Placing.{part_kind};

mod find;
mod place;
mod quick;
mod taken;
mod tree;

use kinds::{ROWS, Refusal, SIZES};
use quick::nodes_layout;
use sheet::{Found, check};
use taken::nodes_extents;

// The kind word of a primitive that is a pointer, by which a pointer's size is found in a row.
const STRING: usize = 18;

// The kind words of the complex numbers, each three after its part's.
const FLOAT_COMPLEX: usize = 13;

const LONG_DOUBLE_COMPLEX: usize = 15;

// What `layout` answers: a padded size with its alignment, none, or why not.
pub type LaidOut = Result<Option<(u64, u64)>, Refusal>;

// The kind of a complex number's part, or the primitive's own.
#[tactic(auto, unfolding(crate::specs::Placing::part_kind))]
fn part_kind(kind: usize) -> usize
    ensures { result ≡ part_kind kind }
{
    if kind < FLOAT_COMPLEX || LONG_DOUBLE_COMPLEX < kind {
        kind
    } else {
        kind - 3
    }
}

// The layout in a row of a tree that is one code.
fn code_layout(row: u64, kind: u64, offsets: &mut [u64]) -> LaidOut
    requires { kind < 24 }
    ensures answers { result ≡ layout_in row (length offsets.old) (node (primitive kind) end end) }
    ensures fills { offsets.new ≡ list_in row (node (primitive kind) end end) offsets.old }
{
    if ROWS <= row {
        return Err(Refusal::NoSuchRow);
    }
    if offsets.is_empty() {
        return Err(Refusal::ListTooShort);
    }
    let table = SIZES;
    let sizes = &table[row as usize];
    let k = kind as usize;
    let bytes = u64::from(sizes[k]);
    if bytes == 0 {
        return Ok(None);
    }
    let alignment = u64::from(sizes[part_kind(k)]);
    offsets[0] = 0;
    Ok(Some((bytes, alignment)))
}

// The layout in a row of the tree in a sheet: the number of each node is put into the list, and with it come the padded size and the alignment of the whole.
pub fn layout(words: &[u64], names: &[u8], row: u64, offsets: &mut [u64]) -> LaidOut
    ensures answers { result ≡ layout_answer row words.now names.now offsets.old }
    ensures fills { offsets.new ≡ layout_list row words.now names.now offsets.old }
{
    match check(words, names) {
        Err(why) => Err(why),
        Ok(Found::Code(_, kind)) => code_layout(row, kind, offsets),
        Ok(Found::Nodes(first, n)) => nodes_layout(row, &words[first..], n, offsets),
    }
}

// What each node of the tree in a sheet takes in a row, with what it holds: its padded size and its alignment are put into the list.
pub fn extents(words: &[u64], names: &[u8], row: u64, list: &mut [u64]) -> bool
    ensures answers { result ≡ extents_answer row words.now names.now list.old }
    ensures fills { list.new ≡ extents_list row words.now names.now list.old }
{
    let Ok(found) = check(words, names) else {
        return false;
    };
    match found {
        Found::Code(first, _) => nodes_extents(row, &words[first..], 1, list),
        Found::Nodes(first, n) => nodes_extents(row, &words[first..], n, list),
    }
}

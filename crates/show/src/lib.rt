// What is shown of a tree, of its sizes, of its layout, of a signature, of a refusal and of the reason for a no, put into a lent output from a place on; each answers the next place.
#![tactic(auto)]

ghost use Rattle.std.specs.Prelude.{◌≡◌, [], ◌∷◌, take, drop, get_or};
ghost use Rattle.lines.specs.Answer.{Put, decimals};
ghost use Rattle.show.specs.Answer.{count_of, shown_byte, shown_text, times, depth_of, line_of, count_text, kind_names, values_text, right_text, type_text, node_text, column_text, entry_text};
ghost use Rattle.show.specs.Answer.{offset_text, extent_text, laid_text, padding_text, whole_text};
ghost use Rattle.show.specs.Answer.{byte_text, container_text, shown_or_cut, mark_text, named_text, refused_by, refused_text};
ghost use Rattle.show.specs.Answer.{is_number, limit_text, size_text, size_line};
ghost use Rattle.show.specs.Answer.{kind_text, place_text, unit_text, value_text, difference_by, difference_text};

use kinds::{ARRAY, BIT_FIELD, MAX_TEXT, PRIMITIVES, Refusal, STRUCT, TYPED_BIT_FIELD, UNION};
use layout::LaidOut;

// At most `n` items of `s` from `from` on.
fn part(s: &[u8], from: usize, n: usize) -> &[u8]
    ensures { result.now ≡ take n (drop from s.now) }
{
    if from <= s.len() {
        return lines::front(&s[from..], n);
    }
    lines::front(s, 0)
}

// How often a byte stands in the text.
pub fn count_of(s: &[u8], b: u8) -> usize
    ensures { result ≡ count_of b s.now }
{
    s.iter().filter(|x| **x == b).count()
}

// A byte that is no printable ASCII shows as a dot, so that each byte takes one column.
fn glyph(b: u8) -> u8
    ensures { result ∷ [] ≡ shown_byte b }
{
    if b < b' ' {
        return b'.';
    }
    if b'~' < b {
        return b'.';
    }
    b
}

pub fn put_shown(out: &mut [u8], at: usize, s: &[u8]) -> usize
    ensures { Put out.old at (shown_text s.now) out.new result }
{
    let mut to = at;
    for b in s {
        to = lines::put_bytes(out, to, &[glyph(*b)]);
    }
    to
}

// The same bytes `n` times.
fn put_times(out: &mut [u8], at: usize, s: &[u8], n: usize) -> usize
    ensures { Put out.old at (times n s.now) out.new result }
{
    let mut to = at;
    for _ in 0..n {
        to = lines::put_bytes(out, to, s);
    }
    to
}

// A number and its unit, in the plural but for 1.
pub fn put_count(out: &mut [u8], at: usize, n: u64, unit: &[u8]) -> usize
    ensures { Put out.old at (count_text n unit.now) out.new result }
{
    let number = lines::put_number(out, at, n);
    let space = lines::put_bytes(out, number, b" ");
    let to = lines::put_bytes(out, space, unit);
    if n == 1 {
        return to;
    }
    lines::put_bytes(out, to, b"s")
}

// How many nodes hold node `i`: those before it whose subtree reaches beyond it.
fn depth(nodes: &[u64], i: u16) -> usize
    ensures { result ≡ depth_of nodes.now i }
{
    let mut n = 0;
    for j in 0..i {
        let count = lines::word_at(nodes, 4 * (j as usize) + 3);
        if ((i - j) as u64) < count {
            n += 1;
        }
    }
    n
}

// The line of a table with the number `k`, from 0 on.
fn line_of(table: &[u8], k: u64) -> &[u8]
    ensures { result.now ≡ line_of k table.now }
{
    let mut unread = table;
    for _ in 0..k {
        unread = lines::rest(unread, b'\n');
    }
    lines::field(unread, b'\n')
}

// What stands before a node's numbers or its name, by its kind.
fn put_kind(out: &mut [u8], at: usize, kind: u64) -> usize
    ensures { Put out.old at (line_of kind kind_names) out.new result }
{
    let table = b"char\nshort\nint\nlong\nlong long\n\
        unsigned char\nunsigned short\nunsigned int\nunsigned long\nunsigned long long\n\
        float\ndouble\nlong double\ncomplex float\ncomplex double\ncomplex long double\n\
        bool\nvoid\nC string\nobject\nblock\nclass\nselector\nunknown\n\
        bitfield of \nbitfield at offset \npointer\natomic\narray of \nstruct \nunion \nnothing";
    lines::put_bytes(out, at, line_of(table, kind))
}

// A node's numbers or its name.
fn put_values(out: &mut [u8], at: usize, names: &[u8], kind: u64, first: u64, second: u64) -> usize
    ensures { Put out.old at (values_text names.now kind first second) out.new result }
{
    match kind {
        BIT_FIELD => put_count(out, at, second, b"bit"),
        TYPED_BIT_FIELD => {
            let offset = lines::put_number(out, at, first);
            let of = lines::put_bytes(out, offset, b" of ");
            put_count(out, of, second, b"bit")
        }
        ARRAY => lines::put_number(out, at, first),
        STRUCT | UNION => lines::put_bytes(out, at, part(names, first as usize, second as usize)),
        _ => at,
    }
}

// A number in a column that is as wide as `widest`.
fn put_right(out: &mut [u8], at: usize, n: u64, widest: u64) -> usize
    ensures { Put out.old at (right_text n widest) out.new result }
{
    let width = static_str::static_int_str_len(widest);
    let digits = static_str::static_int_str_len(n);
    if digits < width {
        let to = put_times(out, at, b" ", width - digits);
        return lines::put_number(out, to, n);
    }
    lines::put_number(out, at, n)
}

// A node's kind with its numbers or its name, two columns deeper than its parent's.
fn put_type(out: &mut [u8], at: usize, nodes: &[u64], names: &[u8], i: u16) -> usize
    ensures { Put out.old at (type_text nodes.now names.now i) out.new result }
{
    let to = put_times(out, at, b"  ", depth(nodes, i));
    let here = 4 * (i as usize);
    let kind = lines::word_at(nodes, here);
    let first = lines::word_at(nodes, here + 1);
    let second = lines::word_at(nodes, here + 2);
    let values = put_kind(out, to, kind);
    put_values(out, values, names, kind, first, second)
}

// The line of a node: its number, in a column for the last one's, and its type.
pub fn put_node(out: &mut [u8], nodes: &[u64], names: &[u8], i: u16, last: u16) -> usize
    ensures { Put out.old 0 (node_text nodes.now names.now i last) out.new result }
{
    let number = put_right(out, 0, i as u64, last as u64);
    let to = lines::put_bytes(out, number, b" ");
    put_type(out, to, nodes, names, i)
}

// A number of a table, two columns behind what stands before it.
fn put_column(out: &mut [u8], at: usize, n: u64, widest: u64) -> usize
    ensures { Put out.old at (column_text n widest) out.new result }
{
    let to = lines::put_bytes(out, at, b"  ");
    put_right(out, to, n, widest)
}

// The line of entry `k` of a signature: `k`, the type's start, length and number, each in a column that is wide enough for all of them and for its head,
// and the type's bytes.
pub fn put_entry(out: &mut [u8], text: &[u8], list: &[u64], k: u16) -> usize
    ensures { Put out.old 0 (entry_text text.now list.now k) out.new result }
{
    let at = 3 * (k as usize);
    let first = lines::word_at(list, at);
    let size = lines::word_at(list, at + 1);
    let item = put_right(out, 0, k as u64, 1000);
    let start = put_column(out, item, first, 10000);
    let length = put_column(out, start, size, 100000);
    let number = put_column(out, length, lines::word_at(list, at + 2), 1000000000);
    let to = lines::put_bytes(out, number, b"  ");
    put_shown(out, to, part(text, first as usize, size as usize))
}

// The offset of a field, and an empty column for what is none.
fn put_offset(out: &mut [u8], at: usize, field: bool, offset: u64) -> usize
    ensures { Put out.old at (offset_text field offset) out.new result }
{
    if field {
        return put_column(out, at, offset, 1000000000);
    }
    lines::put_bytes(out, at, b"            ")
}

// The size and the alignment of a node; nothing of one that is not laid out.
fn put_extent(out: &mut [u8], at: usize, extent: LaidOut) -> usize
    ensures { Put out.old at (extent_text extent) out.new result }
{
    match extent {
        Err(_) => lines::put_bytes(out, at, b"   too large       "),
        Ok(None) => lines::put_bytes(out, at, b"                   "),
        Ok(Some((n, alignment))) => {
            let to = put_column(out, at, n, 1000000000);
            put_column(out, to, alignment, 10000)
        }
    }
}

// The line of a node in a layout: its number, its offset if it is a field, its size and alignment, and its type.
pub fn put_laid(
    out: &mut [u8],
    nodes: &[u64],
    names: &[u8],
    i: u16,
    field: bool,
    offset: u64,
    extent: LaidOut,
) -> usize
    ensures { Put out.old 0 (laid_text nodes.now names.now i field offset extent) out.new result }
{
    let number = put_right(out, 0, i as u64, 1000);
    let begin = put_offset(out, number, field, offset);
    let size = put_extent(out, begin, extent);
    let to = lines::put_bytes(out, size, b"  ");
    put_type(out, to, nodes, names, i)
}

// The line of the padding after node `i`: where it begins, its bytes, and the word, as deep as the node.
pub fn put_padding(out: &mut [u8], nodes: &[u64], i: u16, begin: u64, bytes: u64) -> usize
    ensures { Put out.old 0 (padding_text nodes.now i begin bytes) out.new result }
{
    let blank = lines::put_bytes(out, 0, b"    ");
    let first = put_column(out, blank, begin, 1000000000);
    let second = put_column(out, first, bytes, 1000000000);
    let space = lines::put_bytes(out, second, b"         ");
    let to = put_times(out, space, b"  ", depth(nodes, i));
    lines::put_bytes(out, to, b"padding")
}

// The last line of a layout: the size and the alignment of the whole.
pub fn put_whole(out: &mut [u8], bytes: u64, alignment: u64) -> usize
    ensures { Put out.old 0 (whole_text bytes alignment) out.new result }
{
    let size = put_count(out, 0, bytes, b"byte");
    let to = lines::put_bytes(out, size, b", alignment ");
    lines::put_number(out, to, alignment)
}

// That a size is above the largest of its row.
fn put_limit(out: &mut [u8], at: usize, row: u64) -> usize
    ensures { Put out.old at (limit_text row) out.new result }
{
    if row == 2 {
        return lines::put_bytes(out, at, b"above 2^32 - 1 bytes");
    }
    lines::put_bytes(out, at, b"above 2^64 - 1 bytes")
}

// A size in a row. A tree that was read is refused in a row of the table only for its size.
fn put_size(out: &mut [u8], at: usize, row: u64, size: Result<Option<u64>, Refusal>) -> usize
    ensures { Put out.old at (size_text row size) out.new result }
{
    match size {
        Err(_) => put_limit(out, at, row),
        Ok(None) => lines::put_bytes(out, at, b"no size"),
        Ok(Some(n)) => put_count(out, at, n, b"byte"),
    }
}

// The line of a row: its number, its machine and the size there.
pub fn put_size_line(out: &mut [u8], row: u64, size: Result<Option<u64>, Refusal>) -> usize
    ensures { Put out.old 0 (size_line row size) out.new result }
{
    let machines =
        b"  64-bit Apple ARM  \n  x86_64            \n  32-bit ARM        \n  the guide's long  ";
    let number = put_right(out, 0, row, 100);
    let machine = lines::put_bytes(out, number, line_of(machines, row));
    put_size(out, machine, row, size)
}

// The byte that a refusal names: itself, or its number where it does not show.
fn put_byte(out: &mut [u8], at: usize, byte: u64) -> usize
    ensures { Put out.old at (byte_text byte) out.new result }
{
    if 32 < byte && byte < 127 {
        return lines::put_bytes(out, at, &[byte as u8]);
    }
    let to = lines::put_bytes(out, at, b"byte ");
    lines::put_number(out, to, byte)
}

fn put_container(out: &mut [u8], at: usize, kind: u64) -> usize
    ensures { Put out.old at (container_text kind) out.new result }
{
    if kind == UNION {
        return lines::put_bytes(out, at, b"union");
    }
    lines::put_bytes(out, at, b"struct")
}

// A text of more than 2,000 bytes shows its first 60.
fn put_text(out: &mut [u8], at: usize, text: &[u8]) -> usize
    ensures { Put out.old at (shown_or_cut text.now) out.new result }
{
    if text.len() <= MAX_TEXT {
        return put_shown(out, at, text);
    }
    let to = put_shown(out, at, lines::front(text, 60));
    lines::put_bytes(out, to, b"...")
}

// The first byte; 0 of an empty text.
fn first_byte(s: &[u8]) -> u8
    ensures { result ≡ get_or s.now 0 0 }
{
    if 0 < s.len() {
        return s[0];
    }
    0
}

// A line with a mark under the place, unless the refusal has none in the text.
fn put_mark(out: &mut [u8], at: usize, carried: u8, place: u64) -> usize
    ensures { Put out.old at (mark_text carried place) out.new result }
{
    if carried == b'-' {
        return at;
    }
    if carried == b'n' {
        return at;
    }
    let line = lines::put_bytes(out, at, b"\n");
    let to = put_times(out, line, b" ", place as usize);
    lines::put_bytes(out, to, b"^")
}

// The byte, the container or the node that a refusal names.
fn put_named(out: &mut [u8], at: usize, carried: u8, place: u64, byte: u64, container: u64) -> usize
    ensures { Put out.old at (named_text carried place byte container) out.new result }
{
    if carried == b'b' {
        return put_byte(out, at, byte);
    }
    if carried == b'c' {
        return put_container(out, at, container);
    }
    if carried == b'n' {
        return lines::put_number(out, at, place);
    }
    at
}

// What `put_refused` puts, by the line of its refusal.
fn put_refused_by(out: &mut [u8], text: &[u8], why: &[u64; 4], line: &[u8]) -> usize
    ensures { Put out.old 0 (refused_by line.now text.now why.now) out.new result }
{
    let carried = first_byte(line);
    let shown = put_text(out, 0, text);
    let mark = put_mark(out, shown, carried, why[1]);
    let to = lines::put_bytes(out, mark, b"\nrefused (");
    let number = lines::put_number(out, to, why[0]);
    let words = lines::put_bytes(out, number, b"): ");
    let named = lines::put_bytes(out, words, lines::rest(line, b' '));
    put_named(out, named, carried, why[1], why[2], why[3])
}

// The text, a mark under the refusal's place if it has one, and the reason.
pub fn put_refused(out: &mut [u8], text: &[u8], why: &[u64; 4]) -> usize
    ensures { Put out.old 0 (refused_text text.now why.now) out.new result }
{
    // A line for each number of a refusal: what the refusal carries (`-` nothing, `^` a place, `b` a place and a byte, `c` a place and a
    // container, `n` a node), and the reason, up to the byte, container or node that it names. A refusal more is a line here.
    let refusals = b"-\n\
        - the text has more than 2,000 bytes\n\
        - the lists are too short for the tree\n\
        - the lists hold no tree\n\
        - a name is neither ? nor letters, digits and underscores\n\
        - the output is too short for the text\n\
        - the size or an offset is above 2^64 - 1 bytes, or in row 2 above 2^32 - 1\n\
        ^ the text ends where another byte must stand\n\
        b no type starts with \n\
        b f, d or D must follow j, not \n\
        ^ a digit must stand here\n\
        ^ a number is above 2^64 - 1, or a bitfield's size above 255\n\
        ^ no ] follows the array's item\n\
        c the text ends inside the \n\
        c neither ? nor letters, digits and underscores name the \n\
        ^ bytes remain after the type\n\
        ^ no digit follows the type\n\
        ^ the number is above 4294967295\n\
        - the signature is empty\n\
        ^ the number starts with a surplus zero\n\
        - there is no row of that number: they are 0 to 3\n\
        n a bitfield cannot be laid out: node ";
    put_refused_by(out, text, why, line_of(refusals, why[0]))
}

// Whether a text is one number of 1 to 20 digits that is below 2^64.
pub fn is_number(s: &[u8]) -> bool
    ensures { result ≡ is_number s.now }
{
    let mut list = [0u64; 1];
    if s.len() == 0 {
        return false;
    }
    if 20 < s.len() {
        return false;
    }
    match lines::decode_words(s, &mut list) {
        Some(_) => true,
        None => false,
    }
}

// The number at the front of a text; 0 where there is none.
pub fn number_of(s: &[u8]) -> u64
    ensures { result ≡ get_or (decimals 0 s.now) 0 0 }
{
    let mut numbers = [0u64; 1];
    lines::decode_words(s, &mut numbers);
    numbers[0]
}

// A kind, without its node's numbers or name.
fn put_kind_alone(out: &mut [u8], at: usize, kind: u64) -> usize
    ensures { Put out.old at (kind_text kind) out.new result }
{
    if kind < PRIMITIVES {
        return put_kind(out, at, kind);
    }
    let table = b"bitfield\nbitfield with a type\npointer\natomic\narray\nstruct\nunion\nnothing";
    lines::put_bytes(out, at, line_of(table, kind - PRIMITIVES))
}

// Where a difference is, by the path to it.
fn put_place(out: &mut [u8], at: usize, path: &[u8]) -> usize
    ensures { Put out.old at (place_text path.now) out.new result }
{
    if path.len() == 0 {
        return lines::put_bytes(out, at, b"the whole type");
    }
    let to = lines::put_bytes(out, at, b"item ");
    lines::put_bytes(out, to, path)
}

// What is said of the size and of the count besides; each of a reason's six words begins with another byte.
fn put_unit(out: &mut [u8], at: usize, word: u8) -> usize
    ensures { Put out.old at (unit_text word) out.new result }
{
    if word == b's' {
        return lines::put_bytes(out, at, b" in bits");
    }
    if word == b'c' {
        return lines::put_bytes(out, at, b" of fields");
    }
    at
}

// A value of a reason: a kind's number in words, all others as they are.
fn put_value(out: &mut [u8], at: usize, word: u8, value: &[u8]) -> usize
    ensures { Put out.old at (value_text word value.now) out.new result }
{
    if word == b'k' {
        return put_kind_alone(out, at, number_of(value));
    }
    lines::put_bytes(out, at, value)
}

// What `put_difference` puts, by the reason's path, its word and the values of both sides.
fn put_sentence(out: &mut [u8], path: &[u8], word: &[u8], first: &[u8], second: &[u8]) -> usize
    ensures { Put out.old 0 (difference_by path.now word.now first.now second.now) out.new result }
{
    let letter = first_byte(word);
    let place = lines::put_bytes(out, 0, b"in ");
    let colon = put_place(out, place, path);
    let noun = lines::put_bytes(out, colon, b": the ");
    let unit = lines::put_bytes(out, noun, word);
    let verb = put_unit(out, unit, letter);
    let one = lines::put_bytes(out, verb, b" is ");
    let between = put_value(out, one, letter, first);
    let other = lines::put_bytes(out, between, b" in the first, ");
    let end = put_value(out, other, letter, second);
    lines::put_bytes(out, end, b" in the second")
}

// The reason for a no, in a sentence.
pub fn put_difference(out: &mut [u8], reason: &[u8]) -> usize
    ensures { Put out.old 0 (difference_text reason.now) out.new result }
{
    let path = lines::field(reason, b':');
    let said = lines::rest(reason, b':');
    let word = lines::field(said, b' ');
    let values = lines::rest(said, b' ');
    let first = lines::rest(lines::field(values, b' '), b':');
    let second = lines::rest(lines::rest(values, b' '), b':');
    put_sentence(out, path, word, first, second)
}

// The words of a reason: the path to the nodes that differ, what of them differs, and the value of each.
ghost use Rattle.std.specs.Prelude.{◌+◌, ◌-◌, ◌*◌, ◌≤◌, ◌≡◌, leb, length};
ghost use Rattle.kinds.specs.Print.{decimal};
ghost use Rattle.kinds.specs.Sheet.{count_at, max_names};
ghost use Rattle.kinds.specs.Walk.{NodeAt};
ghost use Rattle.lines.specs.Answer.{Put};
ghost use Rattle.reason.specs.Reason.{path_text, value_text, reason_text};
ghost use Rattle.reason.specs.Spot.{NodeOf, word_of, number_at, value_at, value_length, difference_length, NameWithin, NameShort};
ghost use Rattle.reason.specs.Spot.{path_from, Inside, Towards, item_text, max_path_text, max_value_text, reason_at};

use super::find::{Aspect, subtree};
use lines::{put_bytes, put_marked, put_number};
use static_str::static_int_str_len;

// An item of a node: the word at which it begins, and its number from 0.
#[derive(Clone, Copy)]
struct Item {
    at: usize,
    number: u64,
}

// The item of the node at `parent` that holds the node at `x`.
fn item_towards(nodes: &[u64], parent: usize, x: usize) -> Item
    requires { NodeAt nodes.now parent × NodeOf (parent + 4) (count_at nodes.now parent - 1) x }
    ensures { Towards nodes.now parent x result.at result.number }
{
    let mut at = parent + 4;
    let mut number = 0;
    let mut count = subtree(nodes, at);
    // `at` moves by a node's count, which is no step of an iterator
    while 4 * count <= x - at {
        at += 4 * count;
        number += 1;
        count = subtree(nodes, at);
    }
    Item { at, number }
}

// The length of the text of the path to the node at `x`.
pub(crate) fn path_len(nodes: &[u64], x: usize) -> usize
    requires { Inside nodes.now x }
    ensures { (result ≡ length (path_text (path_from nodes.now 0 x))) × (result ≤ max_path_text) }
{
    let mut at = 0;
    let mut len = 0;
    // `at` moves to the item that holds `x`, which is no step of an iterator
    while at < x {
        let item = item_towards(nodes, at, x);
        if 0 < at {
            len += 1;
        }
        len += static_int_str_len(item.number);
        at = item.at;
    }
    len
}

// Writes an item number, with a dot before it unless it is the first; the next place.
fn put_item(out: &mut [u8], to: usize, first: bool, number: u64) -> usize
    ensures { Put out.old to (item_text first number) out.new result }
{
    if first {
        return put_number(out, to, number);
    }
    // most items
    if number < 10 {
        return put_bytes(out, to, &[b'.', b'0' + number as u8]);
    }
    put_marked(out, to, b'.', number)
}

// Writes the path to the node at `x`; the next place.
fn put_path(out: &mut [u8], nodes: &[u64], x: usize) -> usize
    requires { Inside nodes.now x }
    ensures { Put out.old 0 (path_text (path_from nodes.now 0 x)) out.new result }
{
    let mut at = 0;
    let mut to = 0;
    // `at` moves to the item that holds `x`, which is no step of an iterator
    while at < x {
        let item = item_towards(nodes, at, x);
        to = put_item(out, to, at == 0, item.number);
        at = item.at;
    }
    to
}

// The length of the text of a value of `n` bytes.
fn text_len(n: usize) -> usize
    requires { n ≤ max_names }
    ensures { (result ≡ 2 + length (decimal n) + n) × (result ≤ max_value_text) }
{
    2 + static_int_str_len(n as u64) + n
}

// The length of the text of a number as a value.
pub(crate) fn number_len(n: u64) -> usize
    ensures { (result ≡ length (value_text (decimal n))) × (result ≤ max_value_text) }
{
    // kinds and most other numbers
    if n < 10 {
        return 4;
    }
    if n < 100 {
        return 5;
    }
    text_len(static_int_str_len(n))
}

// The length of the text of a value with the number `n`.
fn value_len(aspect: Aspect, n: u64) -> usize
    requires { NameShort aspect n }
    ensures { (result ≡ value_length aspect n) × (result ≤ max_value_text) }
{
    if let Aspect::Name = aspect {
        return text_len(n as usize);
    }
    number_len(n)
}

fn word_len(aspect: Aspect) -> usize
    ensures { (result ≡ length (word_of aspect)) × (result ≤ 6) }
{
    match aspect {
        Aspect::Kind => 4,
        Aspect::Size => 4,
        Aspect::Offset => 6,
        Aspect::Length => 6,
        Aspect::Name => 4,
        Aspect::Count => 5,
    }
}

// Writes a word; the next place.
fn put_word(out: &mut [u8], to: usize, aspect: Aspect) -> usize
    ensures { Put out.old to (word_of aspect) out.new result }
{
    match aspect {
        Aspect::Kind => put_bytes(out, to, b"kind"),
        Aspect::Size => put_bytes(out, to, b"size"),
        Aspect::Offset => put_bytes(out, to, b"offset"),
        Aspect::Length => put_bytes(out, to, b"length"),
        Aspect::Name => put_bytes(out, to, b"name"),
        Aspect::Count => put_bytes(out, to, b"count"),
    }
}

// Writes a number as a value; the next place.
pub(crate) fn put_number_value(out: &mut [u8], to: usize, n: u64) -> usize
    ensures { Put out.old to (value_text (decimal n)) out.new result }
{
    if n < 10 {
        return put_bytes(out, to, &[b' ', b'1', b':', b'0' + n as u8]);
    }
    if n < 100 {
        let tens = b'0' + (n / 10 % 10) as u8;
        let ones = b'0' + (n % 10) as u8;
        return put_bytes(out, to, &[b' ', b'2', b':', tens, ones]);
    }
    let digits = static_int_str_len(n);
    if digits < 10 {
        let from = put_bytes(out, to, &[b' ', b'0' + digits as u8, b':']);
        return put_number(out, from, n);
    }
    let tens = b'0' + (digits / 10 % 10) as u8;
    let ones = b'0' + (digits % 10) as u8;
    let from = put_bytes(out, to, &[b' ', tens, ones, b':']);
    put_number(out, from, n)
}

// Writes bytes as a value; the next place.
fn put_bytes_value(out: &mut [u8], to: usize, s: &[u8]) -> usize
    ensures { Put out.old to (value_text s.now) out.new result }
{
    let mark = put_marked(out, to, b' ', s.len() as u64);
    let from = put_bytes(out, mark, b":");
    put_bytes(out, from, s)
}

// Writes a value with the number `n`; the next place.
fn put_value(
    out: &mut [u8],
    to: usize,
    nodes: &[u64],
    names: &[u8],
    at: usize,
    aspect: Aspect,
    n: u64,
) -> usize
    requires { NodeAt nodes.now at × NameWithin aspect (length names.now) nodes.now at × (n ≡ number_at aspect nodes.now at) }
    ensures { Put out.old to (value_text (value_at aspect names.now nodes.now at)) out.new result }
{
    if let Aspect::Name = aspect {
        let from = nodes[at + 1] as usize;
        let end = from + n as usize;
        return put_bytes_value(out, to, &names[from..end]);
    }
    put_number_value(out, to, n)
}

// The length of what follows the path in the reason that two nodes with the numbers `k` and `j` differ in an aspect.
pub(crate) fn difference_len(aspect: Aspect, k: u64, j: u64) -> usize
    requires { NameShort aspect k × NameShort aspect j }
    ensures { (result ≡ difference_length aspect k j) × (result ≤ 7 + 2 * max_value_text) }
{
    1 + word_len(aspect) + value_len(aspect, k) + value_len(aspect, j)
}

// At least the length of what follows the path: a number as a value has at most 24 bytes, and a name's length at most four digits.
fn most_len(aspect: Aspect, k: u64, j: u64) -> usize
    requires { NameShort aspect k × NameShort aspect j }
    ensures { (difference_length aspect k j ≤ result) × (result ≤ 7 + 2 * max_value_text) }
{
    if let Aspect::Name = aspect {
        return 17 + k as usize + j as usize;
    }
    55
}

// Whether the reason that the node at `at` and another, with the numbers `k` and `j`, differ in an aspect fits into `room` bytes.
pub(crate) fn reason_fits(
    nodes: &[u64],
    at: usize,
    aspect: Aspect,
    k: u64,
    j: u64,
    room: usize,
) -> bool
    requires { Inside nodes.now at × NameShort aspect k × NameShort aspect j }
    ensures { result ≡ leb (length (path_text (path_from nodes.now 0 at)) + difference_length aspect k j) room }
{
    // a path has at most two bytes for each node of the sheet before the one it leads to: only a short output is held against the length itself
    if at / 2 + most_len(aspect, k, j) <= room {
        return true;
    }
    path_len(nodes, at) + difference_len(aspect, k, j) <= room
}

// Writes the reason that two nodes with the numbers `k` and `j` differ in an aspect; the next place.
pub(crate) fn put_reason(
    out: &mut [u8],
    a: &[u64],
    an: &[u8],
    at: usize,
    b: &[u64],
    bn: &[u8],
    bt: usize,
    aspect: Aspect,
    k: u64,
    j: u64,
) -> usize
    requires inside { Inside a.now at × NodeAt a.now at × NodeAt b.now bt }
    requires name_within { NameWithin aspect (length an.now) a.now at × NameWithin aspect (length bn.now) b.now bt }
    requires k_value { (k ≡ number_at aspect a.now at) × (j ≡ number_at aspect b.now bt) }
    ensures { Put out.old 0 (reason_text (reason_at aspect an.now a.now at bn.now b.now bt)) out.new result }
{
    let path = put_path(out, a, at);
    let mark = put_bytes(out, path, b":");
    let word = put_word(out, mark, aspect);
    let first = put_value(out, word, a, an, at, aspect, k);
    put_value(out, first, b, bn, bt, aspect, j)
}

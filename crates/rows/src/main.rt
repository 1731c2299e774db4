// Prints the table of primitive sizes, worked out from the widths of long, unsigned long, pointer and long double: a row a line in the order of `Primitive`, 0 for none.
#![tactic(auto)]

ghost use Rattle.std.specs.Prelude.{◌≡◌};
ghost use Rattle.kinds.specs.Primitive.{size_row, size_rows, widths};
ghost use Rattle.lines.specs.Answer.{Put};
ghost use Rattle.rows.specs.Answer.{four, row_text, table_text};

use kinds::SIZES;
use std::io;

// More bytes than the table has.
const MAX_TABLE: usize = 512;

// The widths of long, unsigned long, pointer and long double on 64-bit Apple ARM, x86_64 and 32-bit ARM, and on the first with the long of Apple's guide.
const MACHINES: [[u8; 4]; 4] = [[8, 8, 8, 8], [8, 8, 8, 16], [4, 4, 4, 8], [4, 8, 8, 8]];

// The table that size goes by. Nothing calls this: its promise holds the constant to the rows that are worked out here.
fn table() -> [[u8; 24]; 4]
    ensures { result ≡ size_rows }
{
    SIZES
}

// The widths of a row; those of row 0 where there is no such row.
fn widths_of(row: usize) -> [u8; 4]
    ensures { result ≡ four (widths row) }
{
    if row < 4 {
        return MACHINES[row];
    }
    MACHINES[0]
}

// The row of sizes of a machine. An entry is wide enough for twice any long double.
fn size_row(long: u8, unsigned_long: u8, pointer: u8, long_double: u8) -> [u64; 24]
    ensures { result ≡ size_row (record { long = long; unsigned-long = unsigned_long; pointer = pointer; long-double = long_double }) }
{
    let l = long as u64;
    let u = unsigned_long as u64;
    let p = pointer as u64;
    let d = long_double as u64;
    [
        1, // char
        2, // short
        4, // int
        l, // long
        8, // long long
        1, // unsigned char
        2, // unsigned short
        4, // unsigned int
        u, // unsigned long
        8, // unsigned long long
        4, // float
        8, // double
        d, // long double
        8, // complex float
        16, // complex double
        2 * d, // complex long double
        1, // bool
        0, // void
        p, // C string
        p, // object
        p, // block
        p, // class
        p, // selector
        0, // unknown
    ]
}

// The line of the row with this number, and its end; the next place.
fn put_row(out: &mut [u8], at: usize, row: usize) -> usize
    ensures { Put out.old at (row_text (size_row (widths row))) out.new result }
{
    let w = widths_of(row);
    let sizes = size_row(w[0], w[1], w[2], w[3]);
    let to = lines::put_joined(out, at, b' ', &sizes);
    lines::put_bytes(out, to, b"\n")
}

// The whole table; the next place.
fn put_table(out: &mut [u8], at: usize) -> usize
    ensures { Put out.old at table_text out.new result }
{
    let second = put_row(out, at, 0);
    let third = put_row(out, second, 1);
    let fourth = put_row(out, third, 2);
    put_row(out, fourth, 3)
}

fn main(rt: HostRuntime) -> io::Result<()> {
    let mut out = [0u8; MAX_TABLE];
    let n = put_table(&mut out, 0);
    rt.write_all(lines::front(&out, n))
}

// Texts put into an output that the caller lends: bytes and numbers, as many as there is room for.
ghost use Rattle.std.specs.Prelude.{◌≡◌, ◌+◌, ◌≤◌, ◌<◌, [], ◌∷◌, leb, length};
ghost use Rattle.std.proofs.lemmas.List.Edits.{sets};
ghost use Rattle.kinds.specs.Print.{decimal};
ghost use Rattle.lines.specs.Answer.{Put};
ghost use Rattle.lines.specs.Digits.{in_fours, in_twos, four_digits, eight_packed, two_bytes, four_bytes, eight_bytes};

use static_str::static_int_str_len;

// Writes one byte where there is room; the next place.
pub(crate) fn put_byte(out: &mut [u8], at: usize, b: u8) -> usize
    ensures { Put out.old at (b ∷ []) out.new result }
{
    if out.len() <= at {
        return at;
    }
    out[at] = b;
    at + 1
}

// Writes bytes one by one, as many as there is room for; the next place.
fn put_front(out: &mut [u8], at: usize, s: &[u8]) -> usize
    ensures { Put out.old at s.now out.new result }
{
    let mut to = at;
    for b in s {
        to = put_byte(out, to, *b);
    }
    to
}

// Bytes that are known to fit, one by one: most are few.
fn copy_bytes(out: &mut [u8], at: usize, s: &[u8])
    requires { at + length s.now ≤ length out.old }
    ensures { out.new ≡ sets out.old at s.now }
{
    for i in 0..s.len() {
        out[at + i] = s[i];
    }
}

// Writes bytes, as many as there is room for; the next place.
pub fn put_bytes(out: &mut [u8], at: usize, s: &[u8]) -> usize
    ensures { Put out.old at s.now out.new result }
{
    if at <= out.len() {
        if s.len() <= out.len() - at {
            copy_bytes(out, at, s);
            return at + s.len();
        }
    }
    put_front(out, at, s)
}

// A number of at most eight digits as two of four, side by side in a word, 32 bits each.
fn in_fours(n: u64) -> u64
    requires { n < 100000000 }
    ensures { result ≡ in_fours n }
{
    // the upper half goes from 10,000 times to 2^32 times
    n + n / 10000 * 4294957296
}

// The same as four numbers of two digits, 16 bits each: both halves are divided by 100 at once.
fn in_twos(n: u64) -> u64
    requires { n < 100000000 }
    ensures { result ≡ in_twos n }
{
    let fours = in_fours(n);
    // 10486 / 2^20 is a little more than a hundredth, too little to matter below 10,000
    let q = fours * 10486 / 1048576;
    fours + (q % 128 + q / 4294967296 % 128 * 4294967296) * 65436
}

// The same as eight digits, a byte each, the last digit lowest: all four pairs are divided by 10 at once.
fn eight_digits(n: u64) -> u64
    requires { n < 100000000 }
    ensures { result ≡ eight_packed n }
{
    let twos = in_twos(n);
    // 103 / 2^10 is a little more than a tenth, too little to matter below 100
    let q = twos * 103 / 1024;
    let low = q % 16 + q / 65536 % 16 * 65536;
    let high = q / 4294967296 % 16 * 4294967296 + q / 281474976710656 % 16 * 281474976710656;
    twos + (low + high) * 246 + 3472328296227680304
}

// Stores the two lowest bytes of a word, the higher one first; the next place.
fn put_two(out: &mut [u8], at: usize, w: u64) -> usize
    requires { at + 2 ≤ length out.old }
    ensures { Put out.old at (two_bytes w) out.new result }
{
    out[at] = (w / 256 % 256) as u8;
    out[at + 1] = (w % 256) as u8;
    at + 2
}

// Stores the four lowest bytes of a word, the highest of them first; the next place.
fn put_four(out: &mut [u8], at: usize, w: u64) -> usize
    requires { at + 4 ≤ length out.old }
    ensures { Put out.old at (four_bytes w) out.new result }
{
    let next = put_two(out, at, w / 65536);
    put_two(out, next, w)
}

// Stores the eight bytes of a word, the highest first; the next place.
fn put_eight(out: &mut [u8], at: usize, w: u64) -> usize
    requires { at + 8 ≤ length out.old }
    ensures { Put out.old at (eight_bytes w) out.new result }
{
    let next = put_four(out, at, w / 4294967296);
    put_four(out, next, w)
}

// Writes a number of at most four digits, which, with zeros in front, are the four lowest bytes of `w`; the next place.
fn put_up_to_four(out: &mut [u8], at: usize, n: u64, w: u64) -> usize
    requires { (n < 10000) × (four_bytes w ≡ four_digits n) × (at + length (decimal n) ≤ length out.old) }
    ensures { Put out.old at (decimal n) out.new result }
{
    if n < 10 {
        out[at] = (w % 256) as u8;
        return at + 1;
    }
    if n < 100 {
        return put_two(out, at, w);
    }
    if n < 1000 {
        out[at] = (w / 65536 % 256) as u8;
        return put_two(out, at + 1, w);
    }
    put_four(out, at, w)
}

// Writes a number of at most eight digits; the next place.
fn put_up_to_eight(out: &mut [u8], at: usize, n: u64) -> usize
    requires { (n < 100000000) × (at + length (decimal n) ≤ length out.old) }
    ensures { Put out.old at (decimal n) out.new result }
{
    let w = eight_digits(n);
    if n < 10000 {
        return put_up_to_four(out, at, n, w);
    }
    let next = put_up_to_four(out, at, n / 10000, w / 4294967296);
    put_four(out, next, w)
}

// Writes a number of at most sixteen digits; the next place.
fn put_up_to_sixteen(out: &mut [u8], at: usize, n: u64) -> usize
    requires { (n < 10000000000000000) × (at + length (decimal n) ≤ length out.old) }
    ensures { Put out.old at (decimal n) out.new result }
{
    if n < 100000000 {
        return put_up_to_eight(out, at, n);
    }
    let next = put_up_to_eight(out, at, n / 100000000);
    put_eight(out, next, eight_digits(n % 100000000))
}

// Writes a number of any length; the next place. One function that calls itself would do for this and the one above, and is slower.
fn put_any(out: &mut [u8], at: usize, n: u64) -> usize
    requires { at + length (decimal n) ≤ length out.old }
    ensures { Put out.old at (decimal n) out.new result }
{
    if n < 100000000 {
        return put_up_to_eight(out, at, n);
    }
    let next = put_up_to_sixteen(out, at, n / 100000000);
    put_eight(out, next, eight_digits(n % 100000000))
}

// Whether a number has at most `room` digits; none has more than 20.
fn number_fits(n: u64, room: usize) -> bool
    ensures { result ≡ leb (length (decimal n)) room }
{
    if 20 <= room {
        return true;
    }
    static_int_str_len(n) <= room
}

// Writes a number digit by digit, as many as there is room for; the next place.
fn put_digits(out: &mut [u8], at: usize, n: u64) -> usize
    ensures { Put out.old at (decimal n) out.new result }
{
    if n < 10 {
        return put_byte(out, at, b'0' + n as u8);
    }
    let next = put_digits(out, at, n / 10);
    put_byte(out, next, b'0' + (n % 10) as u8)
}

// Writes a number in decimal; the next place.
pub fn put_number(out: &mut [u8], at: usize, n: u64) -> usize
    ensures { Put out.old at (decimal n) out.new result }
{
    if n < 10 {
        return put_byte(out, at, b'0' + n as u8);
    }
    if at <= out.len() {
        if number_fits(n, out.len() - at) {
            return put_any(out, at, n);
        }
    }
    put_digits(out, at, n)
}

// Writes a byte and a number; the next place.
pub fn put_marked(out: &mut [u8], at: usize, mark: u8, n: u64) -> usize
    ensures { Put out.old at (mark ∷ decimal n) out.new result }
{
    let next = put_byte(out, at, mark);
    put_number(out, next, n)
}

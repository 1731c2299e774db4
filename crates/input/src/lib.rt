// Reading an input into a lent buffer, as far as there is room.
#![tactic(auto)]

ghost use Rattle.std.specs.Prelude.{◌≡◌, ◌<◌, ◌≤◌, ℕ, length, take, All, IfOk, IfErr};
ghost use Rattle.std.specs.Io.KnownBytes.{Consumes, IsAtEnd};

use std::io::{self, Read};

// A buffer of zeros. A caller's proof has its length by this contract, and never looks into an array of half a million bytes.
pub fn zeros<const N: usize>() -> [u8; N]
    ensures size { N ≡ length result }
    ensures bytes { All (λ b. b ≡ 0) result }
{
    [0; N]
}

// Reads until the buffer is full or the input ends; how many bytes stand at the start of the buffer. After an error too what the input has lost
// stands there, however much that is. Of the bytes behind it nothing is promised, as no `Read` promises to leave them.
pub fn read_full<R: Read>(reader: &mut R, buf: &mut [u8]) -> io::Result<usize>
    ensures within { IfOk result (λ n. n ≤ length buf.new) }
    ensures bytes { IfOk result (λ n. Consumes (R.remaining reader.old) (R.remaining reader.new) (take n buf.new)) }
    ensures end { IfOk result (λ n. n < length buf.new → IsAtEnd (R.remaining reader.new)) }
    ensures none_lost { IfErr result (λ e. (n : ℕ) × (n ≤ length buf.new) × Consumes (R.remaining reader.old) (R.remaining reader.new) (take n buf.new)) }
{
    let mut done = 0;
    // no method of `Read` fills a lent buffer up to the end of the input: `read_exact` fails there, and `read_to_end` takes memory
    while done < buf.len() {
        let n = reader.read(&mut buf[done..])?;
        if n == 0 {
            return Ok(done);
        }
        done += n;
    }
    Ok(done)
}

#[cfg(test)]
mod tests {
    use super::*;
    use std::test::Fail;

    #[test]
    fn reads_all_of_a_short_input(rt: HostRuntime) -> Result<(), Fail> {
        let mut buf = zeros::<4>();
        let mut short: &[u8] = b"abc";
        assert_eq!(rt; read_full(&mut short, &mut buf)?, 3);
        assert_eq!(rt; buf, *b"abc\0");
        Ok(())
    }

    #[test]
    fn leaves_what_has_no_room(rt: HostRuntime) -> Result<(), Fail> {
        let mut buf = zeros::<4>();
        let mut long: &[u8] = b"abcdef";
        assert_eq!(rt; read_full(&mut long, &mut buf)?, 4);
        assert_eq!(rt; buf, *b"abcd");
        assert_eq!(rt; long, b"ef".as_slice());
        Ok(())
    }
}

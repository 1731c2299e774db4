// A container's name in text (parse.rs, `parse_container`): up to `=` or the container's own closer; a place past the end is taken as the end.
#![tactic(auto)]

ghost use Rattle.std.specs.Prelude.{◌≡◌, [], ◌≤◌, length, drop};
ghost use Rattle.kinds.specs.Parse.{parse_name};
ghost use Rattle.names.specs.Answer.{name_at};
ghost use Rattle.names.specs.Ends.{NameEnd, goes_on};

use kinds::{ContainerKind, ErrorKind, ParseError, verify_name};
use parser::{ByteTest, run_end};

// A byte of the name of a container of this kind.
#[derive(Clone, Copy)]
struct NameByte(ContainerKind);

impl ByteTest for NameByte {
    ghost test = { λ s. goes_on s.0 };

    fn passes(&self, b: u8) -> bool {
        b != b'=' && b != self.0.end_byte()
    }
}

// Where a container's name ends: at `=`, at the container's own closer, or with the text.
fn name_end(text: &[u8], at: usize, kind: ContainerKind) -> usize
    requires { at ≤ length text.now }
    ensures { NameEnd text.now at kind result }
{
    run_end(text, at, &NameByte(kind))
}

// A container's name, checked and not copied: where it ends and the place after it, with `=` passed.
pub fn parse_name(text: &[u8], at: usize, kind: ContainerKind) -> Result<(usize, usize), ParseError>
    ensures { result ≡ name_at text.now at (parse_name kind [] (drop at text.now)) }
{
    let n = text.len();
    if n <= at {
        return Err(ParseError {
            kind: ErrorKind::WrongEndContainer(kind),
            split_point: n,
        });
    }
    let e = name_end(text, at, kind);
    if n <= e {
        return Err(ParseError {
            kind: ErrorKind::WrongEndContainer(kind),
            split_point: e,
        });
    }
    if !verify_name(&text[at..e]) {
        return Err(ParseError {
            kind: ErrorKind::InvalidIdentifier(kind),
            split_point: e,
        });
    }
    if text[e] == b'=' {
        return Ok((e, e + 1));
    }
    Ok((e, e))
}

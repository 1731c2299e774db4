// The reader over the lent text (parse.rs, `Parser`): the whole text and one place in it. Each method takes the struct apart
// and leaves the work to a function on the text and the place.
#![tactic(auto)]

ghost use Rattle.std.specs.Prelude.{ℕ, ◌≡◌, Bool};
ghost use Rattle.kinds.specs.Parse.{is_qualifier, strip_leading_qualifiers};
ghost use Rattle.parser.specs.Place.{lent, place_of, peek_at, is_empty_at, remaining_at, advance_at, strip_at};
ghost use Rattle.parser.specs.Run.{quoted, run_end};
ghost use Rattle.parser.specs.Answer.{new_parser, peek, is_empty, remaining, advance, strip_qualifiers, skip_qualifiers};

#[derive(Clone, Copy)]
pub struct Parser<'a> {
    data: &'a [u8],
    split_point: usize,
}

fn peek_at(text: &[u8], at: usize) -> Option<u8>
    ensures { result ≡ peek_at text.now at }
{
    if at < text.len() {
        Some(text[at])
    } else {
        None
    }
}

fn is_empty_at(text: &[u8], at: usize) -> bool
    ensures { result ≡ is_empty_at text.now at }
{
    text.len() <= at
}

fn remaining_at<'a>(text: &'a [u8], at: usize) -> &'a [u8]
    ensures { lent result ≡ remaining_at text.entry at }
{
    if at <= text.len() {
        &text[at..]
    } else {
        let end = text.len();
        &text[end..]
    }
}

// The end of the text is not passed: there is no byte to take.
fn advance_at(text: &[u8], at: usize) -> usize
    ensures { result ≡ advance_at text.now at }
{
    if at < text.len() { at + 1 } else { at }
}

// A test of a byte; `test` is what it computes.
pub trait ByteTest {
    ghost test: { Self → ℕ → Bool };

    fn passes(&self, b: u8) -> bool
        ensures { result ≡ test self.now b };
}

// The place after the run of bytes from `at` on that pass the test; past the end the place stays.
pub fn run_end<T: ByteTest>(text: &[u8], at: usize, of: &T) -> usize
    ensures { result ≡ run_end (T.test of.now) text.now at }
{
    for i in at..text.len() {
        if !of.passes(text[i]) {
            return i;
        }
    }
    at.max(text.len())
}

const QUALIFIERS: [u8; 7] = *b"rnNoORV";

struct Qualifier;

impl ByteTest for Qualifier {
    ghost test = { λ _. is_qualifier };

    fn passes(&self, b: u8) -> bool {
        QUALIFIERS.contains(&b)
    }
}

// The place after the qualifiers from `at` on; past the end the place stays.
pub fn strip_at(text: &[u8], at: usize) -> usize
    ensures { result ≡ strip_at text.now at }
{
    run_end(text, at, &Qualifier)
}

struct QuotedByte;

impl ByteTest for QuotedByte {
    ghost test = { λ _. quoted };

    fn passes(&self, b: u8) -> bool {
        b != b'"'
    }
}

// The place of the closing quote, or the end of the text.
pub fn quote_end(text: &[u8], at: usize) -> usize
    ensures { result ≡ run_end quoted text.now at }
{
    run_end(text, at, &QuotedByte)
}

impl<'a> Parser<'a> {
    pub fn new(data: &'a [u8]) -> Self
        ensures { result ≡ new_parser «data».entry }
    {
        Parser {
            data,
            split_point: 0,
        }
    }

    // The caller's own text from the place on.
    pub fn remaining(self) -> &'a [u8]
        ensures { lent result ≡ remaining self.entry }
    {
        remaining_at(self.data, self.split_point)
    }

    pub fn peek(self) -> Option<u8>
        ensures { result ≡ peek self.entry }
    {
        peek_at(self.data, self.split_point)
    }

    pub fn is_empty(self) -> bool
        ensures { result ≡ is_empty self.entry }
    {
        is_empty_at(self.data, self.split_point)
    }

    pub fn advance(self) -> Self
        ensures { result ≡ advance self.entry }
    {
        Parser {
            data: self.data,
            split_point: advance_at(self.data, self.split_point),
        }
    }

    pub fn strip_leading_qualifiers(self) -> Self
        ensures { result ≡ strip_qualifiers self.entry }
    {
        Parser {
            data: self.data,
            split_point: strip_at(self.data, self.split_point),
        }
    }
}

// What remains of the text after its leading qualifiers. Its parameters are plain, so a caller of it needs no walk.
pub fn skip_qualifiers<'a>(text: &'a [u8]) -> &'a [u8]
    ensures { lent result ≡ skip_qualifiers text.entry }
{
    Parser::new(text).strip_leading_qualifiers().remaining()
}

// The place after the leading qualifiers.
pub fn strip_leading_qualifiers(text: &[u8]) -> usize
    ensures { result ≡ place_of text.now (strip_leading_qualifiers text.now) }
{
    let rest = skip_qualifiers(text);
    text.len() - rest.len()
}

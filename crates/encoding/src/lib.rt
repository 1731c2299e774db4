// The tree's own operations (encoding.rs, `Encoding`).
#![tactic(auto)]

ghost use Rattle.std.specs.Prelude.{◌≡◌, false};
ghost use Rattle.expect.specs.Answer.{compared};
ghost use Rattle.helper.specs.Answer.{size_answer, compare_answer};

use helper::compare_encodings;
use kinds::Refusal;

// Whether the tree in the first sheet matches that in the second, by levels.
pub fn equivalent_to(aw: &[u64], an: &[u8], bw: &[u64], bn: &[u8]) -> Result<bool, Refusal>
    ensures { result ≡ compare_answer false aw.now an.now bw.now bn.now }
{
    compare_encodings(aw, an, bw, bn, false)
}

// The same; in Rust the second tree is then an `EncodingBox`, which is a sheet too.
pub fn equivalent_to_box(aw: &[u64], an: &[u8], bw: &[u64], bn: &[u8]) -> Result<bool, Refusal>
    ensures { result ≡ compare_answer false aw.now an.now bw.now bn.now }
{
    equivalent_to(aw, an, bw, bn)
}

// Whether the tree in a sheet matches a text, which is not read but walked along the tree.
pub fn equivalent_to_str(words: &[u64], names: &[u8], text: &[u8]) -> Result<bool, Refusal>
    ensures { result ≡ compared words.now names.now text.now }
{
    expect::equivalent_to_str(words, names, text)
}

// The size of the tree in a sheet, in a row: on 64-bit Apple ARM, the machine that the Rust's sizes are taken from, in row 0.
pub fn size(words: &[u64], names: &[u8], row: u64) -> Result<Option<u64>, Refusal>
    ensures { result ≡ size_answer row words.now names.now }
{
    helper::size(words, names, row)
}

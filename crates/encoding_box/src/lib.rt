// Reading a tree, and `==` between `Encoding` and `EncodingBox` (encoding_box.rs).
#![tactic(auto)]

ghost use Rattle.std.specs.Prelude.{◌≡◌, true};
ghost use Rattle.helper.specs.Answer.{compare_answer};
ghost use Rattle.parse.specs.Answer.{answer_words, from_str_answer, from_str_words, from_str_names, from_start_answer, from_start_words, from_start_names, from_start_rest, EndOf};
ghost use Rattle.parse.specs.Answer.{from_str_strict_answer, from_str_strict_words, from_str_strict_names};

use helper::compare_encodings;
use kinds::Refusal;

// The tree of a whole text, into lent lists.
pub fn from_str(text: &[u8], words: &mut [u64], names: &mut [u8]) -> Result<(), Refusal>
    ensures answers { result ≡ from_str_answer text.now words.old names.old }
    ensures fills { words.new ≡ from_str_words text.now words.old names.old }
    ensures names { names.new ≡ from_str_names text.now words.old names.old }
{
    parse::from_str(text, words, names)
}

// The same, but a number with a surplus zero is refused.
pub fn from_str_strict(text: &[u8], words: &mut [u64], names: &mut [u8]) -> Result<(), Refusal>
    ensures answers { result ≡ from_str_strict_answer text.now words.old names.old }
    ensures fills { words.new ≡ from_str_strict_words text.now words.old names.old }
    ensures names { names.new ≡ from_str_strict_names text.now words.old names.old }
{
    parse::from_str_strict(text, words, names)
}

// The tree of the type that a text begins with, into lent lists; the rest is handed back. The answer is 0 for a tree and else the
// refusal's number, place, byte and container.
pub fn from_start_of_str<'a>(
    text: &'a [u8],
    words: &mut [u64],
    names: &mut [u8],
    answer: &mut [u64; 4],
) -> &'a [u8]
    ensures rest { result.now ≡ from_start_rest text.now words.old names.old }
    ensures part { EndOf text.entry result }
    ensures answers { answer.new ≡ answer_words (from_start_answer text.now words.old names.old) }
    ensures fills { words.new ≡ from_start_words text.now words.old names.old }
    ensures names { names.new ≡ from_start_names text.now words.old names.old }
{
    parse::from_start_of_str(text, words, names, answer)
}

// Whether the trees in two sheets match with all fields, every node at top. Both are sheets here, so this serves either order of the two types.
pub fn eq(aw: &[u64], an: &[u8], bw: &[u64], bn: &[u8]) -> Result<bool, Refusal>
    ensures { result ≡ compare_answer true aw.now an.now bw.now bn.now }
{
    compare_encodings(aw, an, bw, bn, true)
}

// The functions that programs in C and Rust call: thin layers over the crates below. Each returns 0 where the input is accepted, else document 01's
// number of the refusal; the other values go into a lent array.
#![tactic(auto)]

ghost use Rattle.std.specs.Prelude.{◌≡◌, true, false, length};
ghost use Rattle.parse.specs.Answer.{from_str_answer, from_str_words, from_str_names, from_start_answer, from_start_words, from_start_names};
ghost use Rattle.parse.specs.Answer.{from_str_strict_answer, from_str_strict_words, from_str_strict_names};
ghost use Rattle.expect.specs.Answer.{compared};
ghost use Rattle.helper.specs.Answer.{size_answer, compare_answer};
ghost use Rattle.layout.specs.Answer.{layout_answer, layout_list};
ghost use Rattle.reason.specs.Answer.{reason_len, reason_answer, reason_output};
ghost use Rattle.signature.specs.Answer.{signature_answer, signature_list};
ghost use Rattle.static_str.specs.Answer.{encoding_len, encoding_array, encoding_output};
ghost use Rattle.berzhotun.specs.Answer.{size_number, size_values, compare_number, compare_values, print_number, print_values, read_number, read_values, rest_place, signature_number, signature_values};
ghost use Rattle.berzhotun.specs.Answer.{reason_number, reason_values, layout_number, layout_values};

use kinds::Refusal;
use layout::LaidOut;

// What an answer looks like in a lent array is fixed in C's header, for each its own way: so each has a function.

// A comparison's answer as numbers.
fn give_compared(c: Result<bool, Refusal>, answer: &mut [u64; 1]) -> u64
    ensures returns { result ≡ compare_number c }
    ensures answers { answer.new ≡ compare_values c }
{
    match c {
        Err(why) => {
            *answer = [0];
            why.number()
        }
        Ok(yes) => {
            if yes {
                *answer = [1];
            } else {
                *answer = [0];
            }
            0
        }
    }
}

// A length as numbers.
fn give_printed(p: Result<usize, Refusal>, answer: &mut [u64; 1]) -> u64
    ensures returns { result ≡ print_number p }
    ensures answers { answer.new ≡ print_values p }
{
    match p {
        Err(why) => {
            *answer = [0];
            why.number()
        }
        Ok(n) => {
            *answer = [n as u64];
            0
        }
    }
}

// A size as numbers.
fn give_sized(s: Result<Option<u64>, Refusal>, answer: &mut [u64; 2]) -> u64
    ensures returns { result ≡ size_number s }
    ensures answers { answer.new ≡ size_values s }
{
    match s {
        Err(why) => {
            *answer = [0, 0];
            why.number()
        }
        Ok(None) => {
            *answer = [0, 0];
            0
        }
        Ok(Some(n)) => {
            *answer = [1, n];
            0
        }
    }
}

// A reason's answer as numbers.
fn give_reasoned(reasoned: Result<Option<usize>, Refusal>, answer: &mut [u64; 2]) -> u64
    ensures returns { result ≡ reason_number reasoned }
    ensures answers { answer.new ≡ reason_values reasoned }
{
    match reasoned {
        Err(why) => {
            *answer = [0, 0];
            why.number()
        }
        Ok(None) => {
            *answer = [1, 0];
            0
        }
        Ok(Some(n)) => {
            *answer = [0, n as u64];
            0
        }
    }
}

// A whole-text reading's answer as numbers.
fn give_reading(reading: Result<(), Refusal>, values: &mut [u64; 3]) -> u64
    ensures returns { result ≡ read_number reading }
    ensures answers { values.new ≡ read_values 0 reading }
{
    match reading {
        Ok(()) => {
            *values = [0, 0, 0];
            0
        }
        Err(why) => {
            *values = why.values();
            why.number()
        }
    }
}

// A signature's answer as numbers.
fn give_signature(reading: Result<usize, Refusal>, values: &mut [u64; 3]) -> u64
    ensures returns { result ≡ signature_number reading }
    ensures answers { values.new ≡ signature_values reading }
{
    match reading {
        Ok(k) => {
            *values = [k as u64, 0, 0];
            0
        }
        Err(why) => {
            *values = why.values();
            why.number()
        }
    }
}

// A layout's answer as numbers.
fn give_laid_out(laid: LaidOut, answer: &mut [u64; 3]) -> u64
    ensures returns { result ≡ layout_number laid }
    ensures answers { answer.new ≡ layout_values laid }
{
    match laid {
        Err(why) => {
            *answer = why.values();
            why.number()
        }
        Ok(None) => {
            *answer = [0, 0, 0];
            0
        }
        Ok(Some((size, alignment))) => {
            *answer = [1, size, alignment];
            0
        }
    }
}

#[unsafe(no_mangle)]
pub extern "C" fn berzhotun_size(
    words: &[u64],
    names: &[u8],
    row: u64,
    answer: &mut [u64; 2],
) -> u64
    ensures returns { result ≡ size_number (size_answer row words.now names.now) }
    ensures answers { answer.new ≡ size_values (size_answer row words.now names.now) }
{
    give_sized(encoding::size(words, names, row), answer)
}

#[unsafe(no_mangle)]
pub extern "C" fn berzhotun_equivalent_to(
    aw: &[u64],
    an: &[u8],
    bw: &[u64],
    bn: &[u8],
    answer: &mut [u64; 1],
) -> u64
    ensures returns { result ≡ compare_number (compare_answer false aw.now an.now bw.now bn.now) }
    ensures answers { answer.new ≡ compare_values (compare_answer false aw.now an.now bw.now bn.now) }
{
    give_compared(encoding::equivalent_to(aw, an, bw, bn), answer)
}

#[unsafe(no_mangle)]
pub extern "C" fn berzhotun_equivalent_to_box(
    aw: &[u64],
    an: &[u8],
    bw: &[u64],
    bn: &[u8],
    answer: &mut [u64; 1],
) -> u64
    ensures returns { result ≡ compare_number (compare_answer false aw.now an.now bw.now bn.now) }
    ensures answers { answer.new ≡ compare_values (compare_answer false aw.now an.now bw.now bn.now) }
{
    give_compared(encoding::equivalent_to_box(aw, an, bw, bn), answer)
}

#[unsafe(no_mangle)]
pub extern "C" fn berzhotun_eq(
    aw: &[u64],
    an: &[u8],
    bw: &[u64],
    bn: &[u8],
    answer: &mut [u64; 1],
) -> u64
    ensures returns { result ≡ compare_number (compare_answer true aw.now an.now bw.now bn.now) }
    ensures answers { answer.new ≡ compare_values (compare_answer true aw.now an.now bw.now bn.now) }
{
    give_compared(encoding_box::eq(aw, an, bw, bn), answer)
}

#[unsafe(no_mangle)]
pub extern "C" fn berzhotun_reason_len(
    aw: &[u64],
    an: &[u8],
    bw: &[u64],
    bn: &[u8],
    answer: &mut [u64; 2],
) -> u64
    ensures returns { result ≡ reason_number (reason_len false aw.now an.now bw.now bn.now) }
    ensures answers { answer.new ≡ reason_values (reason_len false aw.now an.now bw.now bn.now) }
{
    give_reasoned(reason::reason_len(aw, an, bw, bn, false), answer)
}

#[unsafe(no_mangle)]
pub extern "C" fn berzhotun_reason(
    aw: &[u64],
    an: &[u8],
    bw: &[u64],
    bn: &[u8],
    out: &mut [u8],
    answer: &mut [u64; 2],
) -> u64
    ensures returns { result ≡ reason_number (reason_answer false aw.now an.now bw.now bn.now (length out.old)) }
    ensures answers { answer.new ≡ reason_values (reason_answer false aw.now an.now bw.now bn.now (length out.old)) }
    ensures writes { out.new ≡ reason_output false aw.now an.now bw.now bn.now out.old }
{
    give_reasoned(reason::reason(aw, an, bw, bn, false, out), answer)
}

#[unsafe(no_mangle)]
pub extern "C" fn berzhotun_reason_all_len(
    aw: &[u64],
    an: &[u8],
    bw: &[u64],
    bn: &[u8],
    answer: &mut [u64; 2],
) -> u64
    ensures returns { result ≡ reason_number (reason_len true aw.now an.now bw.now bn.now) }
    ensures answers { answer.new ≡ reason_values (reason_len true aw.now an.now bw.now bn.now) }
{
    give_reasoned(reason::reason_len(aw, an, bw, bn, true), answer)
}

#[unsafe(no_mangle)]
pub extern "C" fn berzhotun_reason_all(
    aw: &[u64],
    an: &[u8],
    bw: &[u64],
    bn: &[u8],
    out: &mut [u8],
    answer: &mut [u64; 2],
) -> u64
    ensures returns { result ≡ reason_number (reason_answer true aw.now an.now bw.now bn.now (length out.old)) }
    ensures answers { answer.new ≡ reason_values (reason_answer true aw.now an.now bw.now bn.now (length out.old)) }
    ensures writes { out.new ≡ reason_output true aw.now an.now bw.now bn.now out.old }
{
    give_reasoned(reason::reason(aw, an, bw, bn, true, out), answer)
}

#[unsafe(no_mangle)]
pub extern "C" fn berzhotun_static_encoding_str_len(
    words: &[u64],
    names: &[u8],
    answer: &mut [u64; 1],
) -> u64
    ensures returns { result ≡ print_number (encoding_len words.now names.now) }
    ensures answers { answer.new ≡ print_values (encoding_len words.now names.now) }
{
    give_printed(static_str::static_encoding_str_len(words, names), answer)
}

#[unsafe(no_mangle)]
pub extern "C" fn berzhotun_static_encoding_str_array(
    words: &[u64],
    names: &[u8],
    out: &mut [u8],
    answer: &mut [u64; 1],
) -> u64
    ensures returns { result ≡ print_number (encoding_array words.now names.now (length out.old)) }
    ensures answers { answer.new ≡ print_values (encoding_array words.now names.now (length out.old)) }
    ensures writes { out.new ≡ encoding_output words.now names.now out.old }
{
    give_printed(
        static_str::static_encoding_str_array(words, names, out),
        answer,
    )
}

#[unsafe(no_mangle)]
pub extern "C" fn berzhotun_from_str(
    text: &[u8],
    words: &mut [u64],
    names: &mut [u8],
    values: &mut [u64; 3],
) -> u64
    ensures returns { result ≡ read_number (from_str_answer text.now words.old names.old) }
    ensures answers { values.new ≡ read_values 0 (from_str_answer text.now words.old names.old) }
    ensures fills { words.new ≡ from_str_words text.now words.old names.old }
    ensures names { names.new ≡ from_str_names text.now words.old names.old }
{
    give_reading(encoding_box::from_str(text, words, names), values)
}

#[unsafe(no_mangle)]
pub extern "C" fn berzhotun_from_str_strict(
    text: &[u8],
    words: &mut [u64],
    names: &mut [u8],
    values: &mut [u64; 3],
) -> u64
    ensures returns { result ≡ read_number (from_str_strict_answer text.now words.old names.old) }
    ensures answers { values.new ≡ read_values 0 (from_str_strict_answer text.now words.old names.old) }
    ensures fills { words.new ≡ from_str_strict_words text.now words.old names.old }
    ensures names { names.new ≡ from_str_strict_names text.now words.old names.old }
{
    give_reading(encoding_box::from_str_strict(text, words, names), values)
}

// The rest goes out as the place where it begins: the caller has the text.
#[unsafe(no_mangle)]
pub extern "C" fn berzhotun_from_start_of_str(
    text: &[u8],
    words: &mut [u64],
    names: &mut [u8],
    values: &mut [u64; 3],
) -> u64
    ensures returns { result ≡ read_number (from_start_answer text.now words.old names.old) }
    ensures answers { values.new ≡ read_values (rest_place text.now words.old names.old) (from_start_answer text.now words.old names.old) }
    ensures fills { words.new ≡ from_start_words text.now words.old names.old }
    ensures names { names.new ≡ from_start_names text.now words.old names.old }
{
    let mut answer = [0; 4];
    let rest = encoding_box::from_start_of_str(text, words, names, &mut answer);
    // Less than the whole text is left only by a tree; a tree of no byte has the place 0 among its words.
    if rest.len() == text.len() {
        *values = [answer[1], answer[2], answer[3]];
        return answer[0];
    }
    *values = [(text.len() - rest.len()) as u64, 0, 0];
    0
}

#[unsafe(no_mangle)]
pub extern "C" fn berzhotun_equivalent_to_str(
    words: &[u64],
    names: &[u8],
    text: &[u8],
    answer: &mut [u64; 1],
) -> u64
    ensures returns { result ≡ compare_number (compared words.now names.now text.now) }
    ensures answers { answer.new ≡ compare_values (compared words.now names.now text.now) }
{
    give_compared(encoding::equivalent_to_str(words, names, text), answer)
}

#[unsafe(no_mangle)]
pub extern "C" fn berzhotun_signature(text: &[u8], list: &mut [u64], values: &mut [u64; 3]) -> u64
    ensures returns { result ≡ signature_number (signature_answer text.now list.old) }
    ensures answers { values.new ≡ signature_values (signature_answer text.now list.old) }
    ensures fills { list.new ≡ signature_list text.now list.old }
{
    give_signature(signature::parse_signature(text, list), values)
}

#[unsafe(no_mangle)]
pub extern "C" fn berzhotun_layout(
    words: &[u64],
    names: &[u8],
    row: u64,
    offsets: &mut [u64],
    answer: &mut [u64; 3],
) -> u64
    ensures returns { result ≡ layout_number (layout_answer row words.now names.now offsets.old) }
    ensures answers { answer.new ≡ layout_values (layout_answer row words.now names.now offsets.old) }
    ensures fills { offsets.new ≡ layout_list row words.now names.now offsets.old }
{
    give_laid_out(layout::layout(words, names, row, offsets), answer)
}

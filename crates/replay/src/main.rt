// Answers the questions on standard input with the library, a line each, as the oracle answers them with the crate
// (oracle/README.md). At most 524,288 bytes of questions are read, and an answer has at most 65,536 bytes.
#![tactic(auto)]

use input::{read_full, zeros};
use kinds::{MAX_TEXT, Refusal};
use sheet::MAX_WORDS;
use std::io;

// The most bytes of questions, of a text in one, which may be longer than any that is read, and of an answer.
const MAX_INPUT: usize = 524288;

const MAX_DECODED: usize = 32768;

const MAX_ANSWER: usize = 65536;

// Why no tree stands in the lent lists: the text was turned away, or the question is bad.
#[derive(Clone, Copy)]
enum NotLoaded {
    Unread(Refusal),
    Bad,
}

impl From<Refusal> for NotLoaded {
    fn from(why: Refusal) -> NotLoaded {
        NotLoaded::Unread(why)
    }
}

// A text: `t:` and its bytes in hex.
fn load_text(argument: &[u8], text: &mut [u8]) -> Option<usize> {
    if !matches!(lines::field(argument, b':'), b"t") {
        return None;
    }
    lines::decode_hex(lines::rest(argument, b':'), text)
}

// A sheet: its words in decimal with commas, `:`, its name bytes in hex.
fn load_sheet(sheet: &[u8], words: &mut [u64], names: &mut [u8]) -> Option<()> {
    lines::decode_words(lines::field(sheet, b':'), words)?;
    lines::decode_hex(lines::rest(sheet, b':'), names)?;
    Some(())
}

// A tree: a sheet, or a text, which is read.
fn load_tree(
    argument: &[u8],
    text: &mut [u8],
    words: &mut [u64],
    names: &mut [u8],
) -> Result<(), NotLoaded> {
    if matches!(lines::field(argument, b':'), b"s") {
        return load_sheet(lines::rest(argument, b':'), words, names).ok_or(NotLoaded::Bad);
    }
    let n = load_text(argument, text).ok_or(NotLoaded::Bad)?;
    encoding_box::from_str(lines::front(text, n), words, names)?;
    Ok(())
}

// Two trees, or why there are not two.
fn load_trees(
    arguments: &[u8],
    text: &mut [u8],
    aw: &mut [u64],
    an: &mut [u8],
    bw: &mut [u64],
    bn: &mut [u8],
) -> Result<(), NotLoaded> {
    load_tree(lines::field(arguments, b' '), text, aw, an)?;
    load_tree(lines::rest(arguments, b' '), text, bw, bn)
}

// The answer where no tree could be loaded.
fn put_not_loaded(out: &mut [u8], why: NotLoaded) -> usize {
    match why {
        NotLoaded::Unread(refusal) => put_refused(out, b"unread ", refusal),
        NotLoaded::Bad => put_bad_line(out),
    }
}

fn put_bad_line(out: &mut [u8]) -> usize {
    lines::put_bytes(out, 0, b"bad line")
}

// A word and a refusal's number and values.
fn put_refused(out: &mut [u8], word: &[u8], why: Refusal) -> usize {
    let at = lines::put_bytes(out, 0, word);
    lines::put_refusal(out, at, why)
}

fn put_yes_no(out: &mut [u8], at: usize, answer: bool) -> usize {
    if answer {
        return lines::put_bytes(out, at, b"yes");
    }
    lines::put_bytes(out, at, b"no")
}

fn put_compared(out: &mut [u8], at: usize, compared: Result<bool, Refusal>) -> usize {
    match compared {
        Err(why) => put_refused(out, b"refused ", why),
        Ok(answer) => put_yes_no(out, at, answer),
    }
}

fn answer_read(reading: Result<(), Refusal>, words: &[u64], names: &[u8], out: &mut [u8]) -> usize {
    match reading {
        Err(why) => put_refused(out, b"no ", why),
        Ok(()) => {
            let at = lines::put_bytes(out, 0, b"ok ");
            lines::put_sheet(out, at, words, names)
        }
    }
}

fn answer_start(text: &[u8], words: &mut [u64], names: &mut [u8], out: &mut [u8]) -> usize {
    let mut answer = [0u64; 4];
    let rest = encoding_box::from_start_of_str(text, words, names, &mut answer);
    if answer[0] == 0 {
        let at = lines::put_bytes(out, 0, b"ok ");
        let to = lines::put_sheet(out, at, words, names);
        // where the rest begins
        let place = text.len().saturating_sub(rest.len());
        return lines::put_marked(out, to, b' ', place as u64);
    }
    let at = lines::put_bytes(out, 0, b"no");
    let number = lines::put_marked(out, at, b' ', answer[0]);
    let place = lines::put_marked(out, number, b' ', answer[1]);
    let byte = lines::put_marked(out, place, b' ', answer[2]);
    lines::put_marked(out, byte, b' ', answer[3])
}

// The three numbers of each entry.
fn put_entries(out: &mut [u8], at: usize, list: &[u64], n: u16) -> usize {
    let mut to = at;
    for k in 0..n {
        let i = 3 * (k as usize);
        let start = lines::put_marked(out, to, b' ', lines::word_at(list, i));
        let size = lines::put_marked(out, start, b',', lines::word_at(list, i + 1));
        to = lines::put_marked(out, size, b',', lines::word_at(list, i + 2));
    }
    to
}

fn answer_signature(text: &[u8], list: &mut [u64], out: &mut [u8]) -> usize {
    match signature::parse_signature(text, list) {
        Err(why) => put_refused(out, b"no ", why),
        Ok(n) => {
            let at = lines::put_bytes(out, 0, b"ok");
            put_entries(out, at, list, (n % 65536) as u16)
        }
    }
}

// The size in a row; a refusal begins with `word`.
fn answer_size(row: u64, word: &[u8], words: &[u64], names: &[u8], out: &mut [u8]) -> usize {
    match encoding::size(words, names, row) {
        Err(why) => put_refused(out, word, why),
        Ok(None) => lines::put_bytes(out, 0, b"none"),
        Ok(Some(n)) => {
            let at = lines::put_bytes(out, 0, b"bytes ");
            lines::put_number(out, at, n)
        }
    }
}

// The numbers of `n` nodes.
fn put_offsets(out: &mut [u8], at: usize, list: &[u64], n: u16) -> usize {
    let mut to = lines::put_marked(out, at, b' ', lines::word_at(list, 0));
    for k in 1..n {
        to = lines::put_marked(out, to, b',', lines::word_at(list, k as usize));
    }
    to
}

fn answer_layout(
    row: u64,
    words: &[u64],
    names: &[u8],
    offsets: &mut [u64],
    out: &mut [u8],
) -> usize {
    match layout::layout(words, names, row, offsets) {
        Err(why) => put_refused(out, b"no ", why),
        Ok(None) => lines::put_bytes(out, 0, b"none"),
        Ok(Some((n, alignment))) => {
            let at = lines::put_bytes(out, 0, b"ok");
            let bytes = lines::put_marked(out, at, b' ', n);
            let to = lines::put_marked(out, bytes, b' ', alignment);
            put_offsets(out, to, offsets, (lines::word_at(words, 0) % 65536) as u16)
        }
    }
}

fn answer_length(words: &[u64], names: &[u8], out: &mut [u8]) -> usize {
    match static_str::static_encoding_str_len(words, names) {
        Err(why) => put_refused(out, b"refused ", why),
        Ok(n) => lines::put_number(out, 0, n as u64),
    }
}

fn answer_print(words: &[u64], names: &[u8], text: &mut [u8], out: &mut [u8]) -> usize {
    match static_str::static_encoding_str_array(words, names, text) {
        Err(why) => put_refused(out, b"refused ", why),
        Ok(n) => {
            let at = lines::put_bytes(out, 0, b"t:");
            lines::put_hex(out, at, lines::front(text, n))
        }
    }
}

// Both ways round, as `==` takes an `Encoding` and a box or the reverse.
fn answer_equal(aw: &[u64], an: &[u8], bw: &[u64], bn: &[u8], out: &mut [u8]) -> usize {
    let first = put_compared(out, 0, encoding_box::eq(aw, an, bw, bn));
    let second = lines::put_bytes(out, first, b" ");
    put_compared(out, second, encoding_box::eq(bw, bn, aw, an))
}

fn answer_text(words: &[u64], names: &[u8], text: &[u8], out: &mut [u8]) -> usize {
    put_compared(out, 0, encoding::equivalent_to_str(words, names, text))
}

// The reason's bytes go into `text` first.
fn answer_reason(
    aw: &[u64],
    an: &[u8],
    bw: &[u64],
    bn: &[u8],
    all: bool,
    text: &mut [u8],
    out: &mut [u8],
) -> usize {
    match reason::reason(aw, an, bw, bn, all, text) {
        Err(why) => put_refused(out, b"refused ", why),
        Ok(None) => put_yes_no(out, 0, true),
        Ok(Some(n)) => {
            let at = lines::put_bytes(out, 0, b"no ");
            lines::put_hex(out, at, lines::front(text, n))
        }
    }
}

fn is_reading(question: &[u8]) -> bool {
    matches!(question, b"read" | b"read-strict" | b"signature" | b"start")
}

fn answer_reading(
    question: &[u8],
    argument: &[u8],
    text: &mut [u8],
    words: &mut [u64],
    names: &mut [u8],
    out: &mut [u8],
) -> usize {
    let Some(n) = load_text(argument, text) else {
        return put_bad_line(out);
    };
    let given = lines::front(text, n);
    match question {
        b"start" => answer_start(given, words, names, out),
        b"signature" => answer_signature(given, words, out),
        b"read-strict" => {
            let strict = encoding_box::from_str_strict(given, words, names);
            answer_read(strict, words, names, out)
        }
        _ => {
            let reading = encoding_box::from_str(given, words, names);
            answer_read(reading, words, names, out)
        }
    }
}

fn answer_matching(
    arguments: &[u8],
    text: &mut [u8],
    words: &mut [u64],
    names: &mut [u8],
    out: &mut [u8],
) -> usize {
    match load_tree(lines::field(arguments, b' '), text, words, names) {
        Err(why) => put_not_loaded(out, why),
        Ok(()) => {
            let Some(n) = load_text(lines::rest(arguments, b' '), text) else {
                return put_bad_line(out);
            };
            answer_text(words, names, lines::front(text, n), out)
        }
    }
}

fn answer_one(
    question: &[u8],
    words: &[u64],
    names: &[u8],
    text: &mut [u8],
    out: &mut [u8],
) -> usize {
    match question {
        b"size" => answer_size(0, b"refused ", words, names, out),
        b"length" => answer_length(words, names, out),
        b"print" => answer_print(words, names, text, out),
        _ => put_bad_line(out),
    }
}

fn answer_tree(
    question: &[u8],
    argument: &[u8],
    text: &mut [u8],
    words: &mut [u64],
    names: &mut [u8],
    out: &mut [u8],
) -> usize {
    match load_tree(argument, text, words, names) {
        Err(why) => put_not_loaded(out, why),
        Ok(()) => answer_one(question, words, names, text, out),
    }
}

fn is_by_row(question: &[u8]) -> bool {
    matches!(question, b"size-in" | b"layout")
}

// A row's number in decimal, then a tree.
fn answer_by_row(
    question: &[u8],
    arguments: &[u8],
    text: &mut [u8],
    words: &mut [u64],
    names: &mut [u8],
    list: &mut [u64],
    out: &mut [u8],
) -> usize {
    let mut row = [0u64; 1];
    let digits = lines::field(arguments, b' ');
    if digits.len() == 0 {
        return put_bad_line(out);
    }
    let Some(_) = lines::decode_words(digits, &mut row) else {
        return put_bad_line(out);
    };
    match load_tree(lines::rest(arguments, b' '), text, words, names) {
        Err(why) => put_not_loaded(out, why),
        Ok(()) => match question {
            b"layout" => answer_layout(row[0], words, names, list, out),
            _ => answer_size(row[0], b"no ", words, names, out),
        },
    }
}

fn is_comparison(question: &[u8]) -> bool {
    matches!(
        question,
        b"equivalent" | b"equivalent-box" | b"reason" | b"reason-all" | b"equal"
    )
}

fn answer_two(
    question: &[u8],
    aw: &[u64],
    an: &[u8],
    bw: &[u64],
    bn: &[u8],
    text: &mut [u8],
    out: &mut [u8],
) -> usize {
    match question {
        b"equal" => answer_equal(aw, an, bw, bn, out),
        b"equivalent-box" => put_compared(out, 0, encoding::equivalent_to_box(aw, an, bw, bn)),
        b"reason" => answer_reason(aw, an, bw, bn, false, text, out),
        b"reason-all" => answer_reason(aw, an, bw, bn, true, text, out),
        _ => put_compared(out, 0, encoding::equivalent_to(aw, an, bw, bn)),
    }
}

fn answer_trees(
    question: &[u8],
    arguments: &[u8],
    text: &mut [u8],
    aw: &mut [u64],
    an: &mut [u8],
    bw: &mut [u64],
    bn: &mut [u8],
    out: &mut [u8],
) -> usize {
    match load_trees(arguments, text, aw, an, bw, bn) {
        Err(why) => put_not_loaded(out, why),
        Ok(()) => answer_two(question, aw, an, bw, bn, text, out),
    }
}

// Puts the answer to a question into `out`; its length.
fn answer(
    line: &[u8],
    text: &mut [u8],
    aw: &mut [u64],
    an: &mut [u8],
    bw: &mut [u64],
    bn: &mut [u8],
    out: &mut [u8],
) -> usize {
    let question = lines::field(line, b' ');
    let arguments = lines::rest(line, b' ');
    if is_reading(question) {
        return answer_reading(question, arguments, text, aw, an, out);
    }
    if matches!(question, b"text") {
        return answer_matching(arguments, text, aw, an, out);
    }
    if is_by_row(question) {
        return answer_by_row(question, arguments, text, aw, an, bw, out);
    }
    if is_comparison(question) {
        return answer_trees(question, arguments, text, aw, an, bw, bn, out);
    }
    answer_tree(question, arguments, text, aw, an, out)
}

// Writes the answer to a question, and a line end.
fn write_answer(
    rt: &impl Print,
    line: &[u8],
    text: &mut [u8],
    aw: &mut [u64],
    an: &mut [u8],
    bw: &mut [u64],
    bn: &mut [u8],
    out: &mut [u8],
) -> io::Result<()> {
    let n = answer(line, text, aw, an, bw, bn, out);
    let end = lines::put_bytes(out, n, b"\n");
    rt.write_all(lines::front(out, end))
}

fn write_answers(
    rt: &impl Print,
    input: &[u8],
    text: &mut [u8],
    aw: &mut [u64],
    an: &mut [u8],
    bw: &mut [u64],
    bn: &mut [u8],
    out: &mut [u8],
) -> io::Result<()> {
    for line in input.split_inclusive(|b| *b == b'\n') {
        write_answer(rt, lines::field(line, b'\n'), text, aw, an, bw, bn, out)?;
    }
    Ok(())
}

fn main(rt: HostRuntime) -> io::Result<()> {
    let mut input = zeros::<MAX_INPUT>();
    let n = read_full(&mut rt.reader(), &mut input)?;
    let mut text = [0u8; MAX_DECODED];
    let mut aw = [0u64; MAX_WORDS];
    let mut an = [0u8; MAX_TEXT];
    let mut bw = [0u64; MAX_WORDS];
    let mut bn = [0u8; MAX_TEXT];
    let mut out = [0u8; MAX_ANSWER];
    write_answers(
        &rt,
        &input[..n],
        &mut text,
        &mut aw,
        &mut an,
        &mut bw,
        &mut bn,
        &mut out,
    )
}

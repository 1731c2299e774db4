// Answers a command on the command line, or commands from standard input, a line each. At most 524,288 bytes of
// commands are read.
#![tactic(auto)]

use input::{read_full, zeros};
use kinds::{MAX_TEXT, ROWS, Refusal};
use sheet::{Found, MAX_WORDS};
use std::env::{Env, FillError};
use std::io::{self, Input};

// The most bytes of commands from standard input.
const MAX_INPUT: usize = 524288;

// The most bytes of a text on the command line: more than of any that is read.
const MAX_ARGUMENT: usize = 4096;

// The most bytes of a line that is written.
const MAX_LINE: usize = 8192;

// The most nodes of a tree.
const MAX_NODES: usize = MAX_TEXT + 1;

// The most numbers that a signature uses: three for each entry.
const MAX_NUMBERS: usize = 3 * (MAX_TEXT / 2);

fn say(rt: &impl Print, s: &[u8]) -> io::Result<()> {
    rt.write_all(s)
}

// Ends a line in the output, and writes it.
fn say_line(rt: &impl Print, out: &mut [u8], at: usize) -> io::Result<()> {
    let end = lines::put_bytes(out, at, b"\n");
    say(rt, lines::front(out, end))
}

// The commands, a line each. `\x20` is a space that the line break before it does not take away.
fn say_usage(rt: &impl Print) -> io::Result<()> {
    say(
        rt,
        b"usage: berzhotun read TEXT          the tree, a node a line\n\
            \x20      berzhotun read-strict TEXT   the same, but a number with a surplus zero is refused\n\
            \x20      berzhotun start TEXT         the tree of the type at the start of TEXT, and the rest\n\
            \x20      berzhotun print TEXT         the printed text of the tree\n\
            \x20      berzhotun size TEXT [ROW]    its size in each row, or in one: 0, 1, 2 or 3\n\
            \x20      berzhotun layout TEXT [ROW]  where each field lies, and the padding, in a row: 0 if none is given\n\
            \x20      berzhotun compare A B        whether the trees of A and B are equivalent, by levels, or where they differ\n\
            \x20      berzhotun compare-all A B    the same with all fields\n\
            \x20      berzhotun reason A B         the same for programs: yes, or the first difference in bytes\n\
            \x20      berzhotun reason-all A B     the same with all fields\n\
            \x20      berzhotun match A TEXT       whether the tree of A is equivalent to TEXT\n\
            \x20      berzhotun signature TEXT     the types of a method's signature with their numbers, a line each\n\
            \x20      berzhotun -                  commands from standard input, a line each\n",
    )
}

// Names what is wrong with a command, on standard error.
fn complain(err: &impl Print, command: &[u8], why: &[u8]) -> io::Result<()> {
    err.write_all(b"berzhotun: '")?;
    err.write_all(command)?;
    err.write_all(why)
}

fn say_refused(rt: &impl Print, text: &[u8], why: &[u64; 4]) -> io::Result<()> {
    let mut out = [0u8; MAX_LINE];
    let at = show::put_refused(&mut out, text, why);
    say_line(rt, &mut out, at)
}

fn say_decided(rt: &impl Print, answer: bool) -> io::Result<()> {
    if answer {
        say(rt, b"yes\n")
    } else {
        say(rt, b"no\n")
    }
}

fn say_node(rt: &impl Print, nodes: &[u64], names: &[u8], i: u16, last: u16) -> io::Result<()> {
    let mut out = [0u8; MAX_LINE];
    let at = show::put_node(&mut out, nodes, names, i, last);
    say_line(rt, &mut out, at)
}

fn say_nodes(rt: &impl Print, nodes: &[u64], names: &[u8], n: u16) -> io::Result<()> {
    for i in 0..n {
        say_node(rt, nodes, names, i, n - 1)?;
    }
    Ok(())
}

// The words from the place `first` on, or none.
fn from(words: &[u64], first: usize) -> &[u64] {
    if first <= words.len() {
        return &words[first..];
    }
    &words[0..0]
}

fn say_tree(rt: &impl Print, words: &[u64], names: &[u8]) -> io::Result<()> {
    match sheet::check(words, names) {
        Err(_) => Ok(()),
        Ok(Found::Code(first, _)) => say_nodes(rt, from(words, first), names, 1),
        Ok(Found::Nodes(first, n)) => say_nodes(rt, from(words, first), names, (n % 65536) as u16),
    }
}

fn say_rest(rt: &impl Print, rest: &[u8]) -> io::Result<()> {
    let mut out = [0u8; MAX_LINE];
    if rest.len() == 0 {
        say(rt, b"no rest\n")
    } else {
        let at = lines::put_bytes(&mut out, 0, b"rest: ");
        let end = show::put_shown(&mut out, at, rest);
        say_line(rt, &mut out, end)
    }
}

// By the ordinary reading, or by the strict one.
fn reading(strict: bool, text: &[u8], words: &mut [u64], names: &mut [u8]) -> Result<(), Refusal> {
    if strict {
        return encoding_box::from_str_strict(text, words, names);
    }
    encoding_box::from_str(text, words, names)
}

// Reads a text, and says so where it is refused; whether there is a tree.
fn reads_by(
    rt: &impl Print,
    strict: bool,
    text: &[u8],
    words: &mut [u64],
    names: &mut [u8],
) -> io::Result<bool> {
    match reading(strict, text, words, names) {
        Ok(()) => Ok(true),
        Err(why) => {
            say_refused(rt, text, &why.words())?;
            Ok(false)
        }
    }
}

fn reads(rt: &impl Print, text: &[u8], words: &mut [u64], names: &mut [u8]) -> io::Result<bool> {
    reads_by(rt, false, text, words, names)
}

fn answer_start(rt: &impl Print, text: &[u8]) -> io::Result<()> {
    let mut words = [0u64; MAX_WORDS];
    let mut names = [0u8; MAX_TEXT];
    let mut answer = [0u64; 4];
    let rest = encoding_box::from_start_of_str(text, &mut words, &mut names, &mut answer);
    if answer[0] == 0 {
        say_tree(rt, &words, &names)?;
        say_rest(rt, rest)
    } else {
        say_refused(rt, text, &answer)
    }
}

fn say_print(rt: &impl Print, text: &[u8], words: &[u64], names: &[u8]) -> io::Result<()> {
    let mut out = [0u8; MAX_LINE];
    match static_str::static_encoding_str_array(words, names, &mut out) {
        Err(why) => say_refused(rt, text, &why.words()),
        Ok(n) => say_line(rt, &mut out, n),
    }
}

fn say_bytes(rt: &impl Print, n: u64) -> io::Result<()> {
    let mut out = [0u8; 64];
    let at = show::put_count(&mut out, 0, n, b"byte");
    say_line(rt, &mut out, at)
}

fn say_size(rt: &impl Print, text: &[u8], words: &[u64], names: &[u8], row: u64) -> io::Result<()> {
    match encoding::size(words, names, row) {
        Err(why) => say_refused(rt, text, &why.words()),
        Ok(None) => say(rt, b"no size\n"),
        Ok(Some(n)) => say_bytes(rt, n),
    }
}

fn say_row(rt: &impl Print, words: &[u64], names: &[u8], row: u64) -> io::Result<()> {
    let mut out = [0u8; MAX_LINE];
    let at = show::put_size_line(&mut out, row, encoding::size(words, names, row));
    say_line(rt, &mut out, at)
}

// A table of all rows; its head has the columns of `show::put_size_line`.
fn say_rows(rt: &impl Print, words: &[u64], names: &[u8]) -> io::Result<()> {
    say(rt, b"row  machine           size\n")?;
    for row in 0..ROWS {
        say_row(rt, words, names, row)?;
    }
    Ok(())
}

fn say_laid(
    rt: &impl Print,
    nodes: &[u64],
    names: &[u8],
    i: u16,
    offset: u64,
    extents: &[u64],
) -> io::Result<()> {
    let mut out = [0u8; MAX_LINE];
    if fields::is_laid_out(nodes, i) {
        let field = fields::is_field(nodes, i);
        let extent = fields::extent_of(extents, i);
        let at = show::put_laid(&mut out, nodes, names, i, field, offset, extent);
        say_line(rt, &mut out, at)
    } else {
        let at = show::put_laid(&mut out, nodes, names, i, false, 0, Ok(None));
        say_line(rt, &mut out, at)
    }
}

fn say_padding(
    rt: &impl Print,
    nodes: &[u64],
    offsets: &[u64],
    extents: &[u64],
    i: u16,
) -> io::Result<()> {
    let mut out = [0u8; MAX_LINE];
    let hole = fields::hole_after(nodes, offsets, extents, i);
    if 0 < hole.bytes {
        let at = show::put_padding(&mut out, nodes, i, hole.begin, hole.bytes);
        say_line(rt, &mut out, at)?;
    }
    Ok(())
}

// The padding after each node whose subtree ends with node `last`, the innermost first.
fn say_paddings(
    rt: &impl Print,
    nodes: &[u64],
    offsets: &[u64],
    extents: &[u64],
    last: u16,
) -> io::Result<()> {
    for i in (0..=last).rev() {
        if fields::ends_with(nodes, i, last) {
            say_padding(rt, nodes, offsets, extents, i)?;
        }
    }
    Ok(())
}

// A table of `n` nodes with the padding between them; its head has the columns of `show::put_laid`.
fn say_fields(
    rt: &impl Print,
    nodes: &[u64],
    names: &[u8],
    offsets: &[u64],
    extents: &[u64],
    n: u16,
) -> io::Result<()> {
    say(rt, b"node      offset        size  align  type\n")?;
    for i in 0..n {
        let offset = lines::word_at(offsets, i as usize);
        say_laid(rt, nodes, names, i, offset, extents)?;
        say_paddings(rt, nodes, offsets, extents, i)?;
    }
    Ok(())
}

fn say_whole(rt: &impl Print, bytes: u64, alignment: u64) -> io::Result<()> {
    let mut out = [0u8; 64];
    let at = show::put_whole(&mut out, bytes, alignment);
    say_line(rt, &mut out, at)
}

fn say_layout(
    rt: &impl Print,
    text: &[u8],
    words: &[u64],
    names: &[u8],
    row: u64,
) -> io::Result<()> {
    let mut offsets = [0u64; MAX_NODES];
    let mut extents = [0u64; 2 * MAX_NODES];
    match layout::layout(words, names, row, &mut offsets) {
        Err(why) => say_refused(rt, text, &why.words()),
        Ok(None) => say(rt, b"no layout\n"),
        Ok(Some((n, alignment))) => {
            let nodes = (lines::word_at(words, 0) % 65536) as u16;
            let first = lines::word_at(words, 1) as usize;
            layout::extents(words, names, row, &mut extents);
            say_fields(rt, from(words, first), names, &offsets, &extents, nodes)?;
            say_whole(rt, n, alignment)
        }
    }
}

// The size in the row, if one was given, else in all of them.
fn say_sizes(
    rt: &impl Print,
    text: &[u8],
    words: &[u64],
    names: &[u8],
    row: Option<u64>,
) -> io::Result<()> {
    match row {
        Some(row) => say_size(rt, text, words, names, row),
        None => say_rows(rt, words, names),
    }
}

// What a command says of the tree of its text; a layout is in row 0 where no row was given.
fn say_of_tree(
    rt: &impl Print,
    command: &[u8],
    text: &[u8],
    words: &[u64],
    names: &[u8],
    row: Option<u64>,
) -> io::Result<()> {
    match command {
        b"print" => say_print(rt, text, words, names),
        b"size" => say_sizes(rt, text, words, names, row),
        b"layout" => say_layout(rt, text, words, names, row.unwrap_or(0)),
        _ => say_tree(rt, words, names),
    }
}

// Answers a command on one text, which is read.
fn answer_tree(rt: &impl Print, command: &[u8], text: &[u8], row: Option<u64>) -> io::Result<()> {
    let mut words = [0u64; MAX_WORDS];
    let mut names = [0u8; MAX_TEXT];
    let strict = matches!(command, b"read-strict");
    if reads_by(rt, strict, text, &mut words, &mut names)? {
        say_of_tree(rt, command, text, &words, &names, row)?;
    }
    Ok(())
}

// Whether a command takes a row's number after its text.
fn is_by_row(command: &[u8]) -> bool {
    matches!(command, b"size" | b"layout")
}

// A text's size or layout, in the row whose number is given if there is one.
fn answer_by_row(
    rt: &impl Print,
    err: &impl Print,
    command: &[u8],
    texts: usize,
    text: &[u8],
    row: &[u8],
) -> io::Result<()> {
    if texts == 1 {
        return answer_tree(rt, command, text, None);
    }
    if texts == 2 {
        if show::is_number(row) {
            return answer_tree(rt, command, text, Some(show::number_of(row)));
        }
        return complain(err, row, b"' is no row's number\n");
    }
    complain(
        err,
        command,
        b"' takes one text, and a row's number if wanted\n",
    )
}

// The second text is not read: it is held against the tree.
fn answer_match(rt: &impl Print, a: &[u8], text: &[u8]) -> io::Result<()> {
    let mut words = [0u64; MAX_WORDS];
    let mut names = [0u8; MAX_TEXT];
    if !reads(rt, a, &mut words, &mut names)? {
        return Ok(());
    }
    match encoding::equivalent_to_str(&words, &names, text) {
        Err(why) => say_refused(rt, text, &why.words()),
        Ok(answer) => say_decided(rt, answer),
    }
}

// A no, and under it where the trees first differ, by the reason's bytes.
fn say_difference(rt: &impl Print, reason: &[u8]) -> io::Result<()> {
    let mut out = [0u8; MAX_LINE];
    say(rt, b"no\n")?;
    let at = show::put_difference(&mut out, reason);
    say_line(rt, &mut out, at)
}

// The reason for a no: its bytes, or in words.
fn say_reason(rt: &impl Print, in_words: bool, out: &mut [u8], n: usize) -> io::Result<()> {
    if in_words {
        say_difference(rt, lines::front(out, n))
    } else {
        say_line(rt, out, n)
    }
}

// Compares a tree with that of a text, by levels or with `all` fields.
fn compare_with(
    rt: &impl Print,
    all: bool,
    in_words: bool,
    a: &[u8],
    aw: &[u64],
    an: &[u8],
    b: &[u8],
) -> io::Result<()> {
    let mut bw = [0u64; MAX_WORDS];
    let mut bn = [0u8; MAX_TEXT];
    let mut out = [0u8; MAX_LINE];
    if !reads(rt, b, &mut bw, &mut bn)? {
        return Ok(());
    }
    match reason::reason(aw, an, &bw, &bn, all, &mut out) {
        Err(why) => say_refused(rt, a, &why.words()),
        Ok(None) => say_decided(rt, true),
        Ok(Some(n)) => say_reason(rt, in_words, &mut out, n),
    }
}

fn answer_compare(
    rt: &impl Print,
    all: bool,
    in_words: bool,
    a: &[u8],
    b: &[u8],
) -> io::Result<()> {
    let mut words = [0u64; MAX_WORDS];
    let mut names = [0u8; MAX_TEXT];
    if reads(rt, a, &mut words, &mut names)? {
        compare_with(rt, all, in_words, a, &words, &names, b)?;
    }
    Ok(())
}

fn say_entry(rt: &impl Print, text: &[u8], list: &[u64], k: u16) -> io::Result<()> {
    let mut out = [0u8; MAX_LINE];
    let at = show::put_entry(&mut out, text, list, k);
    say_line(rt, &mut out, at)
}

// A table of `n` entries; its head has the columns of `show::put_entry`.
fn say_entries(rt: &impl Print, text: &[u8], list: &[u64], n: u16) -> io::Result<()> {
    say(rt, b"item  start  length      number  type\n")?;
    for k in 0..n {
        say_entry(rt, text, list, k)?;
    }
    Ok(())
}

fn answer_signature(rt: &impl Print, text: &[u8]) -> io::Result<()> {
    let mut list = [0u64; MAX_NUMBERS];
    match signature::parse_signature(text, &mut list) {
        Err(why) => say_refused(rt, text, &why.words()),
        Ok(n) => say_entries(rt, text, &list, (n % 65536) as u16),
    }
}

// How many texts a command takes, a row's number aside; 0 where there is no such command.
fn texts_of(command: &[u8]) -> usize {
    if is_by_row(command) {
        return 1;
    }
    match command {
        b"read" | b"read-strict" | b"start" | b"print" | b"signature" => 1,
        b"compare" | b"compare-all" | b"reason" | b"reason-all" | b"match" => 2,
        _ => 0,
    }
}

// Answers a command that `texts_of` knows, other than those by row, whose texts stand in `a` and `b`.
fn answer_known(rt: &impl Print, command: &[u8], a: &[u8], b: &[u8]) -> io::Result<()> {
    match command {
        b"start" => answer_start(rt, a),
        b"compare" => answer_compare(rt, false, true, a, b),
        b"compare-all" => answer_compare(rt, true, true, a, b),
        b"reason" => answer_compare(rt, false, false, a, b),
        b"reason-all" => answer_compare(rt, true, false, a, b),
        b"match" => answer_match(rt, a, b),
        b"signature" => answer_signature(rt, a),
        _ => answer_tree(rt, command, a, None),
    }
}

// Answers a command with `texts` texts, of which the first two stand in `a` and `b`.
fn answer(
    rt: &impl Print,
    err: &impl Print,
    command: &[u8],
    texts: usize,
    a: &[u8],
    b: &[u8],
) -> io::Result<()> {
    let wanted = texts_of(command);
    if wanted == 0 {
        return complain(
            err,
            command,
            b"' is no command: berzhotun alone lists them\n",
        );
    }
    if is_by_row(command) {
        return answer_by_row(rt, err, command, texts, a, b);
    }
    if wanted == texts {
        return answer_known(rt, command, a, b);
    }
    if wanted == 1 {
        return complain(err, command, b"' takes one text\n");
    }
    complain(err, command, b"' takes two texts\n")
}

fn answer_line(rt: &impl Print, err: &impl Print, line: &[u8]) -> io::Result<()> {
    say(rt, b"> ")?;
    say(rt, line)?;
    say(rt, b"\n")?;
    let texts = lines::rest(line, b' ');
    let a = lines::field(texts, b' ');
    let b = lines::rest(texts, b' ');
    let command = lines::field(line, b' ');
    answer(rt, err, command, show::count_of(line, b' '), a, b)
}

fn answer_lines(rt: &impl Print, err: &impl Print, input: &[u8]) -> io::Result<()> {
    for line in input.split_inclusive(|b| *b == b'\n') {
        answer_line(rt, err, lines::field(line, b'\n'))?;
    }
    Ok(())
}

fn answer_input(rt: &(impl Input + Print), err: &impl Print) -> io::Result<()> {
    let mut input = zeros::<MAX_INPUT>();
    let n = read_full(&mut rt.reader(), &mut input)?;
    answer_lines(rt, err, &input[..n])
}

// How many words the command line has, the program's name among them. A word that is there is too long for no room, or empty.
fn word_count(rt: &impl Env) -> usize {
    let mut none = [0u8; 0];
    for i in 0..usize::MAX {
        if let Err(FillError::NotPresent) = rt.arg(i, &mut none) {
            return i;
        }
    }
    usize::MAX
}

// Puts an argument into the list, or its first bytes where it is longer than the list; how many.
fn load(rt: &impl Env, i: usize, list: &mut [u8]) -> usize {
    match rt.arg(i, list) {
        Ok(n) => n,
        Err(FillError::TooLong) => list.len(),
        Err(FillError::NotPresent) => 0,
    }
}

// Answers the command line, which has `texts` words after the command.
fn answer_arguments(
    rt: &(impl Env + Print),
    err: &impl Print,
    command: &[u8],
    texts: usize,
) -> io::Result<()> {
    let mut a = [0u8; MAX_ARGUMENT];
    let mut b = [0u8; MAX_ARGUMENT];
    let n = load(rt, 2, &mut a);
    let m = load(rt, 3, &mut b);
    answer(
        rt,
        err,
        command,
        texts,
        lines::front(&a, n),
        lines::front(&b, m),
    )
}

fn answer_command(
    rt: &(impl Env + Input + Print),
    err: &impl Print,
    texts: usize,
) -> io::Result<()> {
    let mut list = [0u8; 16];
    let n = load(rt, 1, &mut list);
    let command = lines::front(&list, n);
    if texts == 0 {
        if matches!(command, b"-") {
            return answer_input(rt, err);
        }
    }
    answer_arguments(rt, err, command, texts)
}

fn main(rt: HostRuntime) -> io::Result<()> {
    let words = word_count(&rt);
    if words < 2 {
        return say_usage(&rt);
    }
    answer_command(&rt, &rt.stderr(), words - 2)
}

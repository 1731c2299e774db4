// The reason for a no: the first difference of two trees and its words, in an output that the caller lends.
#![tactic(auto)]

mod find;
mod words;

ghost use Rattle.std.specs.Prelude.{◌≡◌, Bool, length};
ghost use Rattle.kinds.specs.Sheet.{trees};
ghost use Rattle.reason.specs.Reason.{first_difference};
ghost use Rattle.reason.specs.Answer.{measured, fitted_reason, placed_reason, reason_len, reason_answer, reason_output};
ghost use Rattle.reason.specs.Spot.{Rooted, codes_difference};

use find::first_difference;
use kinds::{NestingLevel, Refusal, equivalent_kinds};
use lines::put_bytes;
use sheet::{FoundBoth, both_of, check, code_alone};
use words::{difference_len, number_len, path_len, put_number_value, put_reason, reason_fits};

// The length of the reason of two trees of `n` and `m` nodes.
fn nodes_len(
    a: &[u64],
    an: &[u8],
    n: usize,
    b: &[u64],
    bn: &[u8],
    m: usize,
    all: bool,
) -> Result<Option<usize>, Refusal>
    requires { Rooted an.now a.now n × Rooted bn.now b.now m }
    ensures { result ≡ measured (first_difference all NestingLevel.Top (trees an.now a.now n 0) (trees bn.now b.now m 0)) }
{
    match first_difference(a, an, 0, n, b, bn, 0, m, NestingLevel::new(), all) {
        None => Ok(None),
        Some(d) => Ok(Some(path_len(a, d.at) + difference_len(d.aspect, d.k, d.j))),
    }
}

// Writes the reason of two trees of `n` and `m` nodes at the front of the output.
fn write_nodes(
    a: &[u64],
    an: &[u8],
    n: usize,
    b: &[u64],
    bn: &[u8],
    m: usize,
    all: bool,
    out: &mut [u8],
) -> Result<Option<usize>, Refusal>
    requires { Rooted an.now a.now n × Rooted bn.now b.now m }
    ensures answers { result ≡ fitted_reason (length out.old) (first_difference all NestingLevel.Top (trees an.now a.now n 0) (trees bn.now b.now m 0)) }
    ensures writes { out.new ≡ placed_reason out.old (first_difference all NestingLevel.Top (trees an.now a.now n 0) (trees bn.now b.now m 0)) }
{
    match first_difference(a, an, 0, n, b, bn, 0, m, NestingLevel::new(), all) {
        None => Ok(None),
        Some(d) => {
            if !reason_fits(a, d.at, d.aspect, d.k, d.j, out.len()) {
                return Err(Refusal::OutputTooShort);
            }
            Ok(Some(put_reason(out, a, an, d.at, b, bn, d.bt, d.aspect, d.k, d.j)))
        }
    }
}

// The length of the reason of two codes.
fn codes_len(k: u64, j: u64) -> Result<Option<usize>, Refusal>
    ensures { (all : Bool) → result ≡ measured (codes_difference all k j) }
{
    if equivalent_kinds(k, j) {
        return Ok(None);
    }
    Ok(Some(5 + number_len(k) + number_len(j)))
}

// Writes the reason of two codes at the front of the output.
fn write_codes(k: u64, j: u64, out: &mut [u8]) -> Result<Option<usize>, Refusal>
    ensures answers { (all : Bool) → result ≡ fitted_reason (length out.old) (codes_difference all k j) }
    ensures writes { (all : Bool) → out.new ≡ placed_reason out.old (codes_difference all k j) }
{
    if equivalent_kinds(k, j) {
        return Ok(None);
    }
    let len = 5 + number_len(k) + number_len(j);
    if out.len() < len {
        return Err(Refusal::OutputTooShort);
    }
    let word = put_bytes(out, 0, b":kind");
    let first = put_number_value(out, word, k);
    put_number_value(out, first, j);
    Ok(Some(len))
}

fn sheets_len(
    aw: &[u64],
    an: &[u8],
    bw: &[u64],
    bn: &[u8],
    all: bool,
) -> Result<Option<usize>, Refusal>
    ensures { result ≡ reason_len all aw.now an.now bw.now bn.now }
{
    let found = both_of(check(&aw[0..], &an[0..]), check(&bw[0..], &bn[0..]))?;
    match found {
        FoundBoth::Codes(k, j) => codes_len(k, j),
        FoundBoth::Nodes(f, n, g, m) => nodes_len(
            &aw[f..],
            &an[0..],
            n,
            &bw[g..],
            &bn[0..],
            m,
            all,
        ),
    }
}

// The length of the reason why the trees in two sheets do not match, by levels or with `all` fields. Two codes are told before the check.
pub fn reason_len(
    aw: &[u64],
    an: &[u8],
    bw: &[u64],
    bn: &[u8],
    all: bool,
) -> Result<Option<usize>, Refusal>
    ensures { result ≡ reason_len all aw.now an.now bw.now bn.now }
{
    if let Some(k) = code_alone(aw) {
        if let Some(j) = code_alone(bw) {
            return codes_len(k, j);
        }
    }
    sheets_len(&aw[0..], &an[0..], &bw[0..], &bn[0..], all)
}

// Writes the reason why the trees in two sheets do not match, by levels or with `all` fields, at the front of the output.
pub fn reason(
    aw: &[u64],
    an: &[u8],
    bw: &[u64],
    bn: &[u8],
    all: bool,
    out: &mut [u8],
) -> Result<Option<usize>, Refusal>
    ensures answers { result ≡ reason_answer all aw.now an.now bw.now bn.now (length out.old) }
    ensures writes { out.new ≡ reason_output all aw.now an.now bw.now bn.now out.old }
{
    let found = both_of(check(&aw[0..], &an[0..]), check(&bw[0..], &bn[0..]))?;
    match found {
        FoundBoth::Codes(k, j) => write_codes(k, j, out),
        FoundBoth::Nodes(f, n, g, m) => write_nodes(
            &aw[f..],
            &an[0..],
            n,
            &bw[g..],
            &bn[0..],
            m,
            all,
            out,
        ),
    }
}

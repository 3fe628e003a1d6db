// The parts of a line: its columns, words, numbers, and bytes in a form that can be read aloud.
ghost use Rattle.std.specs.Prelude.{◌≡◌};
ghost use Rattle.explain.specs.Changes.{differing};

use crate::{NAME, words};
use lists::{CARRIAGE_RETURN, ESCAPE, LINE_FEED};
use program::Host;

// A place and the bytes behind it take so much of a line, each with two blanks behind it.
const WIDTH: usize = 9;

// What is longer is shown by its first bytes.
const LONGEST: usize = record::LONGEST_FRAME;

const FIRST_BYTES: usize = 40;

// The signs around a code in hexadecimal.
const OPENING: u8 = b'<';

const CLOSING: u8 = b'>';

const HEX_DIGITS: [u8; 16] = *b"0123456789ABCDEF";

// So much wider is a code in hexadecimal than one that stands for itself.
const HEX_MORE: usize = 3;

pub fn say(host: &Host, words: &[u8]) {
    program::write(host, NAME, words);
}

pub fn say_number(host: &Host, n: u64) {
    program::write_number(host, NAME, n);
}

// Words with a number behind them.
pub fn say_count(host: &Host, words: &[u8], n: u64) {
    say(host, words);
    say_number(host, n);
}

// Between two things of a line.
pub fn say_comma(host: &Host, wanted: bool) {
    if wanted {
        say(host, words::COMMA);
    }
}

// Blanks behind or before what is so wide.
fn pad(host: &Host, width: usize) {
    let blanks = [b' '; WIDTH];
    if let Some(rest) = blanks.get(width..) {
        say(host, rest);
    }
}

// How many digits a number has.
fn digits_of(n: u64) -> usize {
    n.checked_ilog10().map_or(1, |tens| tens as usize + 1)
}

// Where a line begins: a place.
pub fn say_place(host: &Host, place: u64) {
    pad(host, digits_of(place));
    say_number(host, place);
    say(host, words::BLANKS);
}

// Whether a code stands for itself. The sign that opens a code in hexadecimal does not, so that the two can't be mistaken.
fn is_plain(code: u8) -> bool {
    (b' '..=b'~').contains(&code) && code != OPENING
}

fn say_hex(host: &Host, code: u8) {
    let high = HEX_DIGITS[(code / 16) as usize];
    let low = HEX_DIGITS[(code % 16) as usize];
    say(host, &[OPENING, high, low, CLOSING]);
}

// Codes, those that stand for themselves in one go.
pub fn say_codes(host: &Host, codes: &[u8]) {
    for run in codes.chunk_by(|a, b| is_plain(*a) && is_plain(*b)) {
        match run {
            [code] if !is_plain(*code) => say_hex(host, *code),
            _ => say(host, run),
        }
    }
}

// How wide codes are when they are said.
fn width_of(codes: &[u8]) -> usize {
    let hex = codes.iter().filter(|code| !is_plain(**code)).count();
    codes.len().saturating_add(hex.saturating_mul(HEX_MORE))
}

// A place, a word for what stands there, and its bytes: as they are or, if they are too many, the first. Of a part that is longer than
// any frame more bytes are held than any frame has, so those that are held tell whether it is.
pub fn begin_line(host: &Host, place: u64, what: &[u8], codes: &[u8]) {
    say_place(host, place);
    say(host, what);
    match codes.get(..FIRST_BYTES) {
        Some(first) if codes.len() > LONGEST => {
            say_codes(host, first);
            say(host, words::DOTS);
        }
        _ => {
            say_codes(host, codes);
            pad(host, width_of(codes));
            say(host, words::BLANKS);
        }
    }
}

// A code of an answer: those that begin and end one by their names.
fn say_sent(host: &Host, code: u8) {
    match code {
        ESCAPE => say(host, words::ESC),
        CARRIAGE_RETURN => say(host, words::CR),
        LINE_FEED => say(host, words::LF),
        _ => say_codes(host, &[code]),
    }
}

// The codes of an answer, as they go down the cord.
pub fn say_answer(host: &Host, answer: &[u8]) {
    say(host, words::ANSWERED);
    for &code in answer {
        say_sent(host, code);
    }
}

// One column, or those from a first to a last one.
pub fn say_columns(host: &Host, first: u64, last: u64) {
    if first == last {
        say_count(host, words::COLUMN, first);
        return;
    }
    say_count(host, words::COLUMNS, first);
    say_count(host, words::TO, last);
}

// A frame that is too long says so.
pub fn say_if_overlong(host: &Host, length: u64) {
    let longest = LONGEST as u64;
    if length > longest {
        say_count(host, words::COLON, length);
        say_count(host, words::MORE_THAN, longest);
    }
}

// At how many places the bytes before and after differ, as far as both go.
pub fn changes(before: &[u8], after: &[u8]) -> usize
    ensures same { result ≡ differing before.now after.now }
{
    before
        .iter()
        .zip(after)
        .filter(|(was, is)| was != is)
        .count()
}

// The data of a picture frame, written from columns. What it has to be stands in picture's specs/Writing.antt.
#![tactic(auto)]

ghost use Rattle.std.specs.Prelude.{◌≡◌, ◌+◌, ◌*◌, ◌≤◌, ◌<◌, length};
ghost use Rattle.std.proofs.lemmas.List.Edits.{sets};
ghost use Rattle.picture.specs.Writing.{hex_code, item_text, data_written};

use picture::{Data, MOST_COLUMNS};

const LONGEST_RUN: usize = 26;

// Data takes two codes a column at most.
const MOST_CODES: usize = 192;

// The digit 0-9 or A-F of a value.
#[tactic(auto, unfolding(picture::specs::Writing::hex_code))]
fn hex_digit(x: u8) -> u8
    requires { x < 16 }
    ensures same { result ≡ hex_code x }
{
    if x < 10 { b'0' + x } else { b'A' + (x - 10) }
}

// An item into the data; where the next one starts. It stores place by place: a copy of a small array is no plainer.
fn put_item(text: &mut [u8; 192], at: usize, count: usize, column: u8) -> usize
    requires { (1 ≤ count) × (count ≤ 26) × (at + 2 * count ≤ 192) × (length text.old ≡ 192) }
    ensures end { result ≡ at + length (item_text count column) }
    ensures same { text.new ≡ sets text.old at (item_text count column) }
{
    let high = hex_digit(column / 16);
    let low = hex_digit(column % 16);
    if count == 1 {
        text[at] = high;
        text[at + 1] = low;
        return at + 2;
    }
    text[at] = b'a' + (count - 2) as u8;
    text[at + 1] = high;
    text[at + 2] = low;
    at + 3
}

// The data of 1 to 96 columns, each longest run of equal columns cut into 26s from the left; nothing for none or more of them.
pub fn write_data(columns: &[u8]) -> Data
    ensures same { result ≡ data_written columns.now }
{
    let mut bytes = [0; MOST_CODES];
    if MOST_COLUMNS < columns.len() {
        return Data { len: 0, bytes };
    }
    let [first, rest @ ..] = columns else {
        return Data { len: 0, bytes };
    };
    let mut used = 0;
    let mut column = *first;
    let mut count = 1;
    for next in rest {
        if (*next == column) & (count < LONGEST_RUN) {
            count += 1;
        } else {
            used = put_item(&mut bytes, used, count, column);
            column = *next;
            count = 1;
        }
    }
    let end = put_item(&mut bytes, used, count, column);
    Data {
        len: end as u8,
        bytes,
    }
}

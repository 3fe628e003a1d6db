// Whether each field of a record is within its range: the definitions of document 01's table are the record's.
#![tactic(auto)]

ghost use Rattle.std.specs.Prelude.{◌≡◌, ◌≤◌, length, ◌&&◌};
ghost use Rattle.lists.specs.Every.{every};
ghost use Rattle.record_ranges.specs.Editions.{first_asked, sister_asked};
ghost use Rattle.record.specs.Range.{is_frame_byte, is_unused, text_in_range, label_in_range, picture_in_range, frame_in_range, keys_unused, keys_in_range, in_range};
ghost use Rattle.record.specs.Parts.{whole};
ghost use Rattle.record_ranges.specs.Scan.{test_of, right_at, filled};

use lists::{BLANK, CARRIAGE_RETURN, ESCAPE};
use record::{
    Edition, FrameBytes, InParts, Keys, LAST_SISTER_KEY, LONGEST_LABEL, LOW_COLUMN_END, Label,
    OPEN, OVERLONG, Picture, Record, SETS_OF_KEYS, STAGE_FALSE, STAGE_LONG, STAGE_SHORT, Text,
};
use record_small_ranges::{sister_small_in_range, small_in_range};

// A length is a byte in a record.
const MOST_BYTES: u8 = record::LONGEST_FRAME as u8;

// The greatest brightness and speaker volume.
const BRIGHTEST: u8 = 100;

const LOUDEST: u8 = 7;

// Most frames have no more bytes than this. Of 16, 32 and 64 it took the fewest instructions.
const SHORT_FRAME: usize = 32;

// What a used place of an array may hold.
// A kind and no closure: a scan that took one would need a clause on what its every call answers, where the kind's test is a definition.
#[derive(Clone, Copy)]
enum Place {
    Code,
    LowColumn,
    FrameByte,
}

fn fits(place: Place, b: u8) -> bool
    ensures { result ≡ test_of place b }
{
    match place {
        Place::Code => BLANK <= b,
        Place::LowColumn => b < LOW_COLUMN_END,
        Place::FrameByte => (b != ESCAPE) & (b != CARRIAGE_RETURN),
    }
}

// A used place holds what its kind may, an unused one zero.
fn place_right(place: Place, used: bool, b: u8) -> bool
    ensures { result ≡ right_at (test_of place) used b }
{
    (used & fits(place, b)) | (!used & (b == 0))
}

// Whether every place is right where the first `len` are used. It looks at all of them and has no branch, so that it becomes vector
// code. Whether a place is used is told by a byte that counts down from 255 to 255 - `len`: one that counted up would be taken for the
// index and widened, and fewer places would go through at a time.
fn scan(s: &[u8], len: u8, place: Place) -> bool
    requires { length s.now ≤ 255 }
    ensures { result ≡ filled (test_of place) len s.now }
{
    let end = 255 - len;
    let mut ok = true;
    let mut left: u8 = 255;
    for b in s {
        ok &= place_right(place, end < left, *b);
        left -= 1;
    }
    ok
}

// Whether no place is used: each holds zero. It asks less of a place than the scan, and becomes vector code too.
fn all_unused(s: &[u8]) -> bool
    ensures { result ≡ every is_unused s.now }
{
    let mut ok = true;
    for b in s {
        ok &= *b == 0;
    }
    ok
}

fn text_in_range(text: &Text) -> bool
    ensures { result ≡ text_in_range text.now }
{
    scan(text, 104, Place::Code)
}

// Rows 0 to 5 take every byte.
fn picture_in_range(picture: &Picture) -> bool
    ensures { result ≡ picture_in_range picture.now }
{
    scan(&picture[576..], 96, Place::LowColumn)
}

// Place by place, up to the first that is wrong: of so few the scan, which has no branch, took some 35 instructions more.
fn label_in_range(l: Label) -> bool
    ensures { result ≡ label_in_range l }
{
    let len = l.len as usize;
    if LONGEST_LABEL < len {
        return false;
    }
    l.codes[..len].iter().all(|code| BLANK <= *code) && l.codes[len..].iter().all(|code| *code == 0)
}

// Whether the places of a frame are right. Behind the first ones of a short frame none is used, and zeros are all that is asked there.
fn bytes_in_range(len: u8, bytes: &[u8]) -> bool
    requires { length bytes.now ≡ 250 }
    ensures { result ≡ filled is_frame_byte len bytes.now }
{
    if len as usize <= SHORT_FRAME {
        scan(&bytes[..SHORT_FRAME], len, Place::FrameByte) & all_unused(&bytes[SHORT_FRAME..])
    } else {
        scan(bytes, len, Place::FrameByte)
    }
}

fn frame_in_range(state: u8, len: u8, frame: &FrameBytes) -> bool
    ensures { result ≡ frame_in_range (record { state = state; len = len; bytes = frame.now }) }
{
    (len <= MOST_BYTES)
        & (state <= OVERLONG)
        & ((state == OPEN) | (len == 0))
        & bytes_in_range(len, frame)
}

fn keys_unused(k: Keys) -> bool
    ensures { result ≡ keys_unused k }
{
    (k.stage == 0) & (k.key == 0) & (k.tick.0 == 0) & (k.down == 0)
}

// The first edition: nothing of the sister's is used.
fn is_first(e: Edition) -> bool
    ensures { result ≡ first_asked e }
{
    (e.brightness == 0) & (e.speaker == 0) & !e.pwm & !e.ptt & keys_unused(e.keys) & !e.sister
}

// The sister's keys that are down: none; one, short or long; in the stage false a set of them.
fn keys_in_range(k: Keys) -> bool
    ensures { result ≡ keys_in_range k }
{
    keys_unused(k)
        | (((k.stage == STAGE_SHORT) | (k.stage == STAGE_LONG))
            & (k.key <= LAST_SISTER_KEY)
            & (k.down == 0))
        | ((k.stage == STAGE_FALSE)
            & (k.key == 0)
            & (k.tick.0 == 0)
            & (1 <= k.down)
            & (k.down < SETS_OF_KEYS))
}

// The sister, with what only she has in range.
fn is_sister(e: Edition) -> bool
    ensures { result ≡ sister_asked e }
{
    (e.brightness <= BRIGHTEST) & (e.speaker <= LOUDEST) & keys_in_range(e.keys) & e.sister
}

// The rest, once what is small is asked: labels, text, picture and frame. The frame is asked first, since it goes one of two ways: the
// text and the picture, asked before it, were kept on the stack meanwhile.
fn rest_in_range(fine: bool, parts: InParts<'_>) -> bool
    ensures { let r = whole parts.entry in result ≡ (fine && label_in_range r.settings.left && label_in_range r.settings.right && text_in_range r.text && picture_in_range r.picture && frame_in_range r.frame) }
{
    let small = parts.small;
    let framed = frame_in_range(small.state, small.len, parts.frame);
    fine & label_in_range(small.settings.left)
        & label_in_range(small.settings.right)
        & text_in_range(parts.text)
        & picture_in_range(parts.picture)
        & framed
}

// Whether every field is within its range, for one who keeps the arrays elsewhere. The edition is asked first and by itself: among the
// others it took twice the instructions.
pub fn in_range_lent(parts: InParts<'_>) -> bool
    ensures same { result ≡ in_range (whole parts.entry) }
{
    let small = parts.small;
    if is_first(small.edition) {
        let fine = small_in_range(small.settings, small.held);
        rest_in_range(fine, parts)
    } else if is_sister(small.edition) {
        let fine = sister_small_in_range(small.settings, small.held, small.edition.pwm);
        rest_in_range(fine, parts)
    } else {
        false
    }
}

// The same of a record.
pub fn in_range(r: Record) -> bool
    ensures same { result ≡ in_range r }
{
    in_range_lent(r.in_parts())
}

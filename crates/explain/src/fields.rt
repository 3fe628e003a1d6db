// The small fields of the record by name: what a field is called, what its value is called, what has changed. The words are read aloud
// on the telephone, so a field has the same words in every line.
ghost use Rattle.std.specs.Prelude.{◌≡◌, ◌<◌, IfSome, position};
ghost use Rattle.explain.specs.Values.{whether, number_value, word_value, mark_value, label_value, value_of};

use crate::part_line::{say, say_codes, say_comma, say_count};
use crate::words;
use program::Host;
use record::{LONGEST_LABEL, Label, Small};

// Those that a frame sets together stand together, and the labels behind all others. Behind the fields stand numbers of a frame that
// have a range of their own: some go by the text mode, and the last ones are the sister's.
#[derive(Clone, Copy)]
pub enum Field {
    Mode,
    Overlay,
    Position,
    Volume,
    Hidden,
    Mute,
    Time1,
    Time2,
    Pwm,
    Backlight,
    SecondsLeft,
    Duration,
    Keypad,
    Display,
    Cursor,
    IconS,
    IconU,
    IconF,
    IconR,
    IconP,
    IconW,
    Buzzer,
    Contrast,
    Inverse,
    Brightness,
    Speaker,
    LeftLabel,
    RightLabel,
    Column,
    PictureRow,
    Row,
    Mark,
    SisterMode,
    SisterCursor,
    SisterTime1,
    SisterDuration,
    SisterIconU,
}

// All that have a value.
pub const EVERY_FIELD: &[Field] = &[
    Field::Mode,
    Field::Overlay,
    Field::Position,
    Field::Volume,
    Field::Hidden,
    Field::Mute,
    Field::Time1,
    Field::Time2,
    Field::Pwm,
    Field::Backlight,
    Field::SecondsLeft,
    Field::Duration,
    Field::Keypad,
    Field::Display,
    Field::Cursor,
    Field::IconS,
    Field::IconU,
    Field::IconF,
    Field::IconR,
    Field::IconP,
    Field::IconW,
    Field::Buzzer,
    Field::Contrast,
    Field::Inverse,
    Field::Brightness,
    Field::Speaker,
    Field::LeftLabel,
    Field::RightLabel,
];

// Words.

// An overlay and a mark are named with their value, since there may be none.
fn name_of(field: Field) -> &'static [u8] {
    match field {
        Field::Mode | Field::SisterMode => b"mode ",
        Field::Overlay | Field::Inverse => b"",
        Field::Position => b"position ",
        Field::Volume => b"volume ",
        Field::Hidden => b"hidden ",
        Field::Mute => b"mute ",
        Field::Time1 | Field::SisterTime1 => b"Time1 ",
        Field::Time2 => b"Time2 ",
        Field::Pwm => b"PWM ",
        Field::Backlight => b"backlight ",
        Field::SecondsLeft => b"seconds left ",
        Field::Duration | Field::SisterDuration => b"duration ",
        Field::Keypad => b"keypad flag ",
        Field::Display => b"display ",
        Field::Cursor | Field::SisterCursor => b"cursor ",
        Field::IconS => b"icon S ",
        Field::IconU | Field::SisterIconU => b"icon U ",
        Field::IconF => b"icon F ",
        Field::IconR => b"icon R ",
        Field::IconP => b"icon P ",
        Field::IconW => b"icon W ",
        Field::Buzzer => b"buzzer ",
        Field::Contrast => b"contrast ",
        Field::Brightness => b"brightness ",
        Field::Speaker => b"speaker volume ",
        Field::LeftLabel => b"left label ",
        Field::RightLabel => b"right label ",
        Field::Column => b"column ",
        Field::PictureRow => b"picture row ",
        Field::Row => b"row ",
        Field::Mark => b"inverse mark ",
    }
}

// Where # stands at the end, a number is said in its place, here and below.
fn range_of(field: Field) -> &'static [u8] {
    match field {
        Field::Mode => b"takes 0, 1, 5, 6, 10 or 11 to 18",
        Field::Volume => b"takes 0 to 10",
        Field::Mute | Field::IconS | Field::IconR | Field::SisterCursor => b"takes 0 or 1",
        Field::Time1 => b"takes 4 to 50",
        Field::Time2 => b"takes 0 or 4 to 50",
        Field::Duration => b"takes 1 to 255, and 0 is backlight off",
        Field::IconU => b"takes 0, 1 or 255",
        Field::IconF | Field::PictureRow => b"takes 0 to 6",
        Field::IconP => b"takes 0 to 19",
        Field::IconW => b"takes 0 to 3",
        Field::Buzzer => b"takes 0 to 255",
        Field::Contrast => b"takes 1 to 20",
        Field::Brightness => b"takes 0 to 100",
        Field::Speaker => b"takes 0 to 7",
        Field::Column => b"takes 0 to 15",
        Field::Row | Field::Mark => b"takes 0 to #",
        Field::SisterMode => b"takes 0 to 12",
        Field::SisterTime1 => b"takes 4 to 50, or 0 where Time2 is 0",
        Field::SisterDuration => b"takes 1 to 250, and 0 is backlight off",
        Field::SisterIconU => b"takes 0 to 2",
        // No frame with these is passed over.
        _ => b"",
    }
}

// What the values are called, by number.
fn values_of(field: Field) -> &'static [&'static [u8]] {
    match field {
        Field::Overlay => &[b"no overlay", b"overlay #"],
        Field::Position => &[b"0,#", b"1,#", b"2,#", b"3,#", b"4,#"],
        Field::Volume => &[b"none", b"private #", b"handsfree #"],
        Field::Hidden => &[b"no", b"yes"],
        Field::Mute | Field::Pwm | Field::Display => &[b"off", b"on"],
        Field::Backlight => &[b"off", b"on", b"auto"],
        Field::Keypad => &[b"clear", b"set"],
        Field::Cursor => &[b"not shown", b"shown"],
        Field::Inverse => &[b"no inverse mark", b"inverse mark on row #"],
        _ => &[b"#"],
    }
}

fn say_numbered(host: &Host, words: &[u8], number: u64) {
    match words.strip_suffix(b"#") {
        Some(before) => say_count(host, before, number),
        None => say(host, words),
    }
}

// What the number of a field takes, said where one is passed over.
pub fn say_takes(host: &Host, field: Field, greatest: u64) {
    say(host, name_of(field));
    say_numbered(host, range_of(field), greatest);
}

// Values.

// What is said of a field's value: which of its words and the number that stands in them or, of a label, its codes.
#[derive(Clone, Copy, PartialEq, Eq)]
pub enum Value {
    Words {
        which: u8,
        number: u8,
    },
    Codes {
        length: u8,
        codes: [u8; LONGEST_LABEL],
    },
}

// The words are the number.
fn number(number: u8) -> Option<Value>
    ensures { result ≡ number_value number }
{
    Some(Value::Words { which: 0, number })
}

// The words have no number.
fn word(which: u8) -> Option<Value>
    ensures { result ≡ word_value which }
{
    Some(Value::Words { which, number: 0 })
}

// The second words if something is so, and else the first.
fn whether(is: bool) -> Option<Value>
    ensures { result ≡ word_value (whether is) }
{
    word(is as u8)
}

// Which text row has the mark.
fn row_marked(marks: &[bool; 5]) -> Option<usize>
    ensures row { result ≡ position (λ mark. mark) marks.now }
    ensures bound { IfSome result (λ row. row < 5) }
{
    marks.iter().position(|mark| *mark)
}

fn mark(marks: &[bool; 5]) -> Option<Value>
    ensures { result ≡ mark_value marks.now }
{
    match row_marked(marks) {
        Some(row) => Some(Value::Words {
            which: 1,
            number: row as u8,
        }),
        None => word(0),
    }
}

fn label(label: Label) -> Option<Value>
    ensures { result ≡ label_value label }
{
    // By a variable: an array that is moved from field to field is not proved yet.
    let codes = label.codes;
    Some(Value::Codes {
        length: label.len,
        codes,
    })
}

// What there is of a field that has no value is only what its number takes.
pub fn value_of(s: &Small, field: Field) -> Option<Value>
    ensures same { result ≡ value_of s.now field }
{
    let p = &s.settings;
    match field {
        Field::Mode => number(p.screen.mode),
        Field::Overlay => Some(Value::Words {
            which: (0 < p.screen.overlay) as u8,
            number: p.screen.overlay,
        }),
        Field::Position => Some(Value::Words {
            which: p.screen.row,
            number: p.screen.column,
        }),
        Field::Volume => Some(Value::Words {
            which: p.volume.which,
            number: p.volume.level,
        }),
        Field::Hidden => whether(p.volume.hidden),
        Field::Mute => whether(p.volume.mute),
        Field::Time1 => number(p.times.time1.0),
        Field::Time2 => number(p.times.time2.0),
        Field::Pwm => whether(s.edition.pwm),
        Field::Backlight => word(p.backlight.mode),
        Field::SecondsLeft => number(p.backlight.left.0),
        Field::Duration => number(p.backlight.duration.0),
        Field::Keypad => whether(p.backlight.keypad),
        Field::Display => whether(p.screen.display),
        Field::Cursor => whether(p.shown),
        Field::IconS => number(p.icons.s),
        Field::IconU => number(p.icons.u),
        Field::IconF => number(p.icons.f),
        Field::IconR => number(p.icons.r),
        Field::IconP => number(p.icons.p),
        Field::IconW => number(p.icons.w),
        Field::Buzzer => number(p.buzzer.0),
        Field::Contrast => number(p.contrast),
        Field::Inverse => mark(&p.inverse),
        Field::Brightness => number(s.edition.brightness),
        Field::Speaker => number(s.edition.speaker),
        Field::LeftLabel => label(p.left),
        Field::RightLabel => label(p.right),
        _ => None,
    }
}

fn say_value(host: &Host, field: Field, value: Option<Value>) {
    match value {
        Some(Value::Words { which, number }) => {
            if let Some(words) = values_of(field).get(which as usize) {
                say_numbered(host, words, number as u64);
            }
        }
        Some(Value::Codes { length, codes }) => {
            say(host, words::OPENING);
            say_codes(host, &codes[..(length as usize).min(LONGEST_LABEL)]);
            say(host, words::CLOSING);
        }
        None => {}
    }
}

// Changes.

// The fields that have changed, each with the value before. Says whether anything has been said by then.
pub fn say_changes(host: &Host, fields: &[Field], was: &Small, is: &Small, said: bool) -> bool {
    let mut any = said;
    for &field in fields {
        let before = value_of(was, field);
        let now = value_of(is, field);
        if before == now {
            continue;
        }
        say_comma(host, any);
        say(host, name_of(field));
        say_value(host, field, before);
        say(host, words::TO);
        say_value(host, field, now);
        any = true;
    }
    any
}

// The fields with their values, whether these have changed or not.
pub fn say_values(host: &Host, fields: &[Field], is: &Small) {
    for (k, &field) in fields.iter().enumerate() {
        say_comma(host, k > 0);
        say(host, name_of(field));
        say_value(host, field, value_of(is, field));
    }
}

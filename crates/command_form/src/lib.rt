// A command's frame as the table of the good frames has it (command's specs/Grammar.antt): its signs, and its numbers, each beside its
// range. `form_of` says it once; which number is out of range and what a writer writes follow from it.
#![tactic(auto)]

ghost use Rattle.std.specs.Prelude.{◌≡◌, ◌||◌, [], ◌∷◌, ◌+◌, ◌≤◌};
ghost use Rattle.record.specs.Range.{mode_in_range, icon_u_in_range, time1_in_range, time2_in_range, contrast_in_range};
ghost use Rattle.line.specs.Lines.{most_codes, empty_line, added};
ghost use Rattle.line.specs.Laws.{Added};
ghost use Rattle.command.specs.Order.{plain};
ghost use Rattle.command.specs.Grammar.{form};
ghost use Rattle.command.specs.InRange.{is_overlay, is_light, rows_named, first_out, numbers_of, command_in_range};
ghost use Rattle.command.specs.Spell.{spell, spelling};
ghost use Rattle.command_form.specs.Pieces.{range_of, pieces};

use command::Command;
use line::{Line, add, add_number, empty};
use record::LARGE;

// The range of a number that is alone in its frame, by its name in command's specs/Ranges.antt.
#[derive(Clone, Copy)]
enum RangeName {
    Mode,
    IconS,
    IconU,
    IconF,
    IconR,
    IconP,
    IconW,
    Level,
    Mute,
    Buzzer,
    Light,
    Contrast,
    Mark,
}

// How a frame is made up: signs alone; I, a letter and a number in its range; the key times; a place on the display.
#[derive(Clone, Copy)]
enum Form {
    TwoSigns(u8, u8),
    ThreeSigns(u8, u8, u8),
    Number(u8, RangeName, u16),
    Times(u16, u16),
    Place(u16, u16),
}

fn form_of(c: Command) -> Form
    ensures { pieces result ≡ form (plain c) }
{
    match c {
        Command::DisplayOff => Form::ThreeSigns(b'I', b'D', b'D'),
        Command::DisplayOn => Form::ThreeSigns(b'I', b'D', b'E'),
        Command::Mode(n) => Form::Number(b'D', RangeName::Mode, n),
        Command::CursorShown => Form::TwoSigns(b'&', b'C'),
        Command::CursorHidden => Form::TwoSigns(b'&', b'D'),
        Command::Clear => Form::TwoSigns(b'&', b'#'),
        Command::Position(row, column) => Form::Place(row, column),
        Command::LabelsEmpty => Form::ThreeSigns(b'I', b'K', b'0'),
        Command::IconS(n) => Form::Number(b'S', RangeName::IconS, n),
        Command::IconU(n) => Form::Number(b'U', RangeName::IconU, n),
        Command::IconF(n) => Form::Number(b'F', RangeName::IconF, n),
        Command::IconR(n) => Form::Number(b'R', RangeName::IconR, n),
        Command::IconP(n) => Form::Number(b'P', RangeName::IconP, n),
        Command::IconW(n) => Form::Number(b'W', RangeName::IconW, n),
        Command::Private(n) => Form::Number(b'L', RangeName::Level, n),
        Command::Handsfree(n) => Form::Number(b'J', RangeName::Level, n),
        Command::HandsfreeOfNote(n) => Form::Number(b'I', RangeName::Level, n),
        Command::Mute(n) => Form::Number(b'M', RangeName::Mute, n),
        Command::KeyTimes(time1, time2) => Form::Times(time1, time2),
        Command::Buzzer(n) => Form::Number(b'B', RangeName::Buzzer, n),
        Command::Light(n) => Form::Number(b'E', RangeName::Light, n),
        Command::LightOn => Form::ThreeSigns(b'I', b'E', b'E'),
        Command::LightAutoStart => Form::ThreeSigns(b'I', b'E', b'A'),
        Command::LightAuto => Form::ThreeSigns(b'I', b'E', b'S'),
        Command::DefaultDuration => Form::ThreeSigns(b'I', b'E', b'R'),
        Command::KeypadSet => Form::ThreeSigns(b'I', b'E', b'e'),
        Command::KeypadCleared => Form::ThreeSigns(b'I', b'E', b'r'),
        Command::Contrast(n) => Form::Number(b'A', RangeName::Contrast, n),
        Command::ContrastAsked => Form::TwoSigns(b'I', b'A'),
        Command::HookAsked => Form::TwoSigns(b'I', b'H'),
        Command::VersionAsked => Form::TwoSigns(b'&', b'V'),
        Command::ClearLine => Form::TwoSigns(b'[', b'K'),
        Command::Inverse(n) => Form::Number(b'Z', RangeName::Mark, n),
    }
}

// The greatest value of each number that begins at 0.
const FLAG: u16 = 1;

const COLUMN: u16 = 15;

const ICON_F: u16 = 6;

const ICON_P: u16 = 19;

const ICON_W: u16 = 3;

const LEVEL: u16 = 10;

const BUZZER: u16 = 255;

const LONGEST_DURATION: u16 = 255;

// A text mode 0, 1, 5, 6 or 10, or an overlay 11 to 18.
fn is_mode(n: u16) -> bool
    ensures same { result ≡ (mode_in_range n || is_overlay n) }
{
    matches!(n, 0..=1 | 5..=6 | 10..=18)
}

fn is_icon_u(n: u16) -> bool
    ensures same { result ≡ icon_u_in_range n }
{
    matches!(n, 0..=1 | 255)
}

fn is_time1(n: u16) -> bool
    ensures same { result ≡ time1_in_range n }
{
    matches!(n, 4..=50)
}

// No repeat, or as Time1.
fn is_time2(n: u16) -> bool
    ensures same { result ≡ time2_in_range n }
{
    (n == 0) | is_time1(n)
}

// Off, or a duration.
fn is_light(n: u16) -> bool
    ensures same { result ≡ is_light n }
{
    n <= LONGEST_DURATION
}

fn is_contrast(n: u16) -> bool
    ensures same { result ≡ contrast_in_range n }
{
    matches!(n, 1..=20)
}

// Whether a range takes a number where a cursor frame or a mark can name so many rows.
fn takes(range: RangeName, rows: u8, n: u16) -> bool
    ensures { result ≡ (range_of range).takes rows n }
{
    match range {
        RangeName::Mode => is_mode(n),
        RangeName::IconS => n <= FLAG,
        RangeName::IconU => is_icon_u(n),
        RangeName::IconF => n <= ICON_F,
        RangeName::IconR => n <= FLAG,
        RangeName::IconP => n <= ICON_P,
        RangeName::IconW => n <= ICON_W,
        RangeName::Level => n <= LEVEL,
        RangeName::Mute => n <= FLAG,
        RangeName::Buzzer => n <= BUZZER,
        RangeName::Light => is_light(n),
        RangeName::Contrast => is_contrast(n),
        RangeName::Mark => n <= rows as u16,
    }
}

// The rows that a cursor frame or a mark can name in a text mode: none in the one of large digits.
pub fn rows_named(mode: u8) -> u8
    ensures same { result ≡ rows_named mode }
{
    if mode == LARGE { 0 } else { record::rows(mode) }
}

// A number, if it is out of range.
fn unless(in_range: bool, n: u16) -> Option<u16>
    ensures same { result ≡ first_out ((n, in_range) ∷ []) }
{
    (!in_range).then_some(n)
}

// The first number of a command that is out of range where a cursor frame or a mark can name so many rows; none where all are in range.
pub fn number_out(c: Command, rows: u8) -> Option<u16>
    ensures same { result ≡ first_out (numbers_of rows c) }
{
    match form_of(c) {
        Form::TwoSigns(_, _) | Form::ThreeSigns(_, _, _) => None,
        Form::Number(_, range, n) => unless(takes(range, rows, n), n),
        Form::Times(time1, time2) => {
            unless(is_time1(time1), time1).or(unless(is_time2(time2), time2))
        }
        Form::Place(row, column) => {
            unless(row < rows as u16, row).or(unless(column <= COLUMN, column))
        }
    }
}

// Whether all of them are in range.
pub fn in_range(c: Command, rows: u8) -> bool
    ensures same { result ≡ command_in_range rows c }
{
    number_out(c, rows).is_none()
}

// The codes of a form, behind those that a line holds.
fn add_form(line: Line, form: Form) -> Line
    requires { line.len + 9 ≤ most_codes }
    ensures { Added line (spell (pieces form)) 9 result }
{
    match form {
        Form::TwoSigns(a, b) => add(line, &[a, b]),
        Form::ThreeSigns(a, b, c) => add(line, &[a, b, c]),
        Form::Number(letter, _, n) => add_number(add(line, &[b'I', letter]), n),
        Form::Times(time1, time2) => {
            add_number(add(add_number(add(line, b"IT"), time1), b";"), time2)
        }
        Form::Place(row, column) => {
            add(
                add_number(add(add_number(add(line, b"["), row), b";"), column),
                b"H",
            )
        }
    }
}

// What stands in a command's frame between ESC and CR.
pub fn body(c: Command) -> Line
    ensures same { result ≡ added empty_line (spelling (plain c)) }
{
    add_form(empty(), form_of(c))
}

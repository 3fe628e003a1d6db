// The commands, and which of them a frame spells. A frame is the bytes between ESC and CR.
// The grammar is in specs/Grammar.antt, which knows nothing of this reader. The ranges of specs/InRange.antt are asked in the
// crate `command_form`, and frames that draw are read in the crate `picture_frame`: each is judged by the definitions here.
#![tactic(auto)]

ghost use Rattle.std.specs.Prelude.{◌≡◌};
ghost use Rattle.command.specs.Pick.{byte_at, with_number, display_of, light_of, contrast_of, after_i, cursor_sign, after_bracket, command_of};
ghost use Rattle.frame_table.specs.Reader as reader;
ghost use Rattle.command.specs.First.{opens_label, first};
ghost use Rattle.command.specs.Reading.{is_text, side_of, read_with, read_of};

use frame_table::{Classes, Numbers};
use lists::BLANK;
use picture::Columns;
use record::LONGEST_LABEL;

// A command of letters, signs and numbers, with its numbers as they were spelt, 0 to 999, in range or not.
#[derive(Clone, Copy)]
pub enum Command {
    DisplayOff,
    DisplayOn,
    Mode(u16),
    CursorShown,
    CursorHidden,
    Clear,
    Position(u16, u16),
    LabelsEmpty,
    IconS(u16),
    IconU(u16),
    IconF(u16),
    IconR(u16),
    IconP(u16),
    IconW(u16),
    Private(u16),
    Handsfree(u16),
    HandsfreeOfNote(u16),
    Mute(u16),
    KeyTimes(u16, u16),
    Buzzer(u16),
    Light(u16),
    LightOn,
    LightAutoStart,
    LightAuto,
    DefaultDuration,
    KeypadSet,
    KeypadCleared,
    Contrast(u16),
    ContrastAsked,
    HookAsked,
    VersionAsked,
    ClearLine,
    Inverse(u16),
}

// Which soft-key label.
#[derive(Clone, Copy)]
pub enum Side {
    Left,
    Right,
}

// What a good frame that is no picture says. A label's codes are the frame's own from its fourth byte on.
#[derive(Clone, Copy)]
pub enum Reading {
    Plain(Command),
    Label(Side),
}

// A picture frame's row and columns.
#[derive(Clone, Copy)]
pub struct PictureFrame {
    pub row: u8,
    pub columns: Columns,
}

// The table of the frames that carry numbers. The class of each byte, sixteen to a row; @ is in no frame.
pub const CLASSES: Classes = *b"\
    @@@@@@@@@@@@@@@@\
    @@@@@@@@@@@@@@@@\
    @@@N@@E@@@@@@@@@\
    ABBBBBBBBB@C@@@@\
    @GPNHIP@JDPKPP@@\
    P@MMLPNP@@PF@@@@\
    @@@@@O@@@@@@@@@@\
    @@O@@@@@@@@@@@@@\
    @@@@@@@@@@@@@@@@\
    @@@@@@@@@@@@@@@@\
    @@@@@@@@@@@@@@@@\
    @@@@@@@@@@@@@@@@\
    @@@@@@@@@@@@@@@@\
    @@@@@@@@@@@@@@@@\
    @@@@@@@@@@@@@@@@\
    @@@@@@@@@@@@@@@@";

pub type NextStates = [u8; ENTRIES];

pub const ENTRIES: usize = 408;

// The next state: a row for each class from @ on, a column for each state from @ on, which refuses; A is the start.
pub const NEXT_STATES: NextStates = *b"\
    @@@@@@@@@@@@@@@@@@@@@@@@\
    @@@@OWWWLWKL@NO@SRS@WVW@\
    @@@@MUU@JUKL@NO@QRS@UVW@\
    @@@@@@@@@@IIIPPP@@@@@@@@\
    @BI@@@@@@@@@@@@@@@@@@@@@\
    @C@@@@@@@@@@@@@@@@@@@@@@\
    @D@@@@@@@@@@@@@@@@@@@@@@\
    @@T@@@W@@@@@@@@@@@@@@@@@\
    @@EW@W@@@@@@@@@@@@@@@@@@\
    @@F@@WW@@@@@@@@@@@@@@@@@\
    @@W@@@@@@@@@@@@@@WWW@@@@\
    @@G@W@@@@@@@@@@@@@@@@@@@\
    @@H@@@@@@@@@@@@@@@@@@@@@\
    @@I@@@W@@@@@@@@@@@@@@@@@\
    @@@W@@@@@@@@@@@@@@@@@@@@\
    @@@@@@W@@@@@@@@@@@@@@@@@\
    @@I@@@@@@@@@@@@@@@@@@@@@";

pub const STATES: u8 = 24;

// The first of the states in which a frame may end: T.
pub const FIRST_GOOD: usize = 20;

// The command of a letter and its number.
#[tactic(auto, unfolding(crate::specs::Pick::with_number))]
pub fn with_number(letter: u8, n: u16) -> Option<Command>
    ensures same { result ≡ with_number letter n }
{
    Some(match letter {
        b'S' => Command::IconS(n),
        b'U' => Command::IconU(n),
        b'F' => Command::IconF(n),
        b'R' => Command::IconR(n),
        b'P' => Command::IconP(n),
        b'W' => Command::IconW(n),
        b'L' => Command::Private(n),
        b'J' => Command::Handsfree(n),
        b'I' => Command::HandsfreeOfNote(n),
        b'M' => Command::Mute(n),
        b'B' => Command::Buzzer(n),
        b'Z' => Command::Inverse(n),
        _ => return None,
    })
}

// After ID: a letter, or a number.
#[tactic(auto, unfolding(crate::specs::Pick::display_of))]
fn display(sign: u8, n: u16) -> Command
    ensures same { result ≡ display_of sign n }
{
    match sign {
        b'D' => Command::DisplayOff,
        b'E' => Command::DisplayOn,
        _ => Command::Mode(n),
    }
}

// After IE: a letter, or a number.
#[tactic(auto, unfolding(crate::specs::Pick::light_of))]
fn light(sign: u8, n: u16) -> Command
    ensures same { result ≡ light_of sign n }
{
    match sign {
        b'E' => Command::LightOn,
        b'A' => Command::LightAutoStart,
        b'S' => Command::LightAuto,
        b'R' => Command::DefaultDuration,
        b'e' => Command::KeypadSet,
        b'r' => Command::KeypadCleared,
        _ => Command::Light(n),
    }
}

// After IA: nothing, which asks, or a number.
#[tactic(auto, unfolding(crate::specs::Pick::contrast_of))]
fn contrast(sign: u8, n: u16) -> Command
    ensures same { result ≡ contrast_of sign n }
{
    match sign {
        0 => Command::ContrastAsked,
        _ => Command::Contrast(n),
    }
}

// The byte after I picks the command.
#[tactic(auto, unfolding(crate::specs::Pick::after_i))]
fn after_i(letter: u8, sign: u8, before: u16, last: u16) -> Option<Command>
    ensures same { result ≡ after_i letter sign before last }
{
    Some(match letter {
        b'D' => display(sign, last),
        b'E' => light(sign, last),
        b'K' => Command::LabelsEmpty,
        b'A' => contrast(sign, last),
        b'H' => Command::HookAsked,
        b'T' => Command::KeyTimes(before, last),
        _ => return with_number(letter, last),
    })
}

// After &.
#[tactic(auto, unfolding(crate::specs::Pick::cursor_sign))]
fn cursor_sign(sign: u8) -> Option<Command>
    ensures same { result ≡ cursor_sign sign }
{
    Some(match sign {
        b'C' => Command::CursorShown,
        b'D' => Command::CursorHidden,
        b'#' => Command::Clear,
        b'V' => Command::VersionAsked,
        _ => return None,
    })
}

// After [: a K, or a position.
#[tactic(auto, unfolding(crate::specs::Pick::after_bracket))]
fn after_bracket(sign: u8, before: u16, last: u16) -> Command
    ensures same { result ≡ after_bracket sign before last }
{
    match sign {
        b'K' => Command::ClearLine,
        _ => Command::Position(before, last),
    }
}

// A byte of a frame; 0 past its end.
pub fn byte_at(f: &[u8], i: usize) -> u8
    ensures same { result ≡ byte_at f.now i }
{
    f.get(i).copied().unwrap_or(0)
}

// The command of a good frame, by its first three bytes and its numbers.
#[tactic(auto, unfolding(crate::specs::Pick::command_of))]
fn command_of(first: u8, second: u8, third: u8, before: u16, last: u16) -> Option<Command>
    ensures same { result ≡ command_of first second third before last }
{
    match first {
        b'I' => after_i(second, third, before, last),
        b'&' => cursor_sign(second),
        b'[' => Some(after_bracket(second, before, last)),
        _ => None,
    }
}

// A label's text: at most 7 codes, none below 0x20.
#[tactic(auto, unfolding(crate::specs::Reading::is_text))]
fn is_text(t: &[u8]) -> bool
    ensures same { result ≡ is_text t.now }
{
    t.len() <= LONGEST_LABEL && t.iter().all(|&code| BLANK <= code)
}

// The command that a frame spells by a table of classes and one of next states.
#[tactic(auto, using(frame_table::specs::Reader::read_refused))]
fn read_table(class: &Classes, next: &NextStates, f: &[u8]) -> Option<Command>
    ensures same { result ≡ reader.read_with first class.now next.now f.now }
{
    let Numbers { before, last } = frame_table::accepted(class, next, STATES, FIRST_GOOD, f)?;
    command_of(byte_at(f, 0), byte_at(f, 1), byte_at(f, 2), before, last)
}

// Which label IK1 or IK2 sets.
fn side_of(sign: u8) -> Side
    ensures same { result ≡ side_of sign }
{
    if sign == b'1' {
        Side::Left
    } else {
        Side::Right
    }
}

// IK1 or IK2 and no other frame.
pub fn opens_label(f: &[u8]) -> bool
    ensures same { result ≡ opens_label f.now }
{
    matches!(f, [b'I', b'K', b'1' | b'2', ..])
}

// What read_command finds, where the two tables that are lent are CLASSES and NEXT_STATES: a constant is copied by whoever names it, so
// whoever reads many frames lends them, and copies them once.
#[tactic(auto, using(crate::proofs::Parts::label_read_lem))]
pub fn read_lent(class: &Classes, next: &NextStates, f: &[u8]) -> Option<Reading>
    ensures same { result ≡ read_with class.now next.now f.now }
{
    if opens_label(f) {
        return is_text(&f[3..]).then_some(Reading::Label(side_of(f[2])));
    }
    read_table(class, next, f).map(Reading::Plain)
}

// The command that a frame spells, or the label that it sets; None for a picture frame, which read_picture reads.
#[tactic(auto, unfolding(crate::specs::Reading::read_of, crate::specs::Table::classes, crate::specs::Table::next_states))]
pub fn read_command(f: &[u8]) -> Option<Reading>
    ensures same { result ≡ read_of f.now }
{
    read_lent(&CLASSES, &NEXT_STATES, f)
}

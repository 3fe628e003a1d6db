// What an obeyed frame does to the record: document 01's third column. specs/Effect.antt has it line by line.
// The text and the picture are changed in place; all that is small goes by value.
#![tactic(auto)]

ghost use Rattle.std.specs.Prelude.{◌≡◌, true, cond, List, [], ℕ, ◌+◌, ◌-◌, ◌≤◌, ◌<◌, length, set, take, drop, replicate};
ghost use Rattle.std.proofs.lemmas.List.Edits.{sets};
ghost use Rattle.lists.specs.Codes.{blank};
ghost use Rattle.lists.specs.Padded.{padded};
ghost use Rattle.record.specs.declared.Edition.{Edition};
ghost use Rattle.command.specs.Order.{plain, label};
ghost use Rattle.command.specs.Reading.{order_found};
ghost use Rattle.sister_command.specs.Reading.{read_in};
ghost use Rattle.command.specs.InRange.{is_picture_row, rows_named, command_in_range};
ghost use Rattle.effect.specs.Effect.{blanks, label_of, muted, light_at, marks_of, kept_in, drawn, effect, carry_out};
ghost use Rattle.effect.specs.Obey.{answer_for, core, Obeys};

use answer::Answer;
use command::{Command, NextStates, Reading, Side};
use frame_table::Classes;
use lists::BLANK;
use picture::{Columns, MOST_COLUMNS};
use record::{
    AUTO, Backlight, DEFAULT_DURATION, HANDSFREE, Label, OFF, ON, PRIVATE, Picture, Seconds,
    Settings, Text, Volume,
};

// The settings after a frame, and what it is answered.
#[derive(Clone, Copy)]
pub struct Obeyed {
    pub settings: Settings,
    pub answer: Answer,
}

// 1 mutes and shows, 0 takes mute away.
fn with_mute(v: Volume, n: u8) -> Volume
    ensures same { result ≡ muted v n }
{
    match n {
        0 => Volume { mute: false, ..v },
        _ => Volume {
            mute: true,
            hidden: false,
            ..v
        },
    }
}

// 0 is off, with no seconds left; another number is the duration.
fn light_at(b: Backlight, n: u8) -> Backlight
    ensures same { result ≡ light_at b n }
{
    match n {
        0 => Backlight {
            mode: OFF,
            left: Seconds(0),
            ..b
        },
        _ => Backlight {
            duration: Seconds(n),
            ..b
        },
    }
}

// The text and the labels.

fn clear(text: &mut Text)
    ensures same { text.new ≡ blanks }
{
    *text = [BLANK; 104];
}

// A blank at a place, if it is one of the text.
fn blank_at(text: &mut [u8], at: usize)
    ensures same { text.new ≡ set text.old at blank }
{
    if at < text.len() {
        text[at] = BLANK;
    }
}

// Blanks from a row's column on to its end.
fn clear_line(text: &mut Text, start: usize, column: u8, end: u8)
    requires { start < 65536 }
    ensures same { text.new ≡ sets text.old (start + column) (replicate (end - column) blank) }
{
    for i in column..end {
        blank_at(text, start + i as usize);
    }
}

// The mark of one row alone; 0 is none.
fn marks_of(n: u8) -> [bool; 5]
    requires { n ≤ 5 }
    ensures same { result ≡ marks_of n }
{
    let mut marks = [false; 5];
    if n != 0 {
        marks[n as usize - 1] = true;
    }
    marks
}

#[tactic(auto, unfolding(lists::specs::Padded::padded))]
fn no_label() -> Label
    ensures same { result ≡ label_of [] }
{
    Label {
        len: 0,
        codes: [0; 7],
    }
}

// The label that a frame sets: its codes from the fourth on, and zero in the places past them.
fn label_of(f: &[u8]) -> Label
    requires { length (drop 3 f.now) ≤ 7 }
    ensures same { result ≡ label_of (drop 3 f.now) }
{
    if f.len() < 3 {
        return no_label();
    }
    let n = f.len() - 3;
    let mut codes = [0; 7];
    codes[..n].copy_from_slice(&f[3..]);
    Label {
        len: n as u8,
        codes,
    }
}

// In picture row 6 only the five low bits are kept.
fn kept(row: u8, column: u8) -> u8
    ensures same { result ≡ kept_in row column }
{
    if row == 6 { column % 32 } else { column }
}

// A picture row from column 0 takes the columns; every column past them stays. A row above 6 is passed over.
fn draw(picture: &mut Picture, row: u8, columns: Columns)
    requires { columns.len ≤ 96 }
    ensures same { picture.new ≡ cond (is_picture_row row) (drawn picture.old row (take columns.len columns.bytes)) picture.old }
{
    if 6 < row {
        return;
    }
    let start = row as usize * MOST_COLUMNS;
    for i in 0..columns.len as usize {
        picture[start + i] = kept(row, columns.bytes[i]);
    }
}

// What a command in range does; its numbers are bytes.
fn changed(mut p: Settings, text: &mut Text, c: Command) -> Settings
    requires { command_in_range (rows_named p.screen.mode) c ≡ true }
    ensures same { (picture : List ℕ) (e : Edition) → core result text.new picture e ≡ effect (plain c) (core p text.old picture e) }
{
    match c {
        Command::DisplayOff => p.screen.display = false,
        Command::DisplayOn => p.screen.display = true,
        Command::Mode(n) => p.screen = effect_modes::to_mode(p.screen, n as u8),
        Command::CursorShown => p.shown = true,
        Command::CursorHidden => p.shown = false,
        Command::Clear => {
            clear(text);
            p.screen.row = 0;
            p.screen.column = 0;
        }
        Command::Position(line, place) => {
            p.screen.row = line as u8;
            p.screen.column = place as u8;
        }
        Command::LabelsEmpty => {
            p.left = no_label();
            p.right = no_label();
        }
        Command::IconS(n) => p.icons.s = n as u8,
        Command::IconU(n) => p.icons.u = n as u8,
        Command::IconF(n) => p.icons.f = n as u8,
        Command::IconR(n) => p.icons.r = n as u8,
        Command::IconP(n) => p.icons.p = n as u8,
        Command::IconW(n) => p.icons.w = n as u8,
        Command::Private(n) => p.volume = effect_modes::at_level(p.volume, PRIVATE, n as u8),
        Command::Handsfree(n) => p.volume = effect_modes::at_level(p.volume, HANDSFREE, n as u8),
        Command::HandsfreeOfNote(n) => p.volume = effect_modes::at_level(
            p.volume, HANDSFREE, n as u8,
        ),
        Command::Mute(n) => p.volume = with_mute(p.volume, n as u8),
        Command::KeyTimes(first, second) => {
            p.times.time1.0 = first as u8;
            p.times.time2.0 = second as u8;
        }
        Command::Buzzer(n) => p.buzzer.0 = n as u8,
        Command::Light(n) => p.backlight = light_at(p.backlight, n as u8),
        Command::LightOn => {
            p.backlight.mode = ON;
            p.backlight.left.0 = 0;
        }
        // Only IEA starts the seconds; IES keeps those that are left.
        Command::LightAutoStart => {
            p.backlight.mode = AUTO;
            p.backlight.left = p.backlight.duration;
        }
        Command::LightAuto => p.backlight.mode = AUTO,
        Command::DefaultDuration => p.backlight.duration.0 = DEFAULT_DURATION,
        Command::KeypadSet => p.backlight.keypad = true,
        Command::KeypadCleared => p.backlight.keypad = false,
        Command::Contrast(n) => p.contrast = n as u8,
        Command::ContrastAsked | Command::HookAsked | Command::VersionAsked => (),
        Command::ClearLine => {
            let start = record::row_start(p.screen.mode, p.screen.row);
            let end = record::row_end(p.screen.mode);
            clear_line(text, start, p.screen.column, end);
        }
        Command::Inverse(n) => p.inverse = marks_of(n as u8),
    }
    p
}

// A question has an answer.
fn answer_for(c: Command) -> Answer
    ensures same { result ≡ answer_for c }
{
    match c {
        Command::ContrastAsked => Answer::Contrast,
        Command::HookAsked => Answer::Hook,
        Command::VersionAsked => Answer::Version,
        _ => Answer::Silence,
    }
}

// A command of the grammar: with a number out of range it is passed over.
fn obey_command(p: Settings, text: &mut Text, c: Command) -> Settings
    ensures same { (picture : List ℕ) (e : Edition) → core result text.new picture e ≡ carry_out (plain c) (core p text.old picture e) }
{
    let rows = command_form::rows_named(p.screen.mode);
    if command_form::in_range(c, rows) {
        changed(p, text, c)
    } else {
        p
    }
}

fn obey_label(mut p: Settings, side: Side, f: &[u8]) -> Settings
    requires { length (drop 3 f.now) ≤ 7 }
    ensures same { (text picture : List ℕ) (e : Edition) → core result text picture e ≡ effect (label side (drop 3 f.now)) (core p text picture e) }
{
    let label = label_of(f);
    match side {
        Side::Left => p.left = label,
        Side::Right => p.right = label,
    }
    p
}

// A frame that is no picture, read in its edition.
fn read_in(sister: bool, class: &Classes, next: &NextStates, frame: &[u8]) -> Option<Reading>
    ensures same { result ≡ read_in sister class.now next.now frame.now }
{
    if sister {
        sister_command::read_shared(frame)
    } else {
        command::read_lent(class, next, frame)
    }
}

// Obeys a frame: the text and the picture in place, the settings handed back.
// The frame is read in its edition: by two tables that are lent, or as the sister spells it; what only she has is not obeyed here.
pub fn obey(
    settings: Settings,
    text: &mut Text,
    picture: &mut Picture,
    frame: &[u8],
    sister: bool,
    class: &Classes,
    next: &NextStates,
) -> Obeyed
    ensures obeys { (e : Edition) → Obeys (order_found (read_in sister class.now next.now frame.now) frame.now) (core settings text.old picture.old e) result (core result.settings text.new picture.new e) }
{
    if picture_frame::opens_picture(frame) {
        let Some(drawn) = picture_frame::read_picture(frame) else {
            return Obeyed {
                settings,
                answer: Answer::QuestionMark,
            };
        };
        draw(picture, drawn.row, drawn.columns);
        return Obeyed {
            settings,
            answer: Answer::Silence,
        };
    }
    match read_in(sister, class, next, frame) {
        None => Obeyed {
            settings,
            answer: Answer::QuestionMark,
        },
        Some(Reading::Plain(c)) => Obeyed {
            settings: obey_command(settings, text, c),
            answer: answer_for(c),
        },
        Some(Reading::Label(side)) => Obeyed {
            settings: obey_label(settings, side, frame),
            answer: Answer::Silence,
        },
    }
}

// Which fields a command sets, and what its numbers take.
ghost use Rattle.std.specs.Prelude.{◌≡◌};
ghost use Rattle.command.specs.Ranges.{is_overlay};
ghost use Rattle.explain.specs.Commands.{fields_of, label_of, field_out, own_field_out};

use crate::fields::{Field, say_takes};
use crate::part_line::{say, say_count};
use crate::words;
use command::{Command, Side};
use program::Host;
use sister_command::SisterCommand;

// The overlays that a frame can name.
const FIRST_OVERLAY: u16 = 11;

const LAST_OVERLAY: u16 = 18;

// Frames that are obeyed.

fn is_overlay(n: u16) -> bool
    ensures { result ≡ is_overlay n }
{
    (FIRST_OVERLAY..=LAST_OVERLAY).contains(&n)
}

// The fields that a command sets, in the order in which they are told.
pub fn fields_of(c: Command) -> &'static [Field]
    ensures same { result.now ≡ fields_of c }
{
    match c {
        Command::DisplayOff | Command::DisplayOn => &[Field::Display],
        Command::CursorShown | Command::CursorHidden => &[Field::Cursor],
        Command::LabelsEmpty => &[Field::LeftLabel, Field::RightLabel],
        Command::LightOn | Command::LightAutoStart => &[Field::Backlight, Field::SecondsLeft],
        Command::LightAuto => &[Field::Backlight],
        Command::DefaultDuration => &[Field::Duration],
        Command::KeypadSet | Command::KeypadCleared => &[Field::Keypad],
        Command::Clear | Command::Position(..) => &[Field::Position],
        Command::IconS(_) => &[Field::IconS],
        Command::IconU(_) => &[Field::IconU],
        Command::IconF(_) => &[Field::IconF],
        Command::IconR(_) => &[Field::IconR],
        Command::IconP(_) => &[Field::IconP],
        Command::IconW(_) => &[Field::IconW],
        Command::Private(_) | Command::Handsfree(_) | Command::HandsfreeOfNote(_) => {
            &[Field::Volume, Field::Hidden]
        }
        Command::Buzzer(_) => &[Field::Buzzer],
        Command::Contrast(_) => &[Field::Contrast],
        Command::Inverse(_) => &[Field::Inverse],
        Command::KeyTimes(..) => &[Field::Time1, Field::Time2],
        Command::Mode(n) if is_overlay(n) => &[Field::Overlay],
        Command::Mode(_) => &[Field::Mode, Field::Overlay, Field::Position],
        Command::Mute(0) => &[Field::Mute],
        // Mute on also shows the volume.
        Command::Mute(_) => &[Field::Hidden, Field::Mute],
        Command::Light(0) => &[Field::Backlight, Field::SecondsLeft],
        Command::Light(_) => &[Field::Duration],
        // These set no field, and are told by words of their own.
        Command::ClearLine | Command::ContrastAsked | Command::HookAsked | Command::VersionAsked =>
            &[],
    }
}

// The field that a label's frame sets.
pub fn label_of(side: Side) -> Field
    ensures same { result ≡ label_of side }
{
    match side {
        Side::Left => Field::LeftLabel,
        Side::Right => Field::RightLabel,
    }
}

// Frames that are passed over.

// Which number of a command is out of range: its first one that is is `out`. Where that is the second of two, the first is in range and
// so another.
pub fn field_out(c: Command, out: u16) -> Option<Field>
    ensures same { result ≡ field_out c out }
{
    match c {
        Command::Position(row, _) if row == out => Some(Field::Row),
        Command::Position(..) => Some(Field::Column),
        Command::KeyTimes(time1, _) if time1 == out => Some(Field::Time1),
        Command::KeyTimes(..) => Some(Field::Time2),
        Command::Mute(_) => Some(Field::Mute),
        Command::Inverse(_) => Some(Field::Mark),
        _ => fields_of(c).first().copied(),
    }
}

// The same of a command of the sister's own. Those without a number are never passed over.
pub fn own_field_out(c: SisterCommand, out: u16) -> Option<Field>
    ensures same { result ≡ own_field_out c out }
{
    match c {
        SisterCommand::Cursor(_) => Some(Field::SisterCursor),
        SisterCommand::Mode(_) => Some(Field::SisterMode),
        SisterCommand::Light(_) => Some(Field::SisterDuration),
        SisterCommand::IconU(_) => Some(Field::SisterIconU),
        SisterCommand::Brightness(_) => Some(Field::Brightness),
        SisterCommand::KeyTimes(time1, _) if time1 == out => Some(Field::SisterTime1),
        SisterCommand::KeyTimes(..) => Some(Field::Time2),
        SisterCommand::Speaker(_) => Some(Field::Speaker),
        SisterCommand::Restart
        | SisterCommand::LightTo(_)
        | SisterCommand::Asked(_)
        | SisterCommand::Step(_) => None,
    }
}

// What a number takes, in a text mode. Rows are counted from 0, marks from 1; where a mode has no row that a frame can name there is
// nothing to take.
pub fn say_range(host: &Host, field: Field, mode: u8) {
    let rows = command_form::rows_named(mode);
    match field {
        Field::Row if rows == 0 => say(host, words::NO_ROW),
        Field::Row => say_takes(host, field, rows as u64 - 1),
        Field::Mark if rows == 0 => say(host, words::NO_MARK),
        Field::Mark => say_takes(host, field, rows as u64),
        _ => {
            say_takes(host, field, 0);
            return;
        }
    }
    say_count(host, words::IN_MODE, mode as u64);
}

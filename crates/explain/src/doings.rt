// What an obeyed frame did: which fields of the record it changed, or what it asked.
use crate::commands::{fields_of, label_of};
use crate::fields::{EVERY_FIELD, Field, say_changes, say_values};
use crate::part_line::{changes, say, say_answer, say_columns, say_count, say_number};
use crate::text::{say_cleared_line, say_cleared_lines};
use crate::words;
use command::{Command, Reading};
use program::Host;
use record::{Picture, Small, Text};
use sister_command::{SisterCommand, SisterReading};

// The record, but for its open frame: behind a whole part there is none.
#[derive(Clone, Copy)]
pub struct Handset {
    pub small: Small,
    pub text: Text,
    pub picture: Picture,
}

// What a part did: the handset before and behind it, and the bytes that answered it.
#[derive(Clone, Copy)]
pub struct Deed<'a> {
    pub was: &'a Handset,
    pub is: &'a Handset,
    pub answer: &'a [u8],
}

// Each says what was done, and whether anything has changed or was answered.

// The changes of these fields or, where they have none, their values.
fn say_set(host: &Host, fields: &[Field], deed: &Deed) -> bool {
    let is = &deed.is.small;
    let changed = say_changes(host, fields, &deed.was.small, is, false);
    if !changed {
        say_values(host, fields, is);
    }
    changed
}

// The cursor goes to 0,0.
fn say_clear(host: &Host, deed: &Deed) -> bool {
    let is = &deed.is.small;
    let position = &[Field::Position];
    let cleared = say_cleared_lines(host, &deed.was.text, &deed.is.text);
    let changed = say_changes(host, position, &deed.was.small, is, cleared);
    if !changed {
        say(host, words::ALL_CLEARED);
        say_values(host, position, is);
    }
    changed
}

// Of the columns that a frame draws some have changed.
fn say_picture(host: &Host, frame: &[u8], deed: &Deed) -> bool {
    let Some(drawn) = picture_frame::read_picture(frame) else {
        return false;
    };
    say_count(host, words::PICTURE_ROW, drawn.row as u64);
    say(host, words::COMMA);
    say_columns(host, 0, (drawn.columns.len as u64).saturating_sub(1));
    let changed = changes(&deed.was.picture, &deed.is.picture);
    if changed == 0 {
        return false;
    }
    say(host, words::COLON);
    say_number(host, changed as u64);
    say(host, words::CHANGED);
    true
}

fn say_asked(host: &Host, question: &[u8], answer: &[u8]) -> bool {
    say(host, question);
    say_answer(host, answer);
    true
}

// What a command of the sister's own did. Only a restart changes more than fields.
fn say_own(host: &Host, c: SisterCommand, deed: &Deed) -> bool {
    let was = &deed.was.small;
    let is = &deed.is.small;
    match c {
        SisterCommand::Asked(_) => say_asked(host, words::ASKED, deed.answer),
        SisterCommand::Restart => {
            say(host, words::RESTART);
            say_changes(host, EVERY_FIELD, was, is, true)
        }
        _ => {
            let changed = say_changes(host, EVERY_FIELD, was, is, false);
            if !changed {
                say(host, words::DONE);
            }
            changed
        }
    }
}

fn say_plain(host: &Host, c: Command, deed: &Deed) -> bool {
    match c {
        Command::ContrastAsked => say_asked(host, words::CONTRAST_ASKED, deed.answer),
        Command::HookAsked => say_asked(host, words::HOOK_ASKED, deed.answer),
        Command::VersionAsked => say_asked(host, words::VERSION_ASKED, deed.answer),
        Command::ClearLine => say_cleared_line(
            host,
            &deed.was.text,
            &deed.is.text,
            &deed.was.small.settings.screen,
        ),
        Command::Clear => say_clear(host, deed),
        _ => say_set(host, fields_of(c), deed),
    }
}

// What a frame did that reads so in the record's edition.
pub fn say_obeyed(host: &Host, reading: Option<Reading>, frame: &[u8], deed: &Deed) -> bool {
    match reading {
        Some(Reading::Plain(c)) => say_plain(host, c, deed),
        Some(Reading::Label(side)) => say_set(host, &[label_of(side)], deed),
        None => match sister_command::read_sister(frame) {
            Some(SisterReading::Own(c)) => say_own(host, c, deed),
            _ => say_picture(host, frame, deed),
        },
    }
}

// The commands that only the sister handset of AN1900 has, and which command a frame spells in her edition: one of the first
// edition's, which she spells in her own way, or one of her own. Her labels and pictures are the first edition's.
// The grammar is in specs/Grammar.antt, which knows nothing of this reader.
#![tactic(auto)]

ghost use Rattle.std.specs.Prelude.{◌≡◌};
ghost use Rattle.sister_command.specs.Pick.{asked_or, stepped_or, mode_of, light_of, after_i, after_and, after_k, command_of};
ghost use Rattle.sister_command.specs.Reading.{sister_read, shared_read, is_own};

use command::{Command, Reading, byte_at, with_number};
use frame_table::{Classes, Numbers};

// What can be asked.
#[derive(Clone, Copy)]
pub enum Question {
    Position,
    Version,
    Hook,
    Ptt,
    Contrast,
    Mode,
    Light,
    Brightness,
    Times,
    Speaker,
}

// A number one higher or one lower.
#[derive(Clone, Copy)]
pub enum Step {
    ContrastUp,
    ContrastDown,
    BrightnessUp,
    BrightnessDown,
    SpeakerUp,
    SpeakerDown,
}

// What a letter after IE does to the light.
#[derive(Clone, Copy)]
pub enum LightChange {
    On,
    AutoStart,
    Auto,
    PwmOn,
    PwmAuto,
    Restart,
    KeypadSet,
    KeypadClearedStart,
    KeypadCleared,
}

// A command of her own, with its numbers as they were spelt, 0 to 999, in range or not.
#[derive(Clone, Copy)]
pub enum SisterCommand {
    Cursor(u16),
    Restart,
    Mode(u16),
    Light(u16),
    LightTo(LightChange),
    IconU(u16),
    Brightness(u16),
    KeyTimes(u16, u16),
    Speaker(u16),
    Asked(Question),
    Step(Step),
}

// What a good frame that is no label and no picture says in her edition.
#[derive(Clone, Copy)]
pub enum SisterReading {
    Shared(Command),
    Own(SisterCommand),
}

// Her table. The class of each byte, thirty-two to a row; @ is in no frame.
pub const CLASSES: Classes = *b"\
    @@@@@@@@@@@@@@@@@@@@@@@@@@@@@@@@\
    @@@@@@E@@@@X@X@@ABBBBBBBBB@C@@@W\
    @GYHIJY@KDYFYLM@NOPQRYSY@@Y@@@@@\
    @@@T@U@@@@@@@@@@@@@V@@@@@@@@@@@@\
    @@@@@@@@@@@@@@@@@@@@@@@@@@@@@@@@\
    @@@@@@@@@@@@@@@@@@@@@@@@@@@@@@@@\
    @@@@@@@@@@@@@@@@@@@@@@@@@@@@@@@@\
    @@@@@@@@@@@@@@@@@@@@@@@@@@@@@@@@";

pub type SisterStates = [u8; ENTRIES];

pub const ENTRIES: usize = 494;

// The next state: a row for each class from @ on, a column for each state from @ on, which refuses; A is the start.
pub const NEXT_STATES: SisterStates = *b"\
    @@@@@@@@@@@@@@@@@@@\
    @@@I@@RRRROR@NO@QR@\
    @@@@@@PPP@MP@NO@QR@\
    @@@@@@@@@@@@@KKK@@@\
    @B@@@@@@@@@@@@@@@@@\
    @C@@@@@@@@@@@@@@@@@\
    @DIR@@@@@@@@@@@@@@@\
    @@H@@@@R@@@@@@@@@@@\
    @@@K@@@@@@@@@@@@@@@\
    @@ER@@R@@@@@@@@@@@@\
    @@G@@@RR@@@@@@@@@@@\
    @@@JL@@@@@@@@@@@@@@\
    @@K@@F@@@@@@@@@@@@@\
    @@H@@@@@@@@@@@@@@@@\
    @@K@L@@R@@@@@@@@@@@\
    @@@@@@@R@@@@@@@@@@@\
    @@K@@@@R@@@@@@@@@@@\
    @@K@@@@R@@@@@@@@@@@\
    @@J@@@@@@@@@@@@@@@@\
    @@HL@@@@@@@@@@@@@@@\
    @@@@@@@R@@@@@@@@@@@\
    @@@@@@@R@@@@@@@@@@@\
    @@@@@@@R@@@@@@@@@@@\
    @@@@@@RRR@R@R@@@@@@\
    @@@@@@@@R@@@@@@@@@@\
    @@K@@@@@@@@@@@@@@@@";

pub const STATES: u8 = 19;

// The first of the states in which a frame may end: P.
pub const FIRST_GOOD: usize = 16;

// A question, or what else the frame says.
#[tactic(auto, unfolding(crate::specs::Pick::asked_or))]
fn asked_or(sign: u8, question: Question, other: SisterReading) -> SisterReading
    ensures same { result ≡ asked_or sign question other }
{
    match sign {
        b'?' => SisterReading::Own(SisterCommand::Asked(question)),
        _ => other,
    }
}

// A question, a step, or what else the frame says.
#[tactic(auto, unfolding(crate::specs::Pick::stepped_or))]
fn stepped_or(
    sign: u8,
    question: Question,
    up: Step,
    down: Step,
    other: SisterReading,
) -> SisterReading
    ensures same { result ≡ stepped_or sign question up down other }
{
    match sign {
        b'?' => SisterReading::Own(SisterCommand::Asked(question)),
        b'+' => SisterReading::Own(SisterCommand::Step(up)),
        b'-' => SisterReading::Own(SisterCommand::Step(down)),
        _ => other,
    }
}

// After IDM: a letter, a question, or a number.
#[tactic(auto, unfolding(crate::specs::Pick::mode_of))]
fn mode(sign: u8, n: u16) -> SisterReading
    ensures same { result ≡ mode_of sign n }
{
    match sign {
        b'D' => SisterReading::Shared(Command::DisplayOff),
        b'E' => SisterReading::Shared(Command::DisplayOn),
        b'?' => SisterReading::Own(SisterCommand::Asked(Question::Mode)),
        _ => SisterReading::Own(SisterCommand::Mode(n)),
    }
}

// After IE: a letter, a question, or a number.
#[tactic(auto, unfolding(crate::specs::Pick::light_of))]
fn light(sign: u8, n: u16) -> SisterReading
    ensures same { result ≡ light_of sign n }
{
    match sign {
        b'E' => SisterReading::Own(SisterCommand::LightTo(LightChange::On)),
        b'A' => SisterReading::Own(SisterCommand::LightTo(LightChange::AutoStart)),
        b'S' => SisterReading::Own(SisterCommand::LightTo(LightChange::Auto)),
        b'P' => SisterReading::Own(SisterCommand::LightTo(LightChange::PwmOn)),
        b'Q' => SisterReading::Own(SisterCommand::LightTo(LightChange::PwmAuto)),
        b'R' => SisterReading::Own(SisterCommand::LightTo(LightChange::Restart)),
        b'e' => SisterReading::Own(SisterCommand::LightTo(LightChange::KeypadSet)),
        b'c' => SisterReading::Own(SisterCommand::LightTo(LightChange::KeypadClearedStart)),
        b's' => SisterReading::Own(SisterCommand::LightTo(LightChange::KeypadCleared)),
        b'?' => SisterReading::Own(SisterCommand::Asked(Question::Light)),
        _ => SisterReading::Own(SisterCommand::Light(n)),
    }
}

// The byte after I picks the command; after ID the fourth byte does. Letters that only a number follows are the first edition's, save U.
#[tactic(auto, unfolding(crate::specs::Pick::after_i))]
fn after_i(letter: u8, sign: u8, next: u8, before: u16, last: u16) -> Option<SisterReading>
    ensures same { result ≡ after_i letter sign next before last }
{
    Some(match letter {
        b'K' => SisterReading::Shared(Command::LabelsEmpty),
        b'U' => SisterReading::Own(SisterCommand::IconU(last)),
        b'A' => stepped_or(
            sign,
            Question::Contrast,
            Step::ContrastUp,
            Step::ContrastDown,
            SisterReading::Shared(Command::Contrast(last)),
        ),
        b'N' => stepped_or(
            sign,
            Question::Brightness,
            Step::BrightnessUp,
            Step::BrightnessDown,
            SisterReading::Own(SisterCommand::Brightness(last)),
        ),
        b'V' => stepped_or(
            sign,
            Question::Speaker,
            Step::SpeakerUp,
            Step::SpeakerDown,
            SisterReading::Own(SisterCommand::Speaker(last)),
        ),
        b'T' => asked_or(
            sign,
            Question::Times,
            SisterReading::Own(SisterCommand::KeyTimes(before, last)),
        ),
        b'D' => mode(next, last),
        b'E' => light(sign, last),
        _ => SisterReading::Shared(with_number(letter, last)?),
    })
}

// After &.
#[tactic(auto, unfolding(crate::specs::Pick::after_and))]
fn after_and(letter: u8, sign: u8, before: u16, last: u16) -> Option<SisterReading>
    ensures same { result ≡ after_and letter sign before last }
{
    Some(match letter {
        b'C' => SisterReading::Own(SisterCommand::Cursor(last)),
        b'D' => SisterReading::Shared(Command::Clear),
        b'H' => asked_or(
            sign,
            Question::Position,
            SisterReading::Shared(Command::Position(before, last)),
        ),
        b'K' => SisterReading::Shared(Command::ClearLine),
        b'0' => SisterReading::Own(SisterCommand::Restart),
        b'V' => SisterReading::Own(SisterCommand::Asked(Question::Version)),
        _ => return None,
    })
}

// After K: H or P.
#[tactic(auto, unfolding(crate::specs::Pick::after_k))]
fn after_k(letter: u8) -> SisterReading
    ensures same { result ≡ after_k letter }
{
    SisterReading::Own(SisterCommand::Asked(match letter {
        b'H' => Question::Hook,
        _ => Question::Ptt,
    }))
}

// The command of a good frame, by its first four bytes and its numbers.
#[tactic(auto, unfolding(crate::specs::Pick::command_of))]
fn command_of(
    first: u8,
    second: u8,
    third: u8,
    fourth: u8,
    before: u16,
    last: u16,
) -> Option<SisterReading>
    ensures same { result ≡ command_of first second third fourth before last }
{
    match first {
        b'I' => after_i(second, third, fourth, before, last),
        b'&' => after_and(second, third, before, last),
        _ => Some(after_k(second)),
    }
}

// The command that a frame spells in her edition; None for labels and pictures, which are read as in the first edition.
pub fn read_sister(f: &[u8]) -> Option<SisterReading>
    ensures same { result ≡ sister_read f.now }
{
    let Numbers { before, last } = frame_table::accepted(
        &CLASSES,
        &NEXT_STATES,
        STATES,
        FIRST_GOOD,
        f,
    )?;
    command_of(
        byte_at(f, 0),
        byte_at(f, 1),
        byte_at(f, 2),
        byte_at(f, 3),
        before,
        last,
    )
}

// What a frame says that spells no command of her own: a label, or a command that the first edition has too.
#[tactic(auto, unfolding(crate::specs::Reading::shared_read))]
pub fn read_shared(f: &[u8]) -> Option<Reading>
    ensures same { result ≡ shared_read f.now }
{
    if command::opens_label(f) {
        return command::read_command(f);
    }
    match read_sister(f)? {
        SisterReading::Shared(c) => Some(Reading::Plain(c)),
        SisterReading::Own(_) => None,
    }
}

// Whether a frame spells a command of her own.
pub fn is_own(f: &[u8]) -> bool
    ensures same { result ≡ is_own f.now }
{
    matches!(read_sister(f), Some(SisterReading::Own(_)))
}

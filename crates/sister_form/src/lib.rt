// A command of the sister as her table of the good frames has it (sister_command's specs/Grammar.antt): which of its numbers is out of
// range, and what is written for it. What her table has as the first edition's is handed on to command_form.
#![tactic(auto)]

ghost use Rattle.std.specs.Prelude.{◌≡◌, [], ◌∷◌, ◌++◌, ◌≤◌, leb, length};
ghost use Rattle.numeral.specs.Numeral.{decimal};
ghost use Rattle.line.specs.Lines.{empty_line, added};
ghost use Rattle.line.specs.Laws.{Added};
ghost use Rattle.command.specs.Order.{plain};
ghost use Rattle.command.specs.Spell.{spell};
ghost use Rattle.command.specs.InRange.{first_out};
ghost use Rattle.sister_command.specs.declared.SisterCommand.TheVariants as Hers;
ghost use Rattle.sister_command.specs.Order.{first, own};
ghost use Rattle.sister_command.specs.Grammar.{sister_form, is_shared};
ghost use Rattle.sister_command.specs.InRange.{own_numbers, own_in_range};
ghost use Rattle.sister_form.specs.Pieces.{pieces};

use command::Command;
use line::{Line, add, add_number, empty};
use sister_command::{LightChange, Question, SisterCommand, Step};

// The greatest value of each number that begins at 0.
pub const SHOWN: u16 = 1;

const LAST_MODE: u16 = 12;

const LONGEST_DURATION: u16 = 250;

pub const FLASHING: u8 = 2;

pub const MOST_BRIGHTNESS: u8 = 100;

pub const LOUDEST: u8 = 7;

// A number that begins at 0: it, if it is above the greatest.
fn if_above(most: u16, n: u16) -> Option<u16>
    ensures same { result ≡ first_out ((n, leb n most) ∷ []) }
{
    (most < n).then_some(n)
}

// As in the first edition, or 0 and 0: no key repeats, and none is ever long.
fn times_out(time1: u16, time2: u16) -> Option<u16>
    ensures same { result ≡ first_out (own_numbers 0 (Hers.KeyTimes time1 time2)) }
{
    if (time1 == 0) & (time2 == 0) {
        None
    } else {
        command_form::number_out(Command::KeyTimes(time1, time2), 0)
    }
}

// The first number of a command of her own that is out of range; none where all are in range.
pub fn own_out(c: SisterCommand) -> Option<u16>
    ensures same { result ≡ first_out (own_numbers 0 c) }
{
    match c {
        SisterCommand::Cursor(n) => if_above(SHOWN, n),
        SisterCommand::Mode(n) => if_above(LAST_MODE, n),
        SisterCommand::Light(n) => if_above(LONGEST_DURATION, n),
        SisterCommand::IconU(n) => if_above(FLASHING as u16, n),
        SisterCommand::Brightness(n) => if_above(MOST_BRIGHTNESS as u16, n),
        SisterCommand::KeyTimes(time1, time2) => times_out(time1, time2),
        SisterCommand::Speaker(n) => if_above(LOUDEST as u16, n),
        SisterCommand::Restart
        | SisterCommand::LightTo(_)
        | SisterCommand::Asked(_)
        | SisterCommand::Step(_) => None,
    }
}

// Whether all of them are in range.
pub fn own_in_range(c: SisterCommand) -> bool
    ensures same { result ≡ own_in_range c }
{
    own_out(c).is_none()
}

// What stands between ESC and CR.

fn signs(codes: &[u8]) -> Line
    ensures same { result ≡ added empty_line codes.now }
{
    add(empty(), codes)
}

fn numbered(letters: &[u8], n: u16) -> Line
    requires { length letters.now ≤ 4 }
    ensures { Added empty_line (letters.now ++ decimal n) 7 result }
{
    add_number(add(empty(), letters), n)
}

fn light_body(change: LightChange) -> Line
    ensures same { result ≡ added empty_line (spell (sister_form (own (Hers.LightTo change)))) }
{
    match change {
        LightChange::On => signs(b"IEE"),
        LightChange::AutoStart => signs(b"IEA"),
        LightChange::Auto => signs(b"IES"),
        LightChange::PwmOn => signs(b"IEP"),
        LightChange::PwmAuto => signs(b"IEQ"),
        LightChange::Restart => signs(b"IER"),
        LightChange::KeypadSet => signs(b"IEe"),
        LightChange::KeypadClearedStart => signs(b"IEc"),
        LightChange::KeypadCleared => signs(b"IEs"),
    }
}

fn question_body(question: Question) -> Line
    ensures same { result ≡ added empty_line (spell (sister_form (own (Hers.Asked question)))) }
{
    match question {
        Question::Position => signs(b"&H?"),
        Question::Version => signs(b"&V?"),
        Question::Hook => signs(b"KH?"),
        Question::Ptt => signs(b"KP?"),
        Question::Contrast => signs(b"IA?"),
        Question::Mode => signs(b"IDM?"),
        Question::Light => signs(b"IE?"),
        Question::Brightness => signs(b"IN?"),
        Question::Times => signs(b"IT?"),
        Question::Speaker => signs(b"IV?"),
    }
}

fn step_body(step: Step) -> Line
    ensures same { result ≡ added empty_line (spell (sister_form (own (Hers.Step step)))) }
{
    match step {
        Step::ContrastUp => signs(b"IA+"),
        Step::ContrastDown => signs(b"IA-"),
        Step::BrightnessUp => signs(b"IN+"),
        Step::BrightnessDown => signs(b"IN-"),
        Step::SpeakerUp => signs(b"IV+"),
        Step::SpeakerDown => signs(b"IV-"),
    }
}

// Of a command of her own. Her times are spelt as the first edition's.
pub fn own_body(c: SisterCommand) -> Line
    ensures same { result ≡ added empty_line (spell (sister_form (own c))) }
{
    match c {
        SisterCommand::Cursor(n) => numbered(b"&C", n),
        SisterCommand::Restart => signs(b"&00"),
        SisterCommand::Mode(n) => numbered(b"IDM", n),
        SisterCommand::Light(n) => numbered(b"IE", n),
        SisterCommand::LightTo(change) => light_body(change),
        SisterCommand::IconU(n) => numbered(b"IU", n),
        SisterCommand::Brightness(n) => numbered(b"IN", n),
        SisterCommand::KeyTimes(time1, time2) => {
            command_form::body(Command::KeyTimes(time1, time2))
        }
        SisterCommand::Speaker(n) => numbered(b"IV", n),
        SisterCommand::Asked(question) => question_body(question),
        SisterCommand::Step(step) => step_body(step),
    }
}

// How she spells a command of the first edition: as it does, by signs of her own, by a place after &H, or not at all.
#[derive(Clone, Copy)]
enum SharedForm {
    Same,
    TwoSigns(u8, u8),
    FourSigns(u8, u8, u8, u8),
    Place(u16, u16),
    Never,
}

fn shared_form(c: Command) -> SharedForm
    ensures { pieces c result ≡ sister_form (first (plain c)) }
{
    match c {
        Command::Clear => SharedForm::TwoSigns(b'&', b'D'),
        Command::Position(row, column) => SharedForm::Place(row, column),
        Command::ClearLine => SharedForm::TwoSigns(b'&', b'K'),
        Command::DisplayOff => SharedForm::FourSigns(b'I', b'D', b'M', b'D'),
        Command::DisplayOn => SharedForm::FourSigns(b'I', b'D', b'M', b'E'),
        Command::LabelsEmpty
        | Command::IconS(_)
        | Command::IconF(_)
        | Command::IconR(_)
        | Command::IconP(_)
        | Command::IconW(_)
        | Command::Private(_)
        | Command::Handsfree(_)
        | Command::Mute(_)
        | Command::Buzzer(_)
        | Command::Contrast(_)
        | Command::Inverse(_) => SharedForm::Same,
        Command::Mode(_)
        | Command::CursorShown
        | Command::CursorHidden
        | Command::IconU(_)
        | Command::HandsfreeOfNote(_)
        | Command::KeyTimes(_, _)
        | Command::Light(_)
        | Command::LightOn
        | Command::LightAutoStart
        | Command::LightAuto
        | Command::DefaultDuration
        | Command::KeypadSet
        | Command::KeypadCleared
        | Command::ContrastAsked
        | Command::HookAsked
        | Command::VersionAsked => SharedForm::Never,
    }
}

// Whether she has a command of the first edition.
pub fn is_shared(c: Command) -> bool
    ensures same { result ≡ is_shared c }
{
    !matches!(shared_form(c), SharedForm::Never)
}

// Of a command of the first edition, as she spells it; nothing if she has it not.
pub fn shared_body(c: Command) -> Line
    ensures same { result ≡ added empty_line (spell (sister_form (first (plain c)))) }
{
    match shared_form(c) {
        SharedForm::Same => command_form::body(c),
        SharedForm::TwoSigns(a, b) => signs(&[a, b]),
        SharedForm::FourSigns(x, y, z, w) => signs(&[x, y, z, w]),
        SharedForm::Place(row, column) => add_number(add(numbered(b"&H", row), b";"), column),
        SharedForm::Never => signs(&[]),
    }
}

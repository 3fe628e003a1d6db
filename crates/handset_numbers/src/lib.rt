// Enums by number, as they cross to C: a function for each table of specs/Numbers.antt, and nothing else. The rules of the
// choice screen have the numbers that `choice` gives them. include/handset.h has the same tables.
// No `From` and no `as u8`: C's numbers stand here alone, not with the enums, and docs/PROMISES.md names each function.
#![tactic(auto)]

ghost use Rattle.std.specs.Prelude.{◌≡◌};
ghost use Rattle.choice.specs.Rules.{rule_number};
ghost use Rattle.handset_numbers.specs.Numbers.{phase_of, side_of, command_of, sister_command_of, sms_number, volume_numbers, owner_numbers, shown_numbers, verdict_numbers, kind_number};

use choice::Rule;
use command::{Command, Side};
use parts::Kind;
use seen::{Owner, Phase, Shown, SmsPanel, VolumePanel};
use sister_command::{LightChange, Question, SisterCommand, Step};
use verdict::Verdict;

// The number of a case, and the number that the case holds, 0 where it holds none.
#[derive(Clone, Copy)]
pub struct Numbered(pub u8, pub u8);

#[derive(Clone, Copy)]
pub struct NumberedVerdict(pub u8, pub u16);

// 0 is lit, any other the pause of a flashing icon.
pub fn phase_of(n: u8) -> Phase
    ensures same { result ≡ phase_of n }
{
    match n {
        0 => Phase::Lit,
        _ => Phase::Pause,
    }
}

// 0 is left, any other right.
pub fn side_of(n: u8) -> Side
    ensures same { result ≡ side_of n }
{
    match n {
        0 => Side::Left,
        _ => Side::Right,
    }
}

// A command by its kind; any kind above the others is the last.
pub fn command_of(kind: u8, a: u16, b: u16) -> Command
    ensures same { result ≡ command_of kind a b }
{
    match kind {
        0 => Command::DisplayOff,
        1 => Command::DisplayOn,
        2 => Command::Mode(a),
        3 => Command::CursorShown,
        4 => Command::CursorHidden,
        5 => Command::Clear,
        6 => Command::Position(a, b),
        7 => Command::LabelsEmpty,
        8 => Command::IconS(a),
        9 => Command::IconU(a),
        10 => Command::IconF(a),
        11 => Command::IconR(a),
        12 => Command::IconP(a),
        13 => Command::IconW(a),
        14 => Command::Private(a),
        15 => Command::Handsfree(a),
        16 => Command::HandsfreeOfNote(a),
        17 => Command::Mute(a),
        18 => Command::KeyTimes(a, b),
        19 => Command::Buzzer(a),
        20 => Command::Light(a),
        21 => Command::LightOn,
        22 => Command::LightAutoStart,
        23 => Command::LightAuto,
        24 => Command::DefaultDuration,
        25 => Command::KeypadSet,
        26 => Command::KeypadCleared,
        27 => Command::Contrast(a),
        28 => Command::ContrastAsked,
        29 => Command::HookAsked,
        30 => Command::VersionAsked,
        31 => Command::ClearLine,
        _ => Command::Inverse(a),
    }
}

// A command of the sister's own by its kind; any kind above the others is the last.
pub fn sister_command_of(kind: u8, a: u16, b: u16) -> SisterCommand
    ensures same { result ≡ sister_command_of kind a b }
{
    match kind {
        64 => SisterCommand::Cursor(a),
        65 => SisterCommand::Restart,
        66 => SisterCommand::Mode(a),
        67 => SisterCommand::Light(a),
        68 => SisterCommand::LightTo(LightChange::On),
        69 => SisterCommand::LightTo(LightChange::AutoStart),
        70 => SisterCommand::LightTo(LightChange::Auto),
        71 => SisterCommand::LightTo(LightChange::PwmOn),
        72 => SisterCommand::LightTo(LightChange::PwmAuto),
        73 => SisterCommand::LightTo(LightChange::Restart),
        74 => SisterCommand::LightTo(LightChange::KeypadSet),
        75 => SisterCommand::LightTo(LightChange::KeypadClearedStart),
        76 => SisterCommand::LightTo(LightChange::KeypadCleared),
        77 => SisterCommand::IconU(a),
        78 => SisterCommand::Brightness(a),
        79 => SisterCommand::KeyTimes(a, b),
        80 => SisterCommand::Speaker(a),
        81 => SisterCommand::Asked(Question::Position),
        82 => SisterCommand::Asked(Question::Version),
        83 => SisterCommand::Asked(Question::Hook),
        84 => SisterCommand::Asked(Question::Ptt),
        85 => SisterCommand::Asked(Question::Contrast),
        86 => SisterCommand::Asked(Question::Mode),
        87 => SisterCommand::Asked(Question::Light),
        88 => SisterCommand::Asked(Question::Brightness),
        89 => SisterCommand::Asked(Question::Times),
        90 => SisterCommand::Asked(Question::Speaker),
        91 => SisterCommand::Step(Step::ContrastUp),
        92 => SisterCommand::Step(Step::ContrastDown),
        93 => SisterCommand::Step(Step::BrightnessUp),
        94 => SisterCommand::Step(Step::BrightnessDown),
        95 => SisterCommand::Step(Step::SpeakerUp),
        _ => SisterCommand::Step(Step::SpeakerDown),
    }
}

pub fn sms_number(panel: SmsPanel) -> u8
    ensures same { result ≡ sms_number panel }
{
    match panel {
        SmsPanel::Nothing => 0,
        SmsPanel::Read => 1,
        SmsPanel::Unread => 2,
    }
}

// With the level.
pub fn volume_numbers(panel: VolumePanel) -> Numbered
    ensures same { result ≡ volume_numbers panel }
{
    match panel {
        VolumePanel::Nothing => Numbered(0, 0),
        VolumePanel::Mute => Numbered(1, 0),
        VolumePanel::Private(n) => Numbered(2, n),
        VolumePanel::Handsfree(n) => Numbered(3, n),
    }
}

// With the row, or half of the large line, that the owner names.
pub fn owner_numbers(owner: Owner) -> Numbered
    ensures same { result ≡ owner_numbers owner }
{
    match owner {
        Owner::Nothing => Numbered(0, 0),
        Owner::IconBar => Numbered(1, 0),
        Owner::TextRow(n) => Numbered(2, n),
        Owner::PictureRow(n) => Numbered(3, n),
        Owner::SoftKeys => Numbered(7, 0),
        Owner::SmallLine => Numbered(4, 0),
        Owner::BigLine(n) => Numbered(5, n),
        Owner::PictureWithRocker(n) => Numbered(6, n),
    }
}

// With the code, the column or icon W that stands there.
pub fn shown_numbers(shown: Shown) -> Numbered
    ensures same { result ≡ shown_numbers shown }
{
    match shown {
        Shown::Nothing => Numbered(0, 0),
        Shown::Bar => Numbered(1, 0),
        Shown::Code(n) => Numbered(2, n),
        Shown::Column(n) => Numbered(3, n),
        Shown::LeftLabel(n) => Numbered(4, n),
        Shown::Rocker(n) => Numbered(5, n),
        Shown::RightLabel(n) => Numbered(6, n),
    }
}

// With the first number that is out of range.
pub fn verdict_numbers(verdict: Verdict) -> NumberedVerdict
    ensures same { result ≡ verdict_numbers verdict }
{
    match verdict {
        Verdict::Bad => NumberedVerdict(0, 0),
        Verdict::PassedOver(n) => NumberedVerdict(1, n),
        Verdict::Obeyed => NumberedVerdict(2, 0),
        Verdict::Refused => NumberedVerdict(3, 0),
    }
}

// Of a rule that is broken; 0, for none, is `handset`'s.
pub fn rule_number(rule: Rule) -> u8
    ensures same { result ≡ rule_number rule }
{
    match rule {
        Rule::NoScreen => 1,
        Rule::LabelMissing => 2,
        Rule::QuestionMark => 3,
        Rule::FrameOpen => 4,
    }
}

// Of a part that stands somewhere; 0, for none, is `handset`'s.
pub fn kind_number(kind: Kind) -> u8
    ensures same { result ≡ kind_number kind }
{
    match kind {
        Kind::Text => 1,
        Kind::Skipped => 2,
        Kind::Closed => 3,
        Kind::Abandoned => 4,
        Kind::Tail => 5,
    }
}

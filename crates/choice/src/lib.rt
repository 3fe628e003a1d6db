// Whether a collector's stream keeps the shop's four rules for screens that ask for a choice. The rules stand in specs/Rules.antt, over
// the parting and without this code; specs/Choice.antt has what is computed, specs/Decides.antt that it is what the rules say.
#![tactic(auto)]

ghost use Rattle.std.specs.Prelude.{◌≡◌, drop};
ghost use Rattle.record.specs.Range.{mode_in_range};
ghost use Rattle.command.specs.Reading.{order_drawn, order_of};
ghost use Rattle.parting.specs.Cut.{outside, cut};
ghost use Rattle.choice.specs.Signs.{command_sign, label_sign, frame_sign, read_of, opens_choice};
ghost use Rattle.choice.specs.Choice.{after, wanted, broken_by, answer_of, choice_of};

use command::{Command, PictureFrame, Reading, Side};
use parts::Kind;
use record::LONGEST_FRAME;

// Behind the three codes that open a label's frame.
const LABEL_OPENING: usize = 3;

// The text modes whose screens may come first.
const FOUR_ROWS: u16 = 0;

const FIVE_ROWS: u16 = 5;

// What a part is to the rules: a text byte; a good IDn and its number; a label that is set, and whether it has codes; both labels
// emptied; a frame that gets a question mark; a frame that is left open; anything else.
#[derive(Clone, Copy)]
pub enum Sign {
    Text,
    Screen(u16),
    LeftSet(bool),
    RightSet(bool),
    BothEmpty,
    Asked,
    Open,
    Other,
}

// The rules: the first part is an ID0 or ID5; no label is missing; no question mark is given; no frame is left open.
#[derive(Clone, Copy)]
pub enum Rule {
    NoScreen,
    LabelMissing,
    QuestionMark,
    FrameOpen,
}

// The rule that is broken first, and the offset where.
#[derive(Clone, Copy)]
pub struct BrokenRule {
    pub rule: Rule,
    pub offset: usize,
}

// What came since the last IDn: whether labels are asked for, and which of them stand.
#[derive(Clone, Copy)]
struct Since {
    asks: bool,
    left: bool,
    right: bool,
}

// Nothing is asked for.
const CALM: Since = Since {
    asks: false,
    left: false,
    right: false,
};

fn command_sign(c: Command) -> Sign
    ensures same { result ≡ command_sign c }
{
    match c {
        Command::Mode(n) => Sign::Screen(n),
        Command::LabelsEmpty => Sign::BothEmpty,
        _ => Sign::Other,
    }
}

fn label_sign(side: Side, codes: bool) -> Sign
    ensures same { result ≡ label_sign side codes }
{
    match side {
        Side::Left => Sign::LeftSet(codes),
        Side::Right => Sign::RightSet(codes),
    }
}

// A picture is good if it draws a column.
fn picture_sign(drawn: Option<PictureFrame>) -> Sign
    ensures same { result ≡ frame_sign (order_drawn drawn) }
{
    match drawn {
        Some(_) => Sign::Other,
        None => Sign::Asked,
    }
}

// A closed frame. One that is too long is not read.
fn frame_sign(frame: &[u8]) -> Sign
    ensures same { result ≡ frame_sign (order_of frame.now) }
{
    if LONGEST_FRAME < frame.len() {
        return Sign::Asked;
    }
    if picture_frame::opens_picture(frame) {
        return picture_sign(picture_frame::read_picture(frame));
    }
    match command::read_command(frame) {
        None => Sign::Asked,
        Some(Reading::Plain(c)) => command_sign(c),
        Some(Reading::Label(side)) => label_sign(side, LABEL_OPENING < frame.len()),
    }
}

// The sign of the part that stands at a place, and where the next part begins.
fn read_at(bytes: &[u8], place: usize) -> Option<(Sign, usize)>
    ensures same { result ≡ read_of place (cut outside (drop place bytes.now)) }
{
    let part = parts::part_at(bytes, place)?;
    let sign = match part.kind {
        Kind::Text => Sign::Text,
        Kind::Skipped => Sign::Other,
        Kind::Closed => frame_sign(&bytes[part.body..part.body_end]),
        Kind::Abandoned => Sign::Asked,
        Kind::Tail => Sign::Open,
    };
    Some((sign, part.end))
}

// Whether the first part opens a choice: ID0 or ID5.
fn opens_choice(sign: Sign) -> bool
    ensures same { result ≡ opens_choice sign }
{
    matches!(sign, Sign::Screen(FOUR_ROWS | FIVE_ROWS))
}

fn is_text_mode(n: u16) -> bool
    ensures same { result ≡ mode_in_range n }
{
    matches!(n, 0 | 1 | 5 | 6 | 10)
}

// A text byte or IDn ends what was asked for, and IDn may ask anew: only labels that are set from there on count.
fn since_after(s: Since, sign: Sign) -> Since
    ensures same { result ≡ after s sign }
{
    match sign {
        Sign::Text => CALM,
        Sign::Screen(n) => Since {
            asks: is_text_mode(n),
            ..CALM
        },
        Sign::LeftSet(left) => Since { left, ..s },
        Sign::RightSet(right) => Since { right, ..s },
        Sign::BothEmpty => Since {
            asks: s.asks,
            ..CALM
        },
        Sign::Asked | Sign::Open | Sign::Other => s,
    }
}

// Both labels must stand, if they are asked for.
fn labels_wanted(s: Since) -> Result<(), Rule>
    ensures same { result ≡ wanted s }
{
    if s.asks && !(s.left && s.right) {
        return Err(Rule::LabelMissing);
    }
    Ok(())
}

// What is broken by a sign behind the first part.
fn broken_by(s: Since, sign: Sign) -> Result<(), Rule>
    ensures same { result ≡ broken_by s sign }
{
    match sign {
        Sign::Text | Sign::Screen(_) => labels_wanted(s),
        Sign::Asked => Err(Rule::QuestionMark),
        Sign::Open => Err(Rule::FrameOpen),
        Sign::LeftSet(_) | Sign::RightSet(_) | Sign::BothEmpty | Sign::Other => Ok(()),
    }
}

// What is broken, if anything is, is told with its offset.
fn answer(broken: Result<(), Rule>, offset: usize) -> Result<(), BrokenRule>
    ensures same { result ≡ answer_of broken offset }
{
    broken.map_err(|rule| BrokenRule { rule, offset })
}

// One pass over the stream: what stands at each place, and what is asked for since the last IDn.
pub fn check(bytes: &[u8]) -> Result<(), BrokenRule>
    ensures same { result ≡ choice_of bytes.now }
{
    let mut at = match read_at(bytes, 0) {
        Some((sign, end)) if opens_choice(sign) => end,
        _ => return Err(BrokenRule {
            rule: Rule::NoScreen,
            offset: 0,
        }),
    };
    let mut since = CALM;
    while let Some((sign, end)) = read_at(bytes, at) {
        answer(broken_by(since, sign), at)?;
        since = since_after(since, sign);
        at = end;
    }
    answer(labels_wanted(since), at)
}

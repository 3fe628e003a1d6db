// What becomes of a frame in a text mode, or in a record of either edition, asked without doing it: specs/Verdict.antt has it by the
// order that the frame spells, and specs/Laws.antt by the grammar and the ranges. It is what effect::obey and sister_effect::obey_own_frame
// do; both stand on the same reading and the same ranges.
#![tactic(auto)]

ghost use Rattle.std.specs.Prelude.{◌≡◌, List, ℕ};
ghost use Rattle.std.proofs.Math.Option.{some};
ghost use Rattle.command.specs.Reading.{order_drawn};
ghost use Rattle.effect.specs.Obey.{core};
ghost use Rattle.sister_command.specs.Order.{own};
ghost use Rattle.sister_command.specs.Reading.{sister_order_of};
ghost use Rattle.verdict.specs.Verdict.{by_number, by_order, verdict_of, by_any, verdict_in};

use command::{PictureFrame, Reading};
use record::{Edition, LAST_ROW, Settings};
use sister_command::{SisterCommand, SisterReading};

// A bad frame gets a question mark. A good one with a number out of range is passed over, and the first such number is told; any other
// is obeyed, unless the record's state refuses it: then it is answered as a bad frame, and nothing changes.
#[derive(Clone, Copy)]
pub enum Verdict {
    Bad,
    PassedOver(u16),
    Obeyed,
    Refused,
}

fn by_number(out: Option<u16>) -> Verdict
    ensures same { result ≡ by_number out }
{
    match out {
        Some(n) => Verdict::PassedOver(n),
        None => Verdict::Obeyed,
    }
}

// A picture row is judged in any text mode alike.
fn of_picture(drawn: Option<PictureFrame>) -> Verdict
    ensures same { (mode : ℕ) → result ≡ by_order mode (order_drawn drawn) }
{
    match drawn {
        Some(picture) if LAST_ROW < picture.row => Verdict::PassedOver(picture.row as u16),
        Some(_) => Verdict::Obeyed,
        None => Verdict::Bad,
    }
}

// The frame is all that stands between ESC and CR. More than 250 bytes spell nothing, so they are bad.
pub fn judge(mode: u8, frame: &[u8]) -> Verdict
    ensures same { result ≡ verdict_of mode frame.now }
{
    if picture_frame::opens_picture(frame) {
        return of_picture(picture_frame::read_picture(frame));
    }
    match command::read_command(frame) {
        None => Verdict::Bad,
        Some(Reading::Plain(c)) => {
            let rows = command_form::rows_named(mode);
            by_number(command_form::number_out(c, rows))
        }
        Some(Reading::Label(_)) => Verdict::Obeyed,
    }
}

// A command of the sister's own.
fn of_own(settings: Settings, edition: Edition, c: SisterCommand) -> Verdict
    ensures same { (text picture : List ℕ) → result ≡ by_any (core settings text picture edition) (some (own c)) }
{
    if sister_effect::refused(c, settings, edition) {
        Verdict::Refused
    } else {
        by_number(sister_form::own_out(c))
    }
}

// A frame of the sister: one that opens as a picture or a label is the first edition's.
fn judge_sister(settings: Settings, edition: Edition, frame: &[u8]) -> Verdict
    ensures same { (text picture : List ℕ) → result ≡ by_any (core settings text picture edition) (sister_order_of frame.now) }
{
    let mode = settings.screen.mode;
    if picture_frame::opens_picture(frame) | command::opens_label(frame) {
        return judge(mode, frame);
    }
    match sister_command::read_sister(frame) {
        None => Verdict::Bad,
        Some(SisterReading::Shared(c)) => {
            let rows = command_form::rows_named(mode);
            by_number(command_form::number_out(c, rows))
        }
        Some(SisterReading::Own(c)) => of_own(settings, edition, c),
    }
}

// In a record of either edition, of which the text and the picture decide nothing.
pub fn judge_in(settings: Settings, edition: Edition, frame: &[u8]) -> Verdict
    ensures same { (text picture : List ℕ) → result ≡ verdict_in (core settings text picture edition) frame.now }
{
    if edition.sister {
        judge_sister(settings, edition, frame)
    } else {
        judge(settings.screen.mode, frame)
    }
}

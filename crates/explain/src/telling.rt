// What a part of the stream did: it is done to the record, told in a line, and counted.
ghost use Rattle.std.specs.Prelude.{◌≡◌, ◌≤◌, length};
ghost use Rattle.explain.specs.Changes.{has_others};

use crate::commands::{field_out, own_field_out, say_range};
use crate::doings::{Deed, Handset, say_obeyed};
use crate::fields::{Field, say_takes};
use crate::part_line::{begin_line, say, say_count, say_if_overlong};
use crate::tally::{Fate, Tally, counted, length_of};
use crate::text::say_stored;
use crate::words;
use command::Reading;
use lists::{CARRIAGE_RETURN, LINE_FEED};
use parts::{Kind, PartAt};
use program::Host;
use record::{Edition, LONGEST_FRAME, Small};
use sister_command::SisterReading;
use verdict::Verdict;

// For answers: any room does that takes the longest one, the version's 29 bytes.
const ROOM: usize = 64;

// Parts that change nothing.

// How a frame reads in the record's edition. What the sister alone has is no reading here, as pictures are none.
fn reading_in(edition: &Edition, frame: &[u8]) -> Option<Reading> {
    if edition.sister {
        sister_command::read_shared(frame)
    } else {
        command::read_command(frame)
    }
}

// A label has no number, so it is a picture or the sister's own.
fn say_takes_else(host: &Host, frame: &[u8], out: u16) {
    let field = match sister_command::read_sister(frame) {
        Some(SisterReading::Own(c)) => own_field_out(c, out),
        _ => Some(Field::PictureRow),
    };
    if let Some(field) = field {
        say_takes(host, field, 0);
    }
}

fn say_passed_over(host: &Host, small: &Small, frame: &[u8]) {
    let Verdict::PassedOver(out) = verdict::judge_in(small.settings, small.edition, frame) else {
        return;
    };
    match reading_in(&small.edition, frame) {
        Some(Reading::Plain(c)) => {
            if let Some(field) = field_out(c, out) {
                say_range(host, field, small.settings.screen.mode);
            }
        }
        _ => say_takes_else(host, frame, out),
    }
}

// The sister's question mark has a line end behind it.
fn say_answered(host: &Host, sister: bool) {
    say(host, words::ANSWERED_MARK);
    if sister {
        say(host, words::CR);
        say(host, words::LF);
    }
}

// What became of a part that changes nothing. An abandoned frame is answered at the ESC that stands behind it.
fn say_undone(host: &Host, fate: Fate, place: u64, length: u64, small: &Small, body: &[u8]) {
    let sister = small.edition.sister;
    match fate {
        Fate::Stored | Fate::Obeyed => {}
        Fate::Skipped => say(host, words::NOTHING_DONE),
        Fate::Abandoned => {
            let behind = place.wrapping_add(1).wrapping_add(length);
            say_count(host, words::ABANDONED_AT, behind);
            say_if_overlong(host, length);
            say_answered(host, sister);
        }
        Fate::Open => {
            say(host, words::STILL_OPEN);
            say_if_overlong(host, length);
            say(host, words::NOTHING_DONE_YET);
        }
        Fate::Bad => {
            say(host, words::BAD);
            say_if_overlong(host, length);
            say_answered(host, sister);
        }
        Fate::PassedOver => {
            say(host, words::PASSED_OVER);
            say_passed_over(host, small, body);
        }
        Fate::Refused => {
            say(host, words::REFUSED);
            say_answered(host, sister);
        }
    }
}

fn changes_record(fate: Fate) -> bool {
    matches!(fate, Fate::Stored | Fate::Obeyed)
}

// What stands at a place, by what becomes of it.
fn name_of(fate: Fate) -> &'static [u8] {
    match fate {
        Fate::Stored => words::TEXT,
        Fate::Skipped => words::SKIPPED,
        Fate::Open => words::TAIL,
        _ => words::FRAME,
    }
}

// Says what stands at a place and, of a part that changes nothing, what became of it.
fn say_part(host: &Host, fate: Fate, place: u64, length: u64, small: &Small, body: &[u8]) {
    begin_line(host, place, name_of(fate), body);
    if !changes_record(fate) {
        say_undone(host, fate, place, length, small, body);
        say(host, words::LINE_END);
    }
}

// Whether any of these codes is no line end.
pub fn has_others(codes: &[u8]) -> bool
    ensures same { result ≡ has_others codes.now }
{
    // A loop: with `any` this equation stayed open, since its clause is a relation.
    for &code in codes {
        if !matches!(code, CARRIAGE_RETURN | LINE_FEED) {
            return true;
        }
    }
    false
}

// Parts that change the record.

// Hands bytes to the handset, and says how many answer them. Behind a whole part no frame is open.
fn feed(handset: &mut Handset, bytes: &[u8], answers: &mut [u8; ROOM]) -> usize {
    let mut frame = [0u8; LONGEST_FRAME];
    let fed = stream::feed_lent(
        handset.small,
        &mut handset.text,
        &mut handset.picture,
        &mut frame,
        bytes,
        answers,
    );
    handset.small = fed.small;
    fed.written
}

// What a part changed.
fn say_done(host: &Host, fate: Fate, body: &[u8], length: u64, deed: &Deed) {
    if fate == Fate::Stored {
        say_stored(
            host,
            &deed.was.small.settings.screen,
            &deed.is.small.settings.screen,
            length,
        );
    } else {
        let reading = reading_in(&deed.was.small.edition, body);
        if !say_obeyed(host, reading, body, deed) {
            say(host, words::NOTHING_CHANGED);
        }
    }
    say(host, words::LINE_END);
}

// Does what a part says, tells it, and says how many bytes answer it.
fn obey(
    host: &Host,
    handset: &mut Handset,
    fate: Fate,
    bytes: &[u8],
    body: &[u8],
    length: u64,
) -> usize {
    let was = *handset;
    let mut answers = [0u8; ROOM];
    let written = feed(handset, bytes, &mut answers);
    let deed = Deed {
        was: &was,
        is: handset,
        answer: &answers[..written.min(ROOM)],
    };
    say_done(host, fate, body, length, &deed);
    written
}

// Any part.

// What becomes of a part in a record, by its body.
fn fate_of(kind: Kind, small: &Small, body: &[u8]) -> Fate {
    match kind {
        Kind::Text => Fate::Stored,
        Kind::Skipped => Fate::Skipped,
        Kind::Closed => match verdict::judge_in(small.settings, small.edition, body) {
            Verdict::Bad => Fate::Bad,
            Verdict::PassedOver(_) => Fate::PassedOver,
            Verdict::Obeyed => Fate::Obeyed,
            Verdict::Refused => Fate::Refused,
        },
        Kind::Abandoned => Fate::Abandoned,
        Kind::Tail => Fate::Open,
    }
}

// Does, tells and counts the part that begins at a place of the window. Line ends alone have no line, unless all are to have one.
pub fn tell_front(
    host: &Host,
    handset: &mut Handset,
    tally: Tally,
    window: &[u8],
    at: usize,
    front: PartAt,
    all: bool,
) -> Tally
    requires { (at ≤ front.end) × (front.end ≤ length window.now) × (front.body ≤ front.body_end) × (front.body_end ≤ front.end) }
{
    let body = &window[front.body..front.body_end];
    let length = length_of(front, tally.dropped);
    let fate = fate_of(front.kind, &handset.small, body);
    if all || tally.others || fate != Fate::Skipped || has_others(body) {
        say_part(host, fate, tally.place, length, &handset.small, body);
    }
    let written = if changes_record(fate) {
        obey(host, handset, fate, &window[at..front.end], body, length)
    } else {
        0
    };
    counted(tally, fate, at, front, written)
}

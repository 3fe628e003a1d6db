// What is counted along a stream, and the line that sums up.
ghost use Rattle.std.specs.Prelude.{◌≡◌};
ghost use Rattle.explain.specs.Tally.{is_answered, length_of, more_if, tally_after};

use crate::part_line::{say, say_count, say_place};
use crate::words;
use parts::PartAt;
use program::Host;

// What becomes of a part. A frame is open that is not closed where the stream ends.
#[derive(Clone, Copy, PartialEq, Eq)]
pub enum Fate {
    Stored,
    Skipped,
    Abandoned,
    Open,
    Bad,
    PassedOver,
    Obeyed,
    Refused,
}

// Counts and places of 64 bits, which no stream fills.
#[derive(Clone, Copy)]
pub struct Tally {
    // The place of the part that comes next.
    pub place: u64,
    // How many bytes of that part are held no longer, and whether any of these is no line end.
    pub dropped: u64,
    pub others: bool,
    // Bytes.
    pub text: u64,
    pub skipped: u64,
    // Frames.
    pub obeyed: u64,
    pub passed_over: u64,
    pub refused: u64,
    pub bad: u64,
    pub abandoned: u64,
    pub answers: u64,
    // The place of the tail.
    pub tail: Option<u64>,
}

pub const NOTHING_COUNTED: Tally = Tally {
    place: 0,
    dropped: 0,
    others: false,
    text: 0,
    skipped: 0,
    obeyed: 0,
    passed_over: 0,
    refused: 0,
    bad: 0,
    abandoned: 0,
    answers: 0,
    tail: None,
};

// How long a part is that is shown by its body, with the bytes that are held no longer.
pub fn length_of(front: PartAt, dropped: u64) -> u64
    ensures same { result ≡ length_of front dropped }
{
    let held = front.body_end.saturating_sub(front.body);
    (held as u64).wrapping_add(dropped)
}

// Whether a part was answered: by so many bytes, or always by what became of it.
fn is_answered(fate: Fate, written: usize) -> bool
    ensures { result ≡ is_answered fate written }
{
    match fate {
        Fate::Abandoned | Fate::Bad | Fate::Refused => true,
        _ => written > 0,
    }
}

// A count, with one more if it is counted there.
fn more_if(counts: bool, count: u64) -> u64
    ensures { result ≡ more_if counts count 1 }
{
    count.wrapping_add(counts as u64)
}

// A part that began at a place of the window and was answered by so many bytes. The next one stands behind it.
#[tactic(auto, unfolding(crate::specs::Tally::tally_after))]
pub fn counted(tally: Tally, fate: Fate, at: usize, front: PartAt, written: usize) -> Tally
    ensures same { result ≡ tally_after tally fate at front written }
{
    let length = length_of(front, tally.dropped);
    let held = front.end.saturating_sub(at);
    let behind = Tally {
        place: tally
            .place
            .wrapping_add((held as u64).wrapping_add(tally.dropped)),
        dropped: 0,
        others: false,
        answers: more_if(is_answered(fate, written), tally.answers),
        ..tally
    };
    match fate {
        Fate::Stored => Tally {
            text: tally.text.wrapping_add(length),
            ..behind
        },
        Fate::Skipped => Tally {
            skipped: tally.skipped.wrapping_add(length),
            ..behind
        },
        Fate::Abandoned => Tally {
            abandoned: tally.abandoned.wrapping_add(1),
            ..behind
        },
        Fate::Open => Tally {
            tail: Some(tally.place),
            ..behind
        },
        Fate::Bad => Tally {
            bad: tally.bad.wrapping_add(1),
            ..behind
        },
        Fate::PassedOver => Tally {
            passed_over: tally.passed_over.wrapping_add(1),
            ..behind
        },
        Fate::Obeyed => Tally {
            obeyed: tally.obeyed.wrapping_add(1),
            ..behind
        },
        Fate::Refused => Tally {
            refused: tally.refused.wrapping_add(1),
            ..behind
        },
    }
}

// The line that sums up. Only the sister's record refuses frames, so only her line counts them.
pub fn say_tally(host: &Host, t: &Tally, sister: bool) {
    let closed = t
        .obeyed
        .wrapping_add(t.passed_over)
        .wrapping_add(t.refused)
        .wrapping_add(t.bad);
    say_place(host, t.place);
    say(host, words::END);
    say_count(host, words::TEXT_BYTES, t.text);
    say_count(host, words::SKIPPED_BYTES, t.skipped);
    say_count(host, words::CLOSED_FRAMES, closed);
    say_count(host, words::OF_THESE_OBEYED, t.obeyed);
    say_count(host, words::OF_THESE_PASSED_OVER, t.passed_over);
    if sister {
        say_count(host, words::OF_THESE_REFUSED, t.refused);
    }
    say_count(host, words::OF_THESE_BAD, t.bad);
    say_count(host, words::ABANDONED_FRAMES, t.abandoned);
    say_count(host, words::ANSWERS, t.answers);
    match t.tail {
        Some(place) => say_count(host, words::TAIL_AT, place),
        None => say(host, words::NO_TAIL),
    }
    say(host, words::LINE_END);
}

// Reads a stream from a file or from standard input, from the power-on record, and says of each part of it what it did: a line for
// each frame, for each run of text bytes or of skipped ones, and for the tail; the last line sums up. A line has the place of the
// part's first byte, what it is, its bytes, and what it did and changed:
//
//   ./run explain examples/meter.stream
//
// Bytes are shown as they are from 0x20 to 0x7E, and any other as <0D>; so is '<'. Of more than 250 the first 40 are shown, and two
// dots. Text rows, columns and places are counted from 0. Line ends alone have no line, unless --all is given.
//
// With --sister the handset is the one of AN1900: of a command of her own all fields that it changed are told, by what is kept (mode 5
// for IDM2), and a frame that her record's state refuses is counted apart.
//
// The stream may have any length: what is held of it is a window, and of a part that has not ended by the window's end no more than
// the window's first bytes are kept, which are enough to tell what it does. Only text and obeyed frames change anything, so no other
// part is fed to the handset, and its record never has an open frame.
#![tactic(auto)]

mod commands;
mod doings;
mod fields;
mod part_line;
mod tally;
mod telling;
mod text;
mod words;

ghost use Rattle.std.specs.Prelude.{◌<◌, ◌≤◌, IfSome, IsSome, length};

use doings::Handset;
use parts::{Kind, PartAt, part_at};
use program::{Host, Input};
use record::Record;
use tally::{NOTHING_COUNTED, Tally, say_tally};
use telling::{has_others, tell_front};

// The program's name, for complaints.
const NAME: &[u8] = b"explain";

// Of a part that has not ended by the window's end so many bytes are kept: an ESC and one byte more than a frame may have, so that it
// is still overlong, and more than any row takes.
const KEPT: usize = 252;

// Parts.

// Text bytes that follow each other, or skipped ones.
#[derive(Clone, Copy, PartialEq, Eq)]
enum Run {
    Text,
    Skipped,
}

// Which run a part belongs to; a frame belongs to none.
fn run_of(kind: Kind) -> Option<Run> {
    match kind {
        Kind::Text => Some(Run::Text),
        Kind::Skipped => Some(Run::Skipped),
        _ => None,
    }
}

// Where the bytes of a run end that begins before this place.
fn run_end(window: &[u8], from: usize, run: Run) -> usize
    requires { from ≤ length window.now }
    ensures { (from ≤ result) × (result ≤ length window.now) }
{
    (from..window.len())
        .find(|&i| part_at(window, i).and_then(|part| run_of(part.kind)) != Some(run))
        .unwrap_or(window.len())
}

// What stands at a place, where a run is one thing. Its body is what is shown.
fn front_at(window: &[u8], at: usize) -> Option<PartAt>
    ensures within { IfSome result (λ front. (at < front.end) × (front.end ≤ length window.now) × (front.body ≤ front.body_end) × (front.body_end ≤ front.end)) }
    ensures there { at < length window.now → IsSome result }
{
    let part = part_at(window, at)?;
    let Some(run) = run_of(part.kind) else {
        return Some(part);
    };
    let end = run_end(window, part.end, run);
    Some(PartAt {
        end,
        body: at,
        body_end: end,
        ..part
    })
}

// Whether bytes that are still to come may belong to a part of a window of this length.
fn may_go_on(part: PartAt, length: usize, ended: bool) -> bool {
    !ended && part.end == length && !matches!(part.kind, Kind::Closed)
}

// The window.

// Of a part that has not ended no more is kept than is needed; the rest is counted.
fn count_rest(tally: Tally, held: &[u8]) -> Tally {
    let Some(rest) = held.get(KEPT..) else {
        return tally;
    };
    Tally {
        dropped: tally.dropped.wrapping_add(rest.len() as u64),
        others: tally.others || has_others(rest),
        ..tally
    }
}

// Tells all parts that have ended by the window's end, and where the stream has ended too what has not. Says how many bytes these have.
fn tell_window(
    host: &Host,
    handset: &mut Handset,
    tally: &mut Tally,
    window: &[u8],
    ended: bool,
    all: bool,
) -> usize
    ensures { result ≤ length window.now }
{
    let mut at = 0;
    while let Some(front) = front_at(window, at) {
        if may_go_on(front, window.len(), ended) {
            break;
        }
        *tally = tell_front(host, handset, *tally, window, at, front, all);
        at = front.end;
    }
    *tally = count_rest(*tally, &window[at..]);
    at
}

// The bytes of the window from one place up to another move to its front, as far as they are kept; how many these are.
fn keep(window: &mut [u8], from: usize, to: usize) -> usize
    requires { (from ≤ to) × (to ≤ length window.old) }
    ensures { result ≤ 252 }
{
    let kept = KEPT.min(to - from);
    window.copy_within(from..from + kept, 0);
    kept
}

// What there is before the first part.
fn power_on(sister: bool) -> Handset {
    let record = if sister {
        Record::sister_power_on()
    } else {
        Record::power_on()
    };
    // By variables: an array that is moved from field to field is not proved yet.
    let text = record.text;
    let picture = record.picture;
    Handset {
        small: record::small_of(record),
        text,
        picture,
    }
}

// Of an input that fails nothing is summed up: what came before is not the stream. Nothing says that the input ends, so its pieces are
// counted.
fn explain(host: &Host, input: &mut Input, all: bool, sister: bool) {
    let mut handset = power_on(sister);
    let mut tally = NOTHING_COUNTED;
    let mut window = [0u8; 4096];
    let mut held = 0;
    for _ in 0..u64::MAX {
        let Ok(n) = program::read_piece(host, NAME, input, &mut window[held..]) else {
            return;
        };
        let end = held + n;
        let ended = n == 0;
        let told = tell_window(host, &mut handset, &mut tally, &window[..end], ended, all);
        if ended {
            break;
        }
        held = keep(&mut window, told, end);
    }
    say_tally(host, &tally, sister);
}

fn main(rt: HostRuntime) {
    let host = Host::new(rt);
    let accepted = program::accepts(
        &host,
        NAME,
        b"usage: ./run explain [--all] [--sister] [FILE]\n\
        Reads a stream from FILE, or from standard input without one, and says of each part what it did.\n\
        --all gives line ends outside of frames a line too; --sister reads as the sister handset does.\n",
        b"--all\n--sister\n",
        true,
    );
    if !accepted {
        return;
    }
    let Some(mut input) = program::open_input(&host, NAME) else {
        return;
    };
    let all = program::is_given(&host, b"--all\n");
    let sister = program::is_given(&host, b"--sister\n");
    explain(&host, &mut input, all, sister);
}

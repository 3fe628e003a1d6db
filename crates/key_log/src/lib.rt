// The key log: presses, releases and polls at tick readings, and the codes they send to the host; the sister of AN1900 sends messages.
// What an entry does is in the crates `key_entry` and `sister_entry`; the call's promise is in specs/Log.antt.
// It is done on a record in parts, whose arrays it only looks at; `take_log` is the same call on a record by value.
#![tactic(auto)]

ghost use Rattle.std.specs.Prelude.{◌≡◌, true, false, length};
ghost use Rattle.record.specs.Parts.{whole};
ghost use Rattle.key_log.specs.Log.{outcome, handed_back, lent_of, buffer_after, refused_with, done_with, sister_done_with, Takes};
ghost use Rattle.key_log.specs.Steps.{last_in, bytes_of};

use answer::put;
use key_entry::{LAST_KEY, all_listed, take_entry};
use lists::{CARRIAGE_RETURN, ESCAPE, LINE_FEED};
use record::{Backlight, Edition, Held, InParts, Number, Record, Settings, Small};
use sister_entry::{Message, PTT, SisterKeyed};

// How a key log ended: the number, the record or its small fields where the arrays were lent, how many entries were used and how many
// codes written.
#[derive(Clone, Copy)]
pub struct Logged<R> {
    pub number: Number,
    pub record: R,
    pub used: usize,
    pub written: usize,
}

// The small fields are put together once, when the work is done.
fn done(small: Small, held: Held, light: Backlight, used: usize, written: usize) -> Logged<Small>
    ensures { result ≡ done_with small held light used written }
{
    Logged {
        number: Number::Done,
        record: Small {
            settings: Settings {
                backlight: light,
                ..small.settings
            },
            held,
            ..small
        },
        used,
        written,
    }
}

// Takes entries until they end or a code has no room. What the entries touch is held apart from all else.
fn take_entries(small: Small, ticks: &[u16], edges: &[u8], codes: &mut [u8]) -> Logged<Small>
    requires ticks_len { length ticks.now ≡ length edges.now }
    requires sister_value { small.edition.sister ≡ false }
    ensures { Takes result small ticks.now edges.now codes.old codes.new }
{
    let times = small.settings.times;
    let mut held = small.held;
    let mut light = small.settings.backlight;
    let mut used = 0;
    let mut written = 0;
    for (tick, edge) in ticks.iter().zip(edges) {
        let next = take_entry(held, times, light, *tick, *edge);
        if let Some(code) = next.code {
            if codes.len() <= written {
                return done(small, held, light, used, written);
            }
            codes[written] = code;
            written += 1;
        }
        held = next.held;
        light = next.backlight;
        used += 1;
    }
    done(small, held, light, used, written)
}

// The same for the sister: what her entries leave besides goes among the small fields first.
fn sister_done(small: Small, left: SisterKeyed, used: usize, written: usize) -> Logged<Small>
    ensures { result ≡ sister_done_with small left used written }
{
    let hers = Small {
        settings: Settings {
            hook: left.hook,
            ..small.settings
        },
        edition: Edition {
            keys: left.keys,
            ptt: left.ptt,
            ..small.edition
        },
        ..small
    };
    done(hers, small.held, left.backlight, used, written)
}

const MESSAGE: usize = 6;

fn bytes_of(message: Message) -> [u8; MESSAGE]
    ensures { result ≡ bytes_of message }
{
    let (sign, event) = match message {
        Message::False => (b'F', b'x'),
        Message::Event(sign, event) => (sign, event),
    };
    [ESCAPE, b'K', sign, event, CARRIAGE_RETURN, LINE_FEED]
}

// Takes the sister's entries until they end or a message has no room.
// Not one loop over a trait of both: its members, their laws and the two impls would be longer than the two loops.
fn take_sister_entries(small: Small, ticks: &[u16], edges: &[u8], sent: &mut [u8]) -> Logged<Small>
    requires ticks_len { length ticks.now ≡ length edges.now }
    requires sister_value { small.edition.sister ≡ true }
    ensures { Takes result small ticks.now edges.now sent.old sent.new }
{
    let times = small.settings.times;
    let mut left = SisterKeyed {
        keys: small.edition.keys,
        backlight: small.settings.backlight,
        hook: small.settings.hook,
        ptt: small.edition.ptt,
        message: None,
    };
    let mut used = 0;
    let mut written = 0;
    for (tick, edge) in ticks.iter().zip(edges) {
        let next = sister_entry::take_entry(left, times, *tick, *edge);
        if let Some(message) = next.message {
            if sent.len() - written < MESSAGE {
                return sister_done(small, left, used, written);
            }
            written = put(sent, written, &bytes_of(message));
        }
        left = next;
        used += 1;
    }
    sister_done(small, left, used, written)
}

// The edition is asked once, not at each entry: it never changes.
fn take_by_edition(small: Small, ticks: &[u16], edges: &[u8], sent: &mut [u8]) -> Logged<Small>
    requires { length ticks.now ≡ length edges.now }
    ensures { Takes result small ticks.now edges.now sent.old sent.new }
{
    if small.edition.sister {
        take_sister_entries(small, ticks, edges, sent)
    } else {
        take_entries(small, ticks, edges, sent)
    }
}

fn last_number(sister: bool) -> u8
    ensures { result ≡ last_in sister }
{
    if sister { PTT } else { LAST_KEY }
}

fn refuse(number: Number, small: Small) -> Logged<Small>
    ensures { result ≡ refused_with number small }
{
    Logged {
        number,
        record: small,
        used: 0,
        written: 0,
    }
}

// The key log call on lent arrays. The record is judged first, then the lengths, then every edge, by the record's edition; then entries are
// taken by the rules of that edition until they end or a code or message has no room.
pub fn take_log_lent(
    parts: InParts<'_>,
    ticks: &[u16],
    edges: &[u8],
    codes: &mut [u8],
) -> Logged<Small>
    ensures same { result ≡ lent_of (handed_back (outcome (whole parts.entry) ticks.now edges.now (length codes.old))) }
    ensures buffer { codes.new ≡ buffer_after (outcome (whole parts.entry) ticks.now edges.now (length codes.old)) codes.old }
{
    let small = parts.small;
    let good = record_ranges::in_range_lent(parts);
    if !good {
        return refuse(Number::FieldOutOfRange, small);
    }
    if ticks.len() != edges.len() {
        return refuse(Number::UnequalLengths, small);
    }
    let last = last_number(small.edition.sister);
    let listed = all_listed(edges, last);
    if !listed {
        return refuse(Number::NotListed, small);
    }
    take_by_edition(small, ticks, edges, codes)
}

// The key log call on a record by value: the settings, the held key and the edition come back, and all else is as it was.
pub fn take_log(r: Record, ticks: &[u16], edges: &[u8], codes: &mut [u8]) -> Logged<Record>
    ensures same { result ≡ handed_back (outcome r ticks.now edges.now (length codes.old)) }
    ensures buffer { codes.new ≡ buffer_after (outcome r ticks.now edges.now (length codes.old)) codes.old }
{
    let l = take_log_lent(r.in_parts(), ticks, edges, codes);
    Logged {
        number: l.number,
        record: Record {
            settings: l.record.settings,
            held: l.record.held,
            edition: l.record.edition,
            ..r
        },
        used: l.used,
        written: l.written,
    }
}

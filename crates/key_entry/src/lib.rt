// One entry of a key log: a press, a release or a poll at a tick reading, and the code it sends to the host.
// The rules are document 01's, in specs/Rules.antt.
#![tactic(auto)]

ghost use Rattle.std.specs.Prelude.{◌≡◌};
ghost use Rattle.lists.specs.Every.{every};
ghost use Rattle.key_entry.specs.Codes.{column_of, code_of};
ghost use Rattle.key_entry.specs.Rules.{release_up_to, listed_up_to, elapsed as elapsedOf, in_ticks, over as overOf, nothing as nothingOf, lit, pressed, long_since, polled_short, polled_long, polled, release_code, released, keyed};

use record::{AUTO, Backlight, Held, Tenths, Tick, Times};

// In the table 0 stands for none: it is no key's code.
pub const NONE: u8 = 0;

// Short, long and repeat code of keys 0 to 18, in document 01's order.
const CODES: [[u8; 3]; 19] = [
    [0x4C, 0xCC, 0xEC], // left soft
    [0x52, 0xD2, 0xE2], // right soft
    [0x45, 0xC5, NONE], // ESC
    [0x41, 0xC1, NONE], // ENTER
    [0x55, 0xD5, 0xE5], // up
    [0x44, 0xC4, 0xE4], // down
    [0x31, 0xB1, 0xF1], // "1"
    [0x32, 0xB2, 0xF2], // "2"
    [0x33, 0xB3, 0xF3], // "3"
    [0x34, 0xB4, 0xF4], // "4"
    [0x35, 0xB5, 0xF5], // "5"
    [0x36, 0xB6, 0xF6], // "6"
    [0x37, 0xB7, 0xF7], // "7"
    [0x38, 0xB8, 0xF8], // "8"
    [0x39, 0xB9, 0xF9], // "9"
    [0x30, 0xB0, 0xF0], // "0"
    [0x2A, 0xAA, 0xEA], // "*"
    [0x23, 0xA3, 0xEB], // "#"
    [0x4F, 0xCF, 0xEF], // ON/OFF
];

pub const LAST_KEY: u8 = 18;

// Edge bytes: a key's number is its press, 128 more its release, and 255 a poll.
pub const RELEASES: u8 = 128;

pub const POLL: u8 = 255;

// Which of a key's codes: a column of the table.
#[derive(Clone, Copy)]
pub enum Stage {
    Short,
    Long,
    Repeat,
}

// What an entry leaves: the held key, the backlight, and the code that is sent or none.
#[derive(Clone, Copy)]
pub struct Keyed {
    pub held: Held,
    pub backlight: Backlight,
    pub code: Option<u8>,
}

impl Stage {
    fn column(self) -> usize
        ensures { result ≡ column_of self }
    {
        self as usize
    }
}

// The code of any key at a stage; none outside the table.
#[tactic(auto, unfolding(crate::specs::Codes::code_of))]
fn code(key: u8, stage: Stage) -> Option<u8>
    ensures { result ≡ code_of key stage }
{
    let row = CODES.get(key as usize)?;
    match row[stage.column()] {
        NONE => None,
        code => Some(code),
    }
}

// Ticks since the held reading, modulo 65,536.
#[tactic(auto, unfolding(crate::specs::Rules::elapsed))]
fn elapsed(now: u16, held: Tick) -> u16
    ensures { result ≡ elapsedOf now held.0 }
{
    now.wrapping_sub(held.0)
}

// A count of 100 ms in ticks of 10 ms.
fn in_ticks(time: Tenths) -> u16
    ensures { result ≡ in_ticks time }
{
    10 * time.0 as u16
}

fn is_release(edge: u8, last: u8) -> bool
    ensures { result ≡ release_up_to last edge }
{
    edge >= RELEASES && edge - RELEASES <= last
}

fn is_listed(edge: u8, last: u8) -> bool
    ensures { result ≡ listed_up_to last edge }
{
    (edge <= last) | is_release(edge, last) | (edge == POLL)
}

// Which edges are listed goes by the last number that a key, or what is logged beside the keys, can have. It looks at the whole log, also
// past the place where the room for codes would end, and does not leave at the first that is not listed: with no branch the loop becomes
// vector code, and `all` took some fourteen times the instructions.
pub fn all_listed(edges: &[u8], last: u8) -> bool
    ensures same { result ≡ every (listed_up_to last) edges.now }
{
    let mut ok = true;
    for edge in edges {
        ok &= is_listed(*edge, last);
    }
    ok
}

fn nothing(held: Held, backlight: Backlight) -> Keyed
    ensures { result ≡ nothingOf held backlight }
{
    Keyed {
        held,
        backlight,
        code: None,
    }
}

// The seconds that a press starts anew, in auto.
pub fn light_up(light: Backlight) -> Backlight
    ensures same { result ≡ lit light }
{
    if light.mode == AUTO {
        Backlight {
            left: light.duration,
            ..light
        }
    } else {
        light
    }
}

fn press(held: Held, light: Backlight, now: u16, key: u8) -> Keyed
    ensures { result ≡ pressed held light now key }
{
    if held.down {
        nothing(held, light)
    } else {
        Keyed {
            held: Held {
                down: true,
                key,
                tick: Tick(now),
                long: false,
            },
            backlight: light_up(light),
            code: None,
        }
    }
}

// The held key is long from now on.
fn long_since(held: Held, now: u16) -> Held
    ensures { result ≡ long_since held now }
{
    Held {
        tick: Tick(now),
        long: true,
        ..held
    }
}

// Whether the held key has been held at least as long as the time.
pub fn over(time: Tenths, now: u16, held: Tick) -> bool
    ensures same { result ≡ overOf time now held.0 }
{
    in_ticks(time) <= elapsed(now, held)
}

fn poll_short(held: Held, times: Times, light: Backlight, now: u16) -> Keyed
    ensures { result ≡ polled_short held times light now }
{
    if over(times.time1, now, held.tick) {
        Keyed {
            held: long_since(held, now),
            backlight: light,
            code: code(held.key, Stage::Long),
        }
    } else {
        nothing(held, light)
    }
}

fn poll_long(held: Held, times: Times, light: Backlight, now: u16) -> Keyed
    ensures { result ≡ polled_long held times light now }
{
    let again = code(held.key, Stage::Repeat);
    if (times.time2.0 != 0) & again.is_some() & over(times.time2, now, held.tick) {
        Keyed {
            held: long_since(held, now),
            backlight: light,
            code: again,
        }
    } else {
        nothing(held, light)
    }
}

fn poll(held: Held, times: Times, light: Backlight, now: u16) -> Keyed
    ensures { result ≡ polled held times light now }
{
    if !held.down {
        nothing(held, light)
    } else if held.long {
        poll_long(held, times, light, now)
    } else {
        poll_short(held, times, light, now)
    }
}

fn release_code(held: Held, times: Times, now: u16) -> Option<u8>
    ensures { result ≡ release_code held times now }
{
    if held.long {
        None
    } else if over(times.time1, now, held.tick) {
        code(held.key, Stage::Long)
    } else {
        code(held.key, Stage::Short)
    }
}

fn release(held: Held, times: Times, light: Backlight, now: u16, key: u8) -> Keyed
    ensures { result ≡ released held times light now key }
{
    if held.down & (held.key == key) {
        Keyed {
            held: Held {
                down: false,
                key: 0,
                tick: Tick(0),
                long: false,
            },
            backlight: light,
            code: release_code(held, times, now),
        }
    } else {
        nothing(held, light)
    }
}

// One entry, by its edge.
#[tactic(auto, unfolding(crate::specs::Rules::keyed))]
pub fn take_entry(held: Held, times: Times, light: Backlight, now: u16, edge: u8) -> Keyed
    ensures same { result ≡ keyed held times light now edge }
{
    if edge <= LAST_KEY {
        press(held, light, now, edge)
    } else if is_release(edge, LAST_KEY) {
        release(held, times, light, now, edge - RELEASES)
    } else if edge == POLL {
        poll(held, times, light, now)
    } else {
        nothing(held, light)
    }
}

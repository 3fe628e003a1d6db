// One entry of the sister handset's key log: a press, a release or a poll at a tick reading, and the message it sends to the host.
// The rules are request T-06's, in specs/Rules.antt; the set of keys that are down is specs/Keys.antt.
#![tactic(auto)]

ghost use Rattle.std.specs.Prelude.{◌≡◌};
ghost use Rattle.sister_entry.specs.Keys.{bit_of, is_down, with_key, without_key};
ghost use Rattle.sister_entry.specs.Rules.{is_release, sign_of, is_held, false_with, started, pressed_beside, key_pressed, left_down, key_released, due as dueOf, long_since, polled, lifted, put_back, ptt_pressed, ptt_released, pressed, released, entered, keyed};

use key_entry::{POLL, RELEASES};
use record::{
    Backlight, Keys, STAGE_FALSE, STAGE_LONG, STAGE_NONE, STAGE_SHORT, Tenths, Tick, Times,
};

// The last key that is held, and the two numbers behind it that stand apart from the keys.
const LAST_KEY: u8 = 20;

const HOOK: u8 = 21;

pub const PTT: u8 = 22;

// The sign of each number, in the order of the numbers.
const SIGNS: [u8; 23] = *b"LREAUD1234567890*#OMNHP";

const HOOK_SIGN: u8 = b'H';

const PTT_SIGN: u8 = b'P';

const START: u8 = b's';

const LONG: u8 = b'l';

const AGAIN: u8 = b'r';

const END: u8 = b'e';

// What is sent: KFx, or a sign and an event.
#[derive(Clone, Copy)]
pub enum Message {
    False,
    Event(u8, u8),
}

// What an entry leaves, and the message that it sends, if any. hook is whether it is on-hook, ptt whether it is pressed.
#[derive(Clone, Copy)]
pub struct SisterKeyed {
    pub keys: Keys,
    pub backlight: Backlight,
    pub hook: bool,
    pub ptt: bool,
    pub message: Option<Message>,
}

fn is_release(edge: u8) -> bool
    ensures { result ≡ is_release edge }
{
    edge >= RELEASES && edge - RELEASES <= PTT
}

// A record out of range can hold a key without a sign.
#[tactic(auto, unfolding(crate::specs::Rules::sign_of))]
fn sign_of(number: u8) -> u8
    ensures { result ≡ sign_of number }
{
    SIGNS.get(number as usize).copied().unwrap_or(0)
}

#[tactic(auto, unfolding(crate::specs::Keys::bit_of))]
fn bit_of(key: u8) -> u32
    ensures { result ≡ bit_of key }
{
    if key <= LAST_KEY { 1 << key } else { 0 }
}

#[tactic(auto, unfolding(crate::specs::Keys::is_down))]
fn is_down(down: u32, key: u8) -> bool
    ensures { result ≡ is_down down key }
{
    key <= LAST_KEY && (down >> key) % 2 == 1
}

#[tactic(auto, unfolding(crate::specs::Keys::with_key))]
fn with_key(down: u32, key: u8) -> u32
    ensures { result ≡ with_key down key }
{
    down | bit_of(key)
}

#[tactic(auto, using(crate::specs::Keys::bit_at_most), unfolding(crate::specs::Keys::without_key))]
fn without_key(down: u32, key: u8) -> u32
    ensures { result ≡ without_key down key }
{
    if is_down(down, key) {
        down - bit_of(key)
    } else {
        down
    }
}

fn is_held(keys: Keys) -> bool
    ensures { result ≡ is_held keys }
{
    (keys.stage == STAGE_SHORT) | (keys.stage == STAGE_LONG)
}

#[tactic(auto, unfolding(crate::specs::Rules::started))]
fn start(was: SisterKeyed, now: u16, key: u8) -> SisterKeyed
    ensures { result ≡ started was now key }
{
    SisterKeyed {
        keys: Keys {
            stage: STAGE_SHORT,
            key,
            tick: Tick(now),
            down: 0,
        },
        backlight: key_entry::light_up(was.backlight),
        message: Some(Message::Event(sign_of(key), START)),
        ..was
    }
}

// More than one key is down, or was and one still is.
fn false_with(down: u32) -> Keys
    ensures { result ≡ false_with down }
{
    Keys {
        stage: STAGE_FALSE,
        down,
        ..Keys::NONE
    }
}

// A press while a key is held. The seconds are not started again.
#[tactic(auto, unfolding(crate::specs::Rules::pressed_beside))]
fn press_beside(was: SisterKeyed, key: u8) -> SisterKeyed
    ensures { result ≡ pressed_beside was key }
{
    let held = was.keys.key;
    if held == key {
        was
    } else {
        SisterKeyed {
            keys: false_with(with_key(with_key(0, held), key)),
            message: Some(Message::False),
            ..was
        }
    }
}

#[tactic(auto, unfolding(crate::specs::Rules::key_pressed))]
fn press_key(was: SisterKeyed, now: u16, key: u8) -> SisterKeyed
    ensures { result ≡ key_pressed was now key }
{
    if was.keys.stage == STAGE_NONE {
        start(was, now, key)
    } else if is_held(was.keys) {
        press_beside(was, key)
    } else if was.keys.stage == STAGE_FALSE {
        SisterKeyed {
            keys: false_with(with_key(was.keys.down, key)),
            message: None,
            ..was
        }
    } else {
        was
    }
}

// False lasts until no key is down.
#[tactic(auto, unfolding(crate::specs::Rules::left_down))]
fn left_down(down: u32) -> Keys
    ensures { result ≡ left_down down }
{
    if down == 0 {
        Keys::NONE
    } else {
        false_with(down)
    }
}

#[tactic(auto, unfolding(crate::specs::Rules::key_released))]
fn release_key(was: SisterKeyed, key: u8) -> SisterKeyed
    ensures { result ≡ key_released was key }
{
    if is_held(was.keys) & (was.keys.key == key) {
        SisterKeyed {
            keys: Keys::NONE,
            message: Some(Message::Event(sign_of(key), END)),
            ..was
        }
    } else if was.keys.stage == STAGE_FALSE {
        SisterKeyed {
            keys: left_down(without_key(was.keys.down, key)),
            message: None,
            ..was
        }
    } else {
        was
    }
}

// A time of 0 is never due.
#[tactic(auto, unfolding(crate::specs::Rules::due))]
fn due(time: Tenths, now: u16, held: Tick) -> bool
    ensures { result ≡ dueOf time now held.0 }
{
    (time.0 != 0) & key_entry::over(time, now, held)
}

// The held key is long from now on.
#[tactic(auto, unfolding(crate::specs::Rules::long_since))]
fn long_since(was: SisterKeyed, now: u16, event: u8) -> SisterKeyed
    ensures { result ≡ long_since was now event }
{
    let key = was.keys.key;
    SisterKeyed {
        keys: Keys {
            stage: STAGE_LONG,
            key,
            tick: Tick(now),
            down: 0,
        },
        message: Some(Message::Event(sign_of(key), event)),
        ..was
    }
}

#[tactic(auto, unfolding(crate::specs::Rules::polled))]
fn poll(was: SisterKeyed, times: Times, now: u16) -> SisterKeyed
    ensures { result ≡ polled was times now }
{
    if (was.keys.stage == STAGE_SHORT) & due(times.time1, now, was.keys.tick) {
        long_since(was, now, LONG)
    } else if (was.keys.stage == STAGE_LONG) & due(times.time2, now, was.keys.tick) {
        long_since(was, now, AGAIN)
    } else {
        was
    }
}

#[tactic(auto, unfolding(crate::specs::Rules::lifted, crate::specs::Rules::sign_of))]
fn lift(was: SisterKeyed) -> SisterKeyed
    ensures { result ≡ lifted was }
{
    if was.hook {
        SisterKeyed {
            hook: false,
            message: Some(Message::Event(HOOK_SIGN, START)),
            ..was
        }
    } else {
        was
    }
}

#[tactic(auto, unfolding(crate::specs::Rules::put_back, crate::specs::Rules::sign_of))]
fn put_back(was: SisterKeyed) -> SisterKeyed
    ensures { result ≡ put_back was }
{
    if was.hook {
        was
    } else {
        SisterKeyed {
            hook: true,
            message: Some(Message::Event(HOOK_SIGN, END)),
            ..was
        }
    }
}

#[tactic(auto, unfolding(crate::specs::Rules::ptt_pressed, crate::specs::Rules::sign_of))]
fn press_ptt(was: SisterKeyed) -> SisterKeyed
    ensures { result ≡ ptt_pressed was }
{
    if was.ptt {
        was
    } else {
        SisterKeyed {
            ptt: true,
            message: Some(Message::Event(PTT_SIGN, START)),
            ..was
        }
    }
}

#[tactic(auto, unfolding(crate::specs::Rules::ptt_released, crate::specs::Rules::sign_of))]
fn release_ptt(was: SisterKeyed) -> SisterKeyed
    ensures { result ≡ ptt_released was }
{
    if was.ptt {
        SisterKeyed {
            ptt: false,
            message: Some(Message::Event(PTT_SIGN, END)),
            ..was
        }
    } else {
        was
    }
}

#[tactic(auto, unfolding(crate::specs::Rules::pressed))]
fn press(was: SisterKeyed, now: u16, number: u8) -> SisterKeyed
    ensures { result ≡ pressed was now number }
{
    if number <= LAST_KEY {
        press_key(was, now, number)
    } else if number == HOOK {
        lift(was)
    } else {
        press_ptt(was)
    }
}

#[tactic(auto, unfolding(crate::specs::Rules::released))]
fn release(was: SisterKeyed, number: u8) -> SisterKeyed
    ensures { result ≡ released was number }
{
    if number <= LAST_KEY {
        release_key(was, number)
    } else if number == HOOK {
        put_back(was)
    } else {
        release_ptt(was)
    }
}

#[tactic(auto, unfolding(crate::specs::Rules::entered))]
fn enter(was: SisterKeyed, times: Times, now: u16, edge: u8) -> SisterKeyed
    ensures { result ≡ entered was times now edge }
{
    if edge <= PTT {
        press(was, now, edge)
    } else if is_release(edge) {
        release(was, edge - RELEASES)
    } else if edge == POLL {
        poll(was, times, now)
    } else {
        was
    }
}

// One entry, by its edge. What the entry before it sent is not part of what this one finds.
pub fn take_entry(was: SisterKeyed, times: Times, now: u16, edge: u8) -> SisterKeyed
    ensures same { result ≡ keyed was.keys times was.backlight was.hook was.ptt now edge }
{
    let silent = SisterKeyed {
        message: None,
        ..was
    };
    enter(silent, times, now, edge)
}

// The record: all that the handset keeps between two calls. The range of each field is document 01's table, in specs/Range.antt: the
// crate `record_ranges` asks whether a record keeps to it, and commands are judged by the same definitions.
#![tactic(auto)]

ghost use Rattle.std.specs.Prelude.{◌≡◌};
ghost use Rattle.record.specs.Number.{paper_number, refused_number};
ghost use Rattle.record.specs.Range.{rows_of, row_end_of, row_start_of};
ghost use Rattle.record.specs.Parts.{small_of, whole};
ghost use Rattle.record.specs.PowerOn.{times_at_power_on, former_times, starting_with, power_on, former_power_on, stored_at_delivery, sister_with, sister_power_on};

// The text mode of large digits: its one row is the large line.
pub const LARGE: u8 = 10;

// The last display row; a picture row is one of them.
pub const LAST_ROW: u8 = 6;

// Picture row 6 holds columns below this one.
pub const LOW_COLUMN_END: u8 = 32;

// The codes of a label.
pub const LONGEST_LABEL: usize = 7;

// A volume's which: none is 0.
pub const PRIVATE: u8 = 1;

pub const HANDSFREE: u8 = 2;

// The modes of the backlight, and its duration where no frame says another.
pub const OFF: u8 = 0;

pub const ON: u8 = 1;

pub const AUTO: u8 = 2;

pub const DEFAULT_DURATION: u8 = 30;

// The states of the frame, and how many bytes an open one has at most.
pub const NO_FRAME: u8 = 0;

pub const OPEN: u8 = 1;

pub const OVERLONG: u8 = 2;

pub const LONGEST_FRAME: usize = 250;

// The stages of the sister's keys: none is down; one is, short or long; or more than one was, until none is.
pub const STAGE_NONE: u8 = 0;

pub const STAGE_SHORT: u8 = 1;

pub const STAGE_LONG: u8 = 2;

pub const STAGE_FALSE: u8 = 3;

// The last of her keys, and the sets of them are below this.
pub const LAST_SISTER_KEY: u8 = 20;

pub const SETS_OF_KEYS: u32 = 2097152;

// A count of 100 ms: Time1 and Time2 of the keys.
#[repr(C)]
#[derive(Clone, Copy)]
pub struct Tenths(pub u8);

// A count of 10 ms: the buzzer.
#[repr(C)]
#[derive(Clone, Copy)]
pub struct Hundredths(pub u8);

// A count of 1 s: the backlight.
#[repr(C)]
#[derive(Clone, Copy)]
pub struct Seconds(pub u8);

// A reading of the clock that steps every 10 ms and runs over from 65,535 to 0: a place in time, and no count.
#[repr(C)]
#[derive(Clone, Copy)]
pub struct Tick(pub u16);

// How a call ended: document 01's number, by name. specs/Number.antt sets out which.
#[derive(Clone, Copy)]
pub enum Number {
    Done,
    FieldOutOfRange,
    CommandOutOfRange,
    NoRoom,
    NotListed,
    UnequalLengths,
}

// Why a call did nothing: document 01's numbers but 0.
#[derive(Clone, Copy)]
pub enum Refusal {
    FieldOutOfRange,
    CommandOutOfRange,
    NoRoom,
    NotListed,
    UnequalLengths,
}

impl From<Refusal> for Number {
    ghost from_gives = { λ refusal number. number ≡ refused_number refusal };

    fn from(refusal: Refusal) -> Number {
        match refusal {
            Refusal::FieldOutOfRange => Number::FieldOutOfRange,
            Refusal::CommandOutOfRange => Number::CommandOutOfRange,
            Refusal::NoRoom => Number::NoRoom,
            Refusal::NotListed => Number::NotListed,
            Refusal::UnequalLengths => Number::UnequalLengths,
        }
    }
}

// overlay 0 is none; the column past a row's last one stands at its end.
#[repr(C)]
#[derive(Clone, Copy)]
pub struct Screen {
    pub display: bool,
    pub mode: u8,
    pub overlay: u8,
    pub row: u8,
    pub column: u8,
}

#[repr(C)]
#[derive(Clone, Copy)]
pub struct Label {
    pub len: u8,
    pub codes: [u8; 7],
}

#[repr(C)]
#[derive(Clone, Copy)]
pub struct Icons {
    pub s: u8,
    pub u: u8,
    pub f: u8,
    pub r: u8,
    pub p: u8,
    pub w: u8,
}

// which: none is 0, or one of the two above.
#[repr(C)]
#[derive(Clone, Copy)]
pub struct Volume {
    pub which: u8,
    pub level: u8,
    pub mute: bool,
    pub hidden: bool,
}

// Time1 until a held key is long, Time2 between its repeats.
#[repr(C)]
#[derive(Clone, Copy)]
pub struct Times {
    pub time1: Tenths,
    pub time2: Tenths,
}

// mode: off, on or auto.
#[repr(C)]
#[derive(Clone, Copy)]
pub struct Backlight {
    pub mode: u8,
    pub duration: Seconds,
    pub left: Seconds,
    pub keypad: bool,
}

// All that is small. The structs inside are the groups of fields that commands change together. hook is whether it is on-hook; inverse
// has a mark for each text row.
#[repr(C)]
#[derive(Clone, Copy)]
pub struct Settings {
    pub screen: Screen,
    pub shown: bool,
    pub left: Label,
    pub right: Label,
    pub icons: Icons,
    pub volume: Volume,
    pub times: Times,
    pub buzzer: Hundredths,
    pub backlight: Backlight,
    pub contrast: u8,
    pub hook: bool,
    pub inverse: [bool; 5],
}

// down: whether a key is held; long: whether its stage is long.
#[repr(C)]
#[derive(Clone, Copy)]
pub struct Held {
    pub down: bool,
    pub key: u8,
    pub tick: Tick,
    pub long: bool,
}

// The sister's keys that are down. stage: none; short or long, one key and a tick; false, in which `down` has a bit for each of keys 0 to 20
// that is down.
#[repr(C)]
#[derive(Clone, Copy)]
pub struct Keys {
    pub stage: u8,
    pub key: u8,
    pub tick: Tick,
    pub down: u32,
}

// Which handset it is, and what only the sister of AN1900 has. In the first edition all of it is unused. It stands beside the settings
// and not among them, since the stream call hands these on with each frame.
#[repr(C)]
#[derive(Clone, Copy)]
pub struct Edition {
    pub sister: bool,
    pub brightness: u8,
    pub speaker: u8,
    pub pwm: bool,
    pub ptt: bool,
    pub keys: Keys,
}

// The numbers that the sister keeps while the power is off.
#[repr(C)]
#[derive(Clone, Copy)]
pub struct Stored {
    pub times: Times,
    pub contrast: u8,
    pub brightness: u8,
    pub speaker: u8,
    pub duration: Seconds,
}

// state: none, open or overlong.
#[repr(C)]
#[derive(Clone, Copy)]
pub struct Frame {
    pub state: u8,
    pub len: u8,
    pub bytes: [u8; 250],
}

// The text is 5 rows of 16 codes, row after row, and then the large line of 24: a text byte has one array to go to in every mode.
// The picture is 7 rows of 96 columns.
#[repr(C)]
#[derive(Clone, Copy)]
pub struct Record {
    pub settings: Settings,
    pub text: [u8; 104],
    pub picture: [u8; 672],
    pub held: Held,
    pub frame: Frame,
    pub edition: Edition,
}

// The record's three arrays, each by itself, as they are lent.
pub type Text = [u8; 104];

pub type Picture = [u8; 672];

pub type FrameBytes = [u8; LONGEST_FRAME];

// All of the record but its three arrays, for one who keeps these elsewhere and lends them: state and len are the frame's.
#[repr(C)]
#[derive(Clone, Copy)]
pub struct Small {
    pub settings: Settings,
    pub held: Held,
    pub state: u8,
    pub len: u8,
    pub edition: Edition,
}

// A record in parts, for a call that only looks at its arrays.
#[derive(Clone, Copy)]
pub struct InParts<'a> {
    pub small: Small,
    pub text: &'a Text,
    pub picture: &'a Picture,
    pub frame: &'a FrameBytes,
}

pub fn small_of(r: Record) -> Small
    ensures same { result ≡ small_of r }
{
    r.in_parts().small
}

pub fn paper_number(number: Number) -> u8
    ensures same { result ≡ paper_number number }
{
    match number {
        Number::Done => 0,
        Number::FieldOutOfRange => 1,
        Number::CommandOutOfRange => 2,
        Number::NoRoom => 3,
        Number::NotListed => 4,
        Number::UnequalLengths => 5,
    }
}

// How many text rows a text mode has.
#[tactic(auto, unfolding(crate::specs::Range::rows_of))]
pub fn rows(mode: u8) -> u8
    ensures same { result ≡ rows_of mode }
{
    match mode {
        0 | 1 => 4,
        LARGE => 1,
        _ => 5,
    }
}

// The column past the end of a text row.
pub fn row_end(mode: u8) -> u8
    ensures same { result ≡ row_end_of mode }
{
    if mode == LARGE { 24 } else { 16 }
}

// Where a row's codes begin in the text: the large line stands behind the rows.
pub fn row_start(mode: u8, row: u8) -> usize
    ensures same { result ≡ row_start_of mode row }
{
    if mode == LARGE { 80 } else { row as usize * 16 }
}

impl Times {
    // A key that is held down does not repeat.
    pub const POWER_ON: Times = Times {
        time1: Tenths(12),
        time2: Tenths(0),
    };

    // The note's, which were ours too: a key that is held down repeats.
    pub const FORMER: Times = Times {
        time1: Tenths(12),
        time2: Tenths(12),
    };

    pub fn power_on() -> Times
        ensures same { result ≡ times_at_power_on }
    {
        Times::POWER_ON
    }

    pub fn former_defaults() -> Times
        ensures same { result ≡ former_times }
    {
        Times::FORMER
    }
}

impl Settings {
    // What is small of the power-on record.
    pub const POWER_ON: Settings = Settings {
        screen: Screen {
            display: true,
            mode: 0,
            overlay: 0,
            row: 0,
            column: 0,
        },
        shown: false,
        left: Label {
            len: 0,
            codes: [0u8; 7],
        },
        right: Label {
            len: 0,
            codes: [0u8; 7],
        },
        icons: Icons {
            s: 0,
            u: 0,
            f: 0,
            r: 0,
            p: 0,
            w: 0,
        },
        volume: Volume {
            which: 0,
            level: 0,
            mute: false,
            hidden: false,
        },
        times: Times::POWER_ON,
        buzzer: Hundredths(0),
        backlight: Backlight {
            mode: OFF,
            duration: Seconds(DEFAULT_DURATION),
            left: Seconds(0),
            keypad: false,
        },
        contrast: 10,
        hook: true,
        inverse: [false; 5],
    };
}

impl Keys {
    pub const NONE: Keys = Keys {
        stage: STAGE_NONE,
        key: 0,
        tick: Tick(0),
        down: 0,
    };
}

impl Edition {
    pub const FIRST: Edition = Edition {
        sister: false,
        brightness: 0,
        speaker: 0,
        pwm: false,
        ptt: false,
        keys: Keys::NONE,
    };

    // The sister as she is delivered.
    pub const SISTER: Edition = Edition {
        sister: true,
        brightness: 50,
        speaker: 3,
        pwm: true,
        ptt: false,
        keys: Keys::NONE,
    };
}

impl Stored {
    pub const DELIVERED: Stored = Stored {
        times: Times::FORMER,
        contrast: 10,
        brightness: 50,
        speaker: 3,
        duration: Seconds(DEFAULT_DURATION),
    };

    pub fn delivered() -> Stored
        ensures same { result ≡ stored_at_delivery }
    {
        Stored::DELIVERED
    }
}

impl Record {
    pub const POWER_ON: Record = Record {
        settings: Settings::POWER_ON,
        text: [lists::BLANK; 104],
        picture: [0u8; 672],
        held: Held {
            down: false,
            key: 0,
            tick: Tick(0),
            long: false,
        },
        frame: Frame {
            state: NO_FRAME,
            len: 0,
            bytes: [0u8; LONGEST_FRAME],
        },
        edition: Edition::FIRST,
    };

    // The power-on record with the former defaults: it differs in Time2 alone.
    pub const FORMER: Record = Record {
        settings: Settings {
            times: Times::FORMER,
            ..Settings::POWER_ON
        },
        ..Record::POWER_ON
    };

    pub fn in_parts(&self) -> InParts<'_>
        ensures same { whole result ≡ self.now }
    {
        InParts {
            small: Small {
                settings: self.settings,
                held: self.held,
                state: self.frame.state,
                len: self.frame.len,
                edition: self.edition,
            },
            text: &self.text,
            picture: &self.picture,
            frame: &self.frame.bytes,
        }
    }

    // The power-on record but for its times.
    pub fn starting_with(times: Times) -> Record
        ensures same { result ≡ starting_with times }
    {
        Record {
            settings: Settings {
                times,
                ..Settings::POWER_ON
            },
            ..Record::POWER_ON
        }
    }

    pub fn power_on() -> Record
        ensures same { result ≡ power_on }
    {
        Record::POWER_ON
    }

    pub fn former_defaults() -> Record
        ensures same { result ≡ former_power_on }
    {
        Record::FORMER
    }

    // The sister's power-on record, as she is delivered. Her light is auto with PWM.
    pub const SISTER: Record = Record {
        settings: Settings {
            times: Times::FORMER,
            backlight: Backlight {
                mode: AUTO,
                duration: Seconds(DEFAULT_DURATION),
                left: Seconds(0),
                keypad: false,
            },
            ..Settings::POWER_ON
        },
        edition: Edition::SISTER,
        ..Record::POWER_ON
    };

    // The same with these numbers stored.
    pub fn sister_with(stored: Stored) -> Record
        ensures same { result ≡ sister_with stored }
    {
        Record {
            settings: Settings {
                times: stored.times,
                backlight: Backlight {
                    mode: AUTO,
                    duration: stored.duration,
                    left: Seconds(0),
                    keypad: false,
                },
                contrast: stored.contrast,
                ..Settings::POWER_ON
            },
            edition: Edition {
                brightness: stored.brightness,
                speaker: stored.speaker,
                ..Edition::SISTER
            },
            ..Record::POWER_ON
        }
    }

    pub fn sister_power_on() -> Record
        ensures same { result ≡ sister_power_on }
    {
        Record::SISTER
    }
}

// What a number does to the screen and to the volume: IDn, and ILn and IJn. specs/Modes.antt has document 01's words.
#![tactic(auto)]

ghost use Rattle.std.specs.Prelude.{◌≡◌};
ghost use Rattle.effect_modes.specs.Modes.{in_mode, to_mode, at_level};

use record::{Screen, Volume};

fn in_mode(s: Screen, n: u8) -> Screen
    ensures same { result ≡ in_mode s n }
{
    Screen {
        display: s.display,
        mode: n,
        overlay: 0,
        row: 0,
        column: 0,
    }
}

// IDn: an overlay leaves the cursor where it is, a text mode homes it.
pub fn to_mode(s: Screen, n: u8) -> Screen
    ensures same { result ≡ to_mode s n }
{
    match n {
        11..=18 => Screen { overlay: n, ..s },
        _ => in_mode(s, n),
    }
}

// ILn and IJn. Level 0 hides and keeps mute, so that mute comes back with the next volume icon.
pub fn at_level(v: Volume, which: u8, n: u8) -> Volume
    ensures same { result ≡ at_level v which n }
{
    match n {
        0 => Volume {
            which: 0,
            level: 0,
            hidden: true,
            ..v
        },
        1..=255 => Volume {
            which: which,
            level: n,
            hidden: false,
            ..v
        },
    }
}

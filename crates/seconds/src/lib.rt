// The seconds of the backlight: a call each second lowers those that are left.
#![tactic(auto)]

ghost use Rattle.std.specs.Prelude.{◌≡◌};
ghost use Rattle.record.specs.Parts.{whole};
ghost use Rattle.seconds.specs.Seconds.{lowered, light_passed, passed, lent_of};

use record::{Backlight, InParts, Number, Record, Seconds, Small};
use record_ranges::in_range_lent;
use record_small_ranges::backlight_in_range;

// The number, and what comes back: the record, or its small fields where the arrays were lent.
#[derive(Clone, Copy)]
pub struct Passed<R> {
    pub number: Number,
    pub after: R,
}

#[derive(Clone, Copy)]
pub struct LightPassed {
    pub number: Number,
    pub backlight: Backlight,
}

fn lower(light: Backlight) -> Backlight
    ensures { result ≡ lowered light }
{
    Backlight {
        left: Seconds(light.left.0.saturating_sub(1)),
        ..light
    }
}

// The core of the entry in place: all its branches are here.
#[tactic(auto, unfolding(crate::specs::Seconds::light_passed))]
fn light_passed(light: Backlight) -> LightPassed
    ensures { result ≡ light_passed light }
{
    if backlight_in_range(light) {
        LightPassed {
            number: Number::Done,
            backlight: lower(light),
        }
    } else {
        LightPassed {
            number: Number::FieldOutOfRange,
            backlight: light,
        }
    }
}

// A second passes. It changes no array, so they are only lent to be judged.
#[tactic(auto, unfolding(crate::specs::Seconds::passed))]
pub fn second_lent(parts: InParts<'_>) -> Passed<Small>
    ensures same { result ≡ lent_of (passed (whole parts.entry)) }
{
    let mut after = parts.small;
    if !in_range_lent(parts) {
        return Passed {
            number: Number::FieldOutOfRange,
            after,
        };
    }
    after.settings.backlight = lower(after.settings.backlight);
    Passed {
        number: Number::Done,
        after,
    }
}

// The same on a record by value.
pub fn second(r: Record) -> Passed<Record>
    ensures same { result ≡ passed r }
{
    let q = second_lent(r.in_parts());
    Passed {
        number: q.number,
        after: Record {
            settings: q.after.settings,
            ..r
        },
    }
}

// The same on a backlight that its owner keeps: it judges the backlight's own ranges and changes it in place.
pub fn second_in_place(b: &mut Backlight) -> Number
    ensures same { (result ≡ (light_passed b.old).number) × (b.new ≡ (light_passed b.old).backlight) }
{
    let passed = light_passed(*b);
    *b = passed.backlight;
    passed.number
}

// The hook switch: a call when the handset is lifted or hung up.
#![tactic(auto)]

ghost use Rattle.std.specs.Prelude.{◌≡◌};
ghost use Rattle.record.specs.Parts.{whole};
ghost use Rattle.hook.specs.Hook.{hooked, lent_of};

use record::{InParts, Number, Record, Small};
use record_ranges::in_range_lent;

// The number, and what comes back: the record, or its small fields where the arrays were lent.
#[derive(Clone, Copy)]
pub struct Hooked<R> {
    pub number: Number,
    pub after: R,
}

// `on` is whether it is on-hook now. It changes no array, so they are only lent to be judged.
#[tactic(auto, unfolding(crate::specs::Hook::hooked))]
pub fn hook_lent(parts: InParts<'_>, on: bool) -> Hooked<Small>
    ensures same { result ≡ lent_of (hooked (whole parts.entry) on) }
{
    let mut after = parts.small;
    if !in_range_lent(parts) {
        return Hooked {
            number: Number::FieldOutOfRange,
            after,
        };
    }
    after.settings.hook = on;
    Hooked {
        number: Number::Done,
        after,
    }
}

// The same on a record by value.
pub fn hook(r: Record, on: bool) -> Hooked<Record>
    ensures same { result ≡ hooked r on }
{
    let q = hook_lent(r.in_parts(), on);
    Hooked {
        number: q.number,
        after: Record {
            settings: q.after.settings,
            ..r
        },
    }
}

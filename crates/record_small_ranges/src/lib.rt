// Whether the small fields of a record, all but its arrays, are within their ranges: the definitions of document 01's table are the
// record's.
#![tactic(auto)]

ghost use Rattle.std.specs.Prelude.{◌≡◌, true};
ghost use Rattle.record.specs.Range.{mode_in_range, overlay_in_range, cursor_in_range, icons_in_range, volume_in_range, times_in_range, buzzer_in_range, backlight_in_range, contrast_in_range, inverse_in_range, held_in_range, sister_times, sister_backlight, held_unused};
ghost use Rattle.record_small_ranges.specs.Small.{small_in_range, small_kept};

use record::{
    AUTO, Backlight, HANDSFREE, Held, Icons, LARGE, OFF, Screen, Settings, Times, Volume,
};

// The sister's longest duration, and the greatest contrast.
const LONGEST_DURATION: u8 = 250;

const MOST_CONTRAST: u8 = 20;

fn mode_in_range(mode: u8) -> bool
    ensures { result ≡ mode_in_range mode }
{
    (mode == 0) | (mode == 1) | (mode == 5) | (mode == 6) | (mode == LARGE)
}

fn overlay_in_range(overlay: u8) -> bool
    ensures { result ≡ overlay_in_range overlay }
{
    (overlay == 0) | ((11 <= overlay) & (overlay <= 18))
}

fn cursor_in_range(s: Screen) -> bool
    ensures { result ≡ cursor_in_range s }
{
    (s.row < record::rows(s.mode)) & (s.column <= record::row_end(s.mode))
}

fn icons_in_range(i: Icons) -> bool
    ensures { result ≡ icons_in_range i }
{
    (i.s <= 1)
        & ((i.u == 0) | (i.u == 1) | (i.u == 255))
        & (i.f <= 6)
        & (i.r <= 1)
        & (i.p <= 19)
        & (i.w <= 3)
}

fn volume_in_range(v: Volume) -> bool
    ensures { result ≡ volume_in_range v }
{
    (v.which <= HANDSFREE)
        & (((v.which == 0) & (v.level == 0)) | ((v.which != 0) & (1 <= v.level) & (v.level <= 10)))
        & ((v.which == 0) | !v.hidden)
}

fn times_in_range(t: Times) -> bool
    ensures { result ≡ times_in_range t }
{
    (4 <= t.time1.0)
        & (t.time1.0 <= 50)
        & ((t.time2.0 == 0) | ((4 <= t.time2.0) & (t.time2.0 <= 50)))
}

fn buzzer_in_range(value: u8) -> bool
    ensures { result ≡ buzzer_in_range value }
{
    value <= 255
}

pub fn backlight_in_range(b: Backlight) -> bool
    ensures same { result ≡ backlight_in_range b }
{
    (b.mode <= AUTO)
        & ((1 <= b.duration.0) & (b.duration.0 <= 255))
        & ((b.left.0 == 0) | (b.mode == AUTO))
}

fn contrast_in_range(contrast: u8) -> bool
    ensures { result ≡ contrast_in_range contrast }
{
    (1 <= contrast) & (contrast <= MOST_CONTRAST)
}

// At most one text row is marked.
fn inverse_in_range(marks: [bool; 5]) -> bool
    ensures { result ≡ inverse_in_range marks }
{
    marks[0] as u8 + marks[1] as u8 + marks[2] as u8 + marks[3] as u8 + marks[4] as u8 <= 1
}

fn held_in_range(h: Held) -> bool
    ensures { result ≡ held_in_range h }
{
    (h.down & (h.key <= 18)) | (!h.down & (h.key == 0) & (h.tick.0 == 0) & !h.long)
}

// All of them at once, in the order of document 01's table.
pub fn small_in_range(p: Settings, held: Held) -> bool
    ensures same { result ≡ small_in_range p held }
{
    let marks = p.inverse;
    mode_in_range(p.screen.mode)
        & overlay_in_range(p.screen.overlay)
        & cursor_in_range(p.screen)
        & icons_in_range(p.icons)
        & volume_in_range(p.volume)
        & times_in_range(p.times)
        & buzzer_in_range(p.buzzer.0)
        & backlight_in_range(p.backlight)
        & contrast_in_range(p.contrast)
        & inverse_in_range(marks)
        & held_in_range(held)
}

// The sister's ranges, where they are not the first edition's.

fn sister_times_in_range(t: Times) -> bool
    ensures { result ≡ sister_times t }
{
    times_in_range(t) | ((t.time1.0 == 0) & (t.time2.0 == 0))
}

fn sister_backlight_in_range(b: Backlight, pwm: bool) -> bool
    ensures { result ≡ sister_backlight b pwm }
{
    backlight_in_range(b)
        & (b.duration.0 <= LONGEST_DURATION)
        & (b.left.0 <= LONGEST_DURATION)
        & (!pwm | (b.mode != OFF))
}

fn held_unused(h: Held) -> bool
    ensures { result ≡ held_unused h }
{
    !h.down & (h.key == 0) & (h.tick.0 == 0) & !h.long
}

// The same of the sister, whose light may have PWM.
pub fn sister_small_in_range(p: Settings, held: Held, pwm: bool) -> bool
    ensures same { result ≡ small_kept true pwm p held }
{
    let marks = p.inverse;
    mode_in_range(p.screen.mode)
        & overlay_in_range(p.screen.overlay)
        & cursor_in_range(p.screen)
        & icons_in_range(p.icons)
        & volume_in_range(p.volume)
        & sister_times_in_range(p.times)
        & buzzer_in_range(p.buzzer.0)
        & sister_backlight_in_range(p.backlight, pwm)
        & (p.contrast <= MOST_CONTRAST)
        & inverse_in_range(marks)
        & held_unused(held)
}

// What an obeyed frame does in the sister's edition. specs/Effect.antt has her own commands line by line; the others are the first edition's.
// The text and the picture are changed in place; all that is small goes by value.
#![tactic(auto)]

ghost use Rattle.std.specs.Prelude.{◌≡◌, true, false, cond, List, [], ℕ, ◌≤◌, eqb};
ghost use Rattle.std.proofs.Math.Option.{some};
ghost use Rattle.record.specs.Core.{core_of};
ghost use Rattle.record.specs.PowerOn.{sister_with};
ghost use Rattle.record.specs.Range.{auto};
ghost use Rattle.sister_answer.specs.declared.Told.TheVariants.{Silence, Mark};
ghost use Rattle.sister_command.specs.declared.SisterCommand.TheVariants.{Light};
ghost use Rattle.sister_command.specs.Order.{own};
ghost use Rattle.sister_command.specs.InRange.{own_in_range};
ghost use Rattle.sister_command.specs.Reading.{own_found};
ghost use Rattle.effect.specs.Obey.{core};
ghost use Rattle.sister_effect.specs.Effect.{mode_named, name_of, mode_told, icon_u_named, light_told, started_anew, light_effect, step_effect, stored_of, own_effect, step_refused, not_normal_auto, light_refused, refused_now, tell_of, asked_of};
ghost use Rattle.sister_effect.specs.Obey.{Leaves, SisterObeys};

use lists::BLANK;
use record::{
    AUTO, Backlight, Edition, OFF, ON, Picture, Screen, Seconds, Settings, Tenths, Text, Times,
};
use sister_answer::Told;
use sister_command::{LightChange, Question, SisterCommand, SisterReading, Step};
use sister_form::{FLASHING, LOUDEST, MOST_BRIGHTNESS, SHOWN};

// The settings and the edition after a frame, and what it is answered.
#[derive(Clone, Copy)]
pub struct SisterObeyed {
    pub settings: Settings,
    pub edition: Edition,
    pub told: Told,
}

const MOST_CONTRAST: u8 = 20;

// Refusals by the record's state.

fn step_refused(step: Step, p: Settings, e: Edition) -> bool
    ensures same { (text picture : List ℕ) → result ≡ step_refused step (core p text picture e) }
{
    match step {
        Step::ContrastUp => MOST_CONTRAST <= p.contrast,
        Step::ContrastDown => p.contrast == 0,
        Step::BrightnessUp => MOST_BRIGHTNESS <= e.brightness,
        Step::BrightnessDown => e.brightness == 0,
        Step::SpeakerUp => LOUDEST <= e.speaker,
        Step::SpeakerDown => e.speaker == 0,
    }
}

fn not_normal_auto(p: Settings, e: Edition) -> bool
    ensures same { (text picture : List ℕ) → result ≡ not_normal_auto (core p text picture e) }
{
    p.backlight.mode != AUTO || e.pwm
}

fn light_refused(change: LightChange, p: Settings, e: Edition) -> bool
    ensures same { (text picture : List ℕ) → result ≡ light_refused change (core p text picture e) }
{
    match change {
        LightChange::KeypadSet | LightChange::KeypadClearedStart | LightChange::KeypadCleared => {
            not_normal_auto(p, e)
        }
        _ => false,
    }
}

// Whether the record's state has a command refused that is good by its spelling.
pub fn refused(c: SisterCommand, p: Settings, e: Edition) -> bool
    ensures same { (text picture : List ℕ) → result ≡ refused_now c (core p text picture e) }
{
    match c {
        SisterCommand::LightTo(change) => light_refused(change, p, e),
        SisterCommand::Step(step) => step_refused(step, p, e),
        _ => false,
    }
}

// Her numbers.

// How far the text modes 5 and 6 stand above their numbers, and mode 10 and the overlays behind it above theirs.
const SMALL_ABOVE: u8 = 3;

const LARGE_ABOVE: u8 = 6;

// IDMn: a text mode or an overlay.
fn mode_named(n: u8) -> u8
    requires { n ≤ 12 }
    ensures same { result ≡ mode_named n }
{
    match n {
        0..=1 => n,
        2..=3 => n + SMALL_ABOVE,
        _ => n + LARGE_ABOVE,
    }
}

// And back. No mode is 2, but a record out of range may hold it.
fn name_of(kept: u8) -> u8
    ensures same { result ≡ name_of kept }
{
    match kept {
        0..=1 => kept,
        2 => 0,
        3..=6 => kept - SMALL_ABOVE,
        _ => kept - LARGE_ABOVE,
    }
}

fn mode_told(s: Screen) -> u8
    ensures same { result ≡ mode_told s }
{
    name_of(if s.overlay == 0 { s.mode } else { s.overlay })
}

// The flashing letter is kept as the first edition spells it.
const KEPT_FLASHING: u8 = 255;

fn icon_u_named(n: u8) -> u8
    ensures same { result ≡ icon_u_named n }
{
    match n {
        FLASHING => KEPT_FLASHING,
        _ => n,
    }
}

// The lights by her own numbers.
const NORMAL_AUTO: u8 = 0;

const NORMAL_ON: u8 = 1;

const PWM_AUTO: u8 = 2;

const PWM_ON: u8 = 3;

const TOLD_OFF: u8 = 4;

fn light_told(b: Backlight, pwm: bool) -> u8
    ensures same { result ≡ light_told b pwm }
{
    match (b.mode, pwm) {
        (OFF, _) => TOLD_OFF,
        (ON, true) => PWM_ON,
        (ON, false) => NORMAL_ON,
        (_, true) => PWM_AUTO,
        (_, false) => NORMAL_AUTO,
    }
}

// What a command in range does that is not refused.

// IE0 is off, without PWM; another number is the duration.
fn light_at(mut p: Settings, mut e: Edition, n: u8) -> SisterObeyed
    ensures leaves { (text picture : List ℕ) → Leaves Silence (own_effect (Light n) (core p text picture e)) result (core result.settings text picture result.edition) }
{
    match n {
        0 => {
            p.backlight.mode = OFF;
            p.backlight.left = Seconds(0);
            e.pwm = false;
        }
        _ => p.backlight.duration = Seconds(n),
    }
    SisterObeyed {
        settings: p,
        edition: e,
        told: Told::Silence,
    }
}

// The seconds begin anew.
fn started_anew(b: Backlight) -> Backlight
    ensures same { result ≡ started_anew b }
{
    Backlight {
        left: b.duration,
        ..b
    }
}

// Where no seconds run none begin.
fn restarted(b: Backlight) -> Backlight
    ensures same { result ≡ cond (eqb b.mode auto) (started_anew b) b }
{
    if b.mode == AUTO { started_anew(b) } else { b }
}

fn light_to(mut p: Settings, mut e: Edition, change: LightChange) -> SisterObeyed
    ensures leaves { (text picture : List ℕ) → Leaves Silence (light_effect change (core p text picture e)) result (core result.settings text picture result.edition) }
{
    match change {
        LightChange::On => {
            p.backlight.mode = ON;
            p.backlight.left = Seconds(0);
            e.pwm = false;
        }
        LightChange::AutoStart => {
            p.backlight.mode = AUTO;
            p.backlight.left = p.backlight.duration;
            e.pwm = false;
        }
        LightChange::Auto => {
            p.backlight.mode = AUTO;
            e.pwm = false;
        }
        LightChange::PwmOn => {
            p.backlight.mode = ON;
            p.backlight.left = Seconds(0);
            e.pwm = true;
        }
        LightChange::PwmAuto => {
            p.backlight.mode = AUTO;
            e.pwm = true;
        }
        LightChange::Restart => p.backlight = restarted(p.backlight),
        LightChange::KeypadSet => p.backlight.keypad = true,
        LightChange::KeypadClearedStart => {
            p.backlight.keypad = false;
            p.backlight.left = p.backlight.duration;
        }
        LightChange::KeypadCleared => p.backlight.keypad = false,
    }
    SisterObeyed {
        settings: p,
        edition: e,
        told: Told::Silence,
    }
}

fn stepped(mut p: Settings, mut e: Edition, step: Step) -> SisterObeyed
    requires { (text picture : List ℕ) → step_refused step (core p text picture e) ≡ false }
    ensures leaves { (text picture : List ℕ) → Leaves Silence (step_effect step (core p text picture e)) result (core result.settings text picture result.edition) }
{
    match step {
        Step::ContrastUp => p.contrast += 1,
        Step::ContrastDown => p.contrast -= 1,
        Step::BrightnessUp => e.brightness += 1,
        Step::BrightnessDown => e.brightness -= 1,
        Step::SpeakerUp => e.speaker += 1,
        Step::SpeakerDown => e.speaker -= 1,
    }
    SisterObeyed {
        settings: p,
        edition: e,
        told: Told::Silence,
    }
}

fn tell_of(question: Question, p: Settings, e: Edition) -> Told
    ensures same { (text picture : List ℕ) → result ≡ tell_of question (core p text picture e) }
{
    match question {
        Question::Position => Told::Place(p.screen.row, p.screen.column),
        Question::Version => Told::Version,
        Question::Hook => Told::Hook(p.hook),
        Question::Ptt => Told::Ptt(e.ptt),
        Question::Contrast => Told::Contrast(p.contrast),
        Question::Mode => Told::Mode(mode_told(p.screen)),
        Question::Light => Told::Light(light_told(p.backlight, e.pwm), p.backlight.duration.0),
        Question::Brightness => Told::Brightness(e.brightness),
        Question::Times => Told::Times(p.times.time1.0, p.times.time2.0),
        Question::Speaker => Told::Speaker(e.speaker),
    }
}

// The sister's power-on record, but for the numbers that she stores. A whole record is not made: it is large.
fn restart(p: Settings, e: Edition, text: &mut Text, picture: &mut Picture) -> SisterObeyed
    ensures leaves { Leaves Silence (core_of (sister_with (stored_of (core p [] [] e)))) result (core result.settings text.new picture.new result.edition) }
{
    *text = [BLANK; 104];
    *picture = [0; 672];
    let settings = Settings {
        times: p.times,
        backlight: Backlight {
            mode: AUTO,
            duration: p.backlight.duration,
            left: Seconds(0),
            keypad: false,
        },
        contrast: p.contrast,
        ..Settings::POWER_ON
    };
    let edition = Edition {
        brightness: e.brightness,
        speaker: e.speaker,
        ..Edition::SISTER
    };
    SisterObeyed {
        settings,
        edition,
        told: Told::Silence,
    }
}

fn changed(
    mut p: Settings,
    mut e: Edition,
    text: &mut Text,
    picture: &mut Picture,
    c: SisterCommand,
) -> SisterObeyed
    requires c_value { own_in_range c ≡ true }
    requires by_index { (text picture : List ℕ) → refused_now c (core p text picture e) ≡ false }
    ensures leaves { Leaves (asked_of c (core p text.old picture.old e)) (own_effect c (core p text.old picture.old e)) result (core result.settings text.new picture.new result.edition) }
{
    match c {
        SisterCommand::Cursor(n) => p.shown = n == SHOWN,
        SisterCommand::Restart => return restart(p, e, text, picture),
        SisterCommand::Mode(n) => p.screen = effect_modes::to_mode(p.screen, mode_named(n as u8)),
        SisterCommand::Light(n) => return light_at(p, e, n as u8),
        SisterCommand::LightTo(change) => return light_to(p, e, change),
        SisterCommand::IconU(n) => p.icons.u = icon_u_named(n as u8),
        SisterCommand::Brightness(n) => e.brightness = n as u8,
        SisterCommand::KeyTimes(first, second) => {
            p.times = Times {
                time1: Tenths(first as u8),
                time2: Tenths(second as u8),
            };
        }
        SisterCommand::Speaker(n) => e.speaker = n as u8,
        SisterCommand::Asked(question) => {
            return SisterObeyed {
                settings: p,
                edition: e,
                told: tell_of(question, p, e),
            };
        }
        SisterCommand::Step(step) => return stepped(p, e, step),
    }
    SisterObeyed {
        settings: p,
        edition: e,
        told: Told::Silence,
    }
}

// What is refused gets the mark, and changes nothing.
fn unchanged(settings: Settings, edition: Edition) -> SisterObeyed
    ensures { result ≡ record { settings = settings; edition = edition; told = Mark } }
{
    SisterObeyed {
        settings,
        edition,
        told: Told::Mark,
    }
}

// A command of her own: passed over with a number out of range, answered as a bad frame where the record's state refuses it.
fn obey_own(
    settings: Settings,
    edition: Edition,
    text: &mut Text,
    picture: &mut Picture,
    c: SisterCommand,
) -> SisterObeyed
    ensures obeys { SisterObeys (some (own c)) (core settings text.old picture.old edition) result (core result.settings text.new picture.new result.edition) }
{
    if refused(c, settings, edition) {
        return unchanged(settings, edition);
    }
    if sister_form::own_in_range(c) {
        return changed(settings, edition, text, picture, c);
    }
    SisterObeyed {
        settings,
        edition,
        told: Told::Silence,
    }
}

// Obeys a frame that spells a command of her own, the text and the picture in place; any other is bad here.
pub fn obey_own_frame(
    settings: Settings,
    edition: Edition,
    text: &mut Text,
    picture: &mut Picture,
    frame: &[u8],
) -> SisterObeyed
    ensures obeys { SisterObeys (own_found frame.now) (core settings text.old picture.old edition) result (core result.settings text.new picture.new result.edition) }
{
    match sister_command::read_sister(frame) {
        Some(SisterReading::Own(c)) => obey_own(settings, edition, text, picture, c),
        _ => unchanged(settings, edition),
    }
}

// The two panels of the icon bar, from the icons and the volume. The definitions are document 01's, in specs/Panels.antt.
#![tactic(auto)]

ghost use Rattle.std.specs.Prelude.{◌≡◌};
ghost use Rattle.seen_panels.specs.Panels.{unread_lit, sms_panel, volume_panel};

use record::{HANDSFREE, Icons, PRIVATE, Volume};

// The two phases of an icon that flashes: it is lit, and then there is a pause.
#[derive(Clone, Copy)]
pub enum Phase {
    Lit,
    Pause,
}

#[derive(Clone, Copy)]
pub enum SmsPanel {
    Nothing,
    Read,
    Unread,
}

// The number is the level.
#[derive(Clone, Copy)]
pub enum VolumePanel {
    Nothing,
    Mute,
    Private(u8),
    Handsfree(u8),
}

// U 255 flashes, any other U but 0 is lit at all times.
fn unread_lit(u: u8, phase: Phase) -> bool
    ensures { result ≡ unread_lit u phase }
{
    match phase {
        Phase::Lit => u != 0,
        Phase::Pause => !matches!(u, 0 | 255),
    }
}

pub fn sms_panel(i: Icons, phase: Phase) -> SmsPanel
    ensures same { result ≡ sms_panel i phase }
{
    if unread_lit(i.u, phase) {
        SmsPanel::Unread
    } else if i.s == 1 {
        SmsPanel::Read
    } else {
        SmsPanel::Nothing
    }
}

pub fn volume_panel(v: Volume) -> VolumePanel
    ensures same { result ≡ volume_panel v }
{
    match (v.hidden, v.mute, v.which) {
        (true, _, _) => VolumePanel::Nothing,
        (_, true, _) => VolumePanel::Mute,
        (_, _, PRIVATE) => VolumePanel::Private(v.level),
        (_, _, HANDSFREE) => VolumePanel::Handsfree(v.level),
        _ => VolumePanel::Nothing,
    }
}

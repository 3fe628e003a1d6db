// What C links: the proved calls of `handset` under their own names, each with the clauses that stand there, word for word. A crate is a
// library or a static library, so that the calls stand in the one, on which other crates are built, and their exports in this one.
#![tactic(auto)]

ghost use Rattle.std.specs.Prelude.{◌≡◌, length};
ghost use Rattle.record.specs.PowerOn.{power_on, former_power_on, sister_power_on};
ghost use Rattle.record.specs.Range.{in_range};
ghost use Rattle.record.specs.Parts.{together, small_of};
ghost use Rattle.stream.specs.Stream.{fed_of, answers_after};
ghost use Rattle.key_log.specs.Log.{outcome, handed_back, buffer_after};
ghost use Rattle.seconds.specs.Seconds.{passed, light_passed};
ghost use Rattle.parts.specs.Parts.{part_at};
ghost use Rattle.hook.specs.Hook.{hooked};
ghost use Rattle.seen.specs.Rows.{row_seen, sms_seen, volume_seen};
ghost use Rattle.seen.specs.Columns.{column_seen};
ghost use Rattle.answer_room.specs.Needed.{room_needed};
ghost use Rattle.writer_ranges.specs.Fitting.{is_label, is_row};
ghost use Rattle.command.specs.Order.{label, draw};
ghost use Rattle.command.specs.Spell.{spelling};
ghost use Rattle.writer.specs.Writing.{frame_of, room_after, written_of};
ghost use Rattle.verdict.specs.Verdict.{verdict_of};
ghost use Rattle.choice.specs.Choice.{choice_of};
ghost use Rattle.handset_numbers.specs.Numbers.{phase_of, side_of};
ghost use Rattle.handset.specs.Calls.{fed_in, logged_in, passed_in, hooked_in, counted_in, written_in, judged_in, choice_in, part_in, light_in, sms_in, volume_in, row_in, column_in, command_written, command_room, sister_written, sister_room, judged_of};

use handset::{
    HandsetPart, ProvedAfter, ProvedChoice, ProvedColumn, ProvedCount, ProvedFed, ProvedJudged,
    ProvedLight, ProvedPanel, ProvedRow, ProvedVerdict,
};
use record::{Backlight, FrameBytes, Picture, Small, Text};

// The record of this edition.
#[unsafe(no_mangle)]
pub extern "C" fn proved_power_on(
    text: &mut Text,
    picture: &mut Picture,
    frame: &mut FrameBytes,
) -> Small
    ensures same { result ≡ small_of power_on }
    ensures text { text.new ≡ power_on.text }
    ensures picture { picture.new ≡ power_on.picture }
    ensures frame { frame.new ≡ power_on.frame.bytes }
{
    handset::proved_power_on(text, picture, frame)
}

// The same with the former defaults of the key times.
#[unsafe(no_mangle)]
pub extern "C" fn proved_power_on_former(
    text: &mut Text,
    picture: &mut Picture,
    frame: &mut FrameBytes,
) -> Small
    ensures same { result ≡ small_of former_power_on }
    ensures text { text.new ≡ former_power_on.text }
    ensures picture { picture.new ≡ former_power_on.picture }
    ensures frame { frame.new ≡ former_power_on.frame.bytes }
{
    handset::proved_power_on_former(text, picture, frame)
}

// The sister's.
#[unsafe(no_mangle)]
pub extern "C" fn proved_sister_power_on(
    text: &mut Text,
    picture: &mut Picture,
    frame: &mut FrameBytes,
) -> Small
    ensures same { result ≡ small_of sister_power_on }
    ensures text { text.new ≡ sister_power_on.text }
    ensures picture { picture.new ≡ sister_power_on.picture }
    ensures frame { frame.new ≡ sister_power_on.frame.bytes }
{
    handset::proved_sister_power_on(text, picture, frame)
}

#[unsafe(no_mangle)]
pub extern "C" fn proved_in_range<'a>(
    small: Small,
    text: &'a Text,
    picture: &'a Picture,
    frame: &'a FrameBytes,
) -> bool
    ensures same { result ≡ in_range (together small text.now picture.now frame.now) }
{
    handset::proved_in_range(small, text, picture, frame)
}

// Bytes from the cord.
#[unsafe(no_mangle)]
pub extern "C" fn proved_feed(
    small: Small,
    text: &mut Text,
    picture: &mut Picture,
    frame: &mut FrameBytes,
    bytes: &[u8],
    answers: &mut [u8],
) -> ProvedFed
    ensures same { result ≡ fed_in (fed_of (together small text.old picture.old frame.old) bytes.now (length answers.old)) }
    ensures text { text.new ≡ (fed_of (together small text.old picture.old frame.old) bytes.now (length answers.old)).record.text }
    ensures picture { picture.new ≡ (fed_of (together small text.old picture.old frame.old) bytes.now (length answers.old)).record.picture }
    ensures frame { frame.new ≡ (fed_of (together small text.old picture.old frame.old) bytes.now (length answers.old)).record.frame.bytes }
    ensures buffer { answers.new ≡ answers_after (together small text.old picture.old frame.old) bytes.now answers.old }
{
    handset::proved_feed(small, text, picture, frame, bytes, answers)
}

// Keys: a tick and an edge for each entry.
#[unsafe(no_mangle)]
pub extern "C" fn proved_take_log<'a>(
    small: Small,
    text: &'a Text,
    picture: &'a Picture,
    frame: &'a FrameBytes,
    ticks: &'a [u16],
    edges: &'a [u8],
    codes: &mut [u8],
) -> ProvedFed
    ensures same { result ≡ logged_in (handed_back (outcome (together small text.now picture.now frame.now) ticks.now edges.now (length codes.old))) }
    ensures buffer { codes.new ≡ buffer_after (outcome (together small text.now picture.now frame.now) ticks.now edges.now (length codes.old)) codes.old }
{
    handset::proved_take_log(small, text, picture, frame, ticks, edges, codes)
}

// A second passes.
#[unsafe(no_mangle)]
pub extern "C" fn proved_second<'a>(
    small: Small,
    text: &'a Text,
    picture: &'a Picture,
    frame: &'a FrameBytes,
) -> ProvedAfter
    ensures same { result ≡ passed_in (passed (together small text.now picture.now frame.now)) }
{
    handset::proved_second(small, text, picture, frame)
}

// A second passes, on a backlight alone.
#[unsafe(no_mangle)]
pub extern "C" fn proved_light_second(light: Backlight) -> ProvedLight
    ensures same { result ≡ light_in (light_passed light) }
{
    handset::proved_light_second(light)
}

// The hook: `on` is whether it is on-hook now.
#[unsafe(no_mangle)]
pub extern "C" fn proved_hook<'a>(
    small: Small,
    text: &'a Text,
    picture: &'a Picture,
    frame: &'a FrameBytes,
    on: bool,
) -> ProvedAfter
    ensures same { result ≡ hooked_in (hooked (together small text.now picture.now frame.now) on) }
{
    handset::proved_hook(small, text, picture, frame, on)
}

// How much room the answers to these bytes can need.
#[unsafe(no_mangle)]
pub extern "C" fn proved_room_needed<'a>(
    small: Small,
    text: &'a Text,
    picture: &'a Picture,
    frame: &'a FrameBytes,
    bytes: &'a [u8],
) -> ProvedCount
    ensures same { result ≡ counted_in (room_needed (together small text.now picture.now frame.now) bytes.now) }
{
    handset::proved_room_needed(small, text, picture, frame, bytes)
}

// What would become of a frame if it came now.
#[unsafe(no_mangle)]
pub extern "C" fn proved_judge_in<'a>(
    small: Small,
    text: &'a Text,
    picture: &'a Picture,
    frame: &'a FrameBytes,
    bytes: &'a [u8],
) -> ProvedJudged
    ensures same { result ≡ judged_of (together small text.now picture.now frame.now) bytes.now }
{
    handset::proved_judge_in(small, text, picture, frame, bytes)
}

#[unsafe(no_mangle)]
pub extern "C" fn proved_sms_seen<'a>(
    small: Small,
    text: &'a Text,
    picture: &'a Picture,
    frame: &'a FrameBytes,
    phase: u8,
) -> ProvedPanel
    ensures same { result ≡ sms_in (sms_seen (together small text.now picture.now frame.now) (phase_of phase)) }
{
    handset::proved_sms_seen(small, text, picture, frame, phase)
}

#[unsafe(no_mangle)]
pub extern "C" fn proved_volume_seen<'a>(
    small: Small,
    text: &'a Text,
    picture: &'a Picture,
    frame: &'a FrameBytes,
) -> ProvedPanel
    ensures same { result ≡ volume_in (volume_seen (together small text.now picture.now frame.now)) }
{
    handset::proved_volume_seen(small, text, picture, frame)
}

#[unsafe(no_mangle)]
pub extern "C" fn proved_row_seen<'a>(
    small: Small,
    text: &'a Text,
    picture: &'a Picture,
    frame: &'a FrameBytes,
    row: u8,
    phase: u8,
) -> ProvedRow
    ensures same { result ≡ row_in (row_seen (together small text.now picture.now frame.now) row (phase_of phase)) }
{
    handset::proved_row_seen(small, text, picture, frame, row, phase)
}

#[unsafe(no_mangle)]
pub extern "C" fn proved_column_seen<'a>(
    small: Small,
    text: &'a Text,
    picture: &'a Picture,
    frame: &'a FrameBytes,
    row: u8,
    column: u8,
    phase: u8,
) -> ProvedColumn
    ensures same { result ≡ column_in (column_seen (together small text.now picture.now frame.now) row column (phase_of phase)) }
{
    handset::proved_column_seen(small, text, picture, frame, row, column, phase)
}

// A kind of command that is not known is a command out of range.
#[unsafe(no_mangle)]
pub extern "C" fn proved_write_command(kind: u8, a: u16, b: u16, room: &mut [u8]) -> ProvedCount
    ensures same { result ≡ command_written kind a b room.old }
    ensures left { room.new ≡ command_room kind a b room.old }
{
    handset::proved_write_command(kind, a, b, room)
}

// In the sister's spelling: a command of her own, or one that both editions have.
#[unsafe(no_mangle)]
pub extern "C" fn proved_write_sister_command(
    kind: u8,
    a: u16,
    b: u16,
    room: &mut [u8],
) -> ProvedCount
    ensures same { result ≡ sister_written kind a b room.old }
    ensures left { room.new ≡ sister_room kind a b room.old }
{
    handset::proved_write_sister_command(kind, a, b, room)
}

#[unsafe(no_mangle)]
pub extern "C" fn proved_write_label(side: u8, codes: &[u8], room: &mut [u8]) -> ProvedCount
    ensures same { result ≡ written_in (written_of (is_label codes.now) (frame_of (spelling (label (side_of side) codes.now))) room.old) }
    ensures left { room.new ≡ room_after (is_label codes.now) (frame_of (spelling (label (side_of side) codes.now))) room.old }
{
    handset::proved_write_label(side, codes, room)
}

#[unsafe(no_mangle)]
pub extern "C" fn proved_write_picture_row(row: u8, columns: &[u8], room: &mut [u8]) -> ProvedCount
    ensures same { result ≡ written_in (written_of (is_row row columns.now) (frame_of (spelling (draw row columns.now))) room.old) }
    ensures left { room.new ≡ room_after (is_row row columns.now) (frame_of (spelling (draw row columns.now))) room.old }
{
    handset::proved_write_picture_row(row, columns, room)
}

// What becomes of a frame, all between ESC and CR, in a text mode.
#[unsafe(no_mangle)]
pub extern "C" fn proved_judge(mode: u8, frame: &[u8]) -> ProvedVerdict
    ensures same { result ≡ judged_in (verdict_of mode frame.now) }
{
    handset::proved_judge(mode, frame)
}

// Whether a collector's stream keeps the rules of the choice screen.
#[unsafe(no_mangle)]
pub extern "C" fn proved_check_choice(bytes: &[u8]) -> ProvedChoice
    ensures same { result ≡ choice_in (choice_of bytes.now) }
{
    handset::proved_check_choice(bytes)
}

// The part of a stream that stands at a place.
#[unsafe(no_mangle)]
pub extern "C" fn proved_part_at(bytes: &[u8], place: usize) -> HandsetPart
    ensures same { result ≡ part_in place (part_at bytes.now place) }
{
    handset::proved_part_at(bytes, place)
}

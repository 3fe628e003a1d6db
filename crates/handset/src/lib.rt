// The proved calls behind include/handset.h: door/handset.c takes what a program in C lends, makes one of these calls, and stores what
// it hands back. Each hands on a library's call. A record crosses in parts: what is small by value, its three arrays lent. How a
// call ended crosses by `record::paper_number`, every other enum by the tables of `handset_numbers`.
#![tactic(auto)]

ghost use Rattle.std.specs.Prelude.{◌≡◌, length};
ghost use Rattle.record.specs.PowerOn.{power_on, former_power_on, sister_power_on};
ghost use Rattle.record.specs.Range.{in_range};
ghost use Rattle.record.specs.Parts.{together, small_of};
ghost use Rattle.stream.specs.Stream.{fed_of, answers_after};
ghost use Rattle.key_log.specs.Log.{outcome, handed_back, buffer_after};
ghost use Rattle.seconds.specs.Seconds.{passed, light_passed};
ghost use Rattle.parts.specs.Parts.{part_at};
ghost use Rattle.hook.specs.Hook.{hooked};
ghost use Rattle.seen.specs.Rows.{no_bar, no_label, nothing_seen, row_seen, sms_seen, volume_seen};
ghost use Rattle.seen.specs.Columns.{no_place, column_seen};
ghost use Rattle.answer_room.specs.Needed.{room_needed};
ghost use Rattle.writer_ranges.specs.Fitting.{is_label, is_row};
ghost use Rattle.command.specs.Order.{label, draw};
ghost use Rattle.command.specs.Spell.{spelling};
ghost use Rattle.writer.specs.Writing.{frame_of, room_after, written_of};
ghost use Rattle.verdict.specs.Verdict.{verdict_of};
ghost use Rattle.choice.specs.Choice.{choice_of};
ghost use Rattle.handset_numbers.specs.Numbers.{phase_of, side_of};
ghost use Rattle.handset.specs.Calls.{fed_with, after_with, count_with, fed_in, logged_in, passed_in, hooked_in, counted_in, written_in, judged_in, choice_in, part_in, light_in, sms_with, sms_in, volume_with, volume_in, bar_in, row_with, row_in, column_with, column_in, command_written, command_room, is_own_kind, own_written, own_room, sister_written, sister_room, judged_with, judged_of};

use handset_numbers::Numbered;
use record::{
    Backlight, FrameBytes, InParts, Label, Number, Picture, Record, Refusal, Small, Text,
};
use seconds::LightPassed;
use seen::{Bar, ColumnSeen, Labels, Owner, Row, Shown, SmsPanel, VolumePanel};
use verdict::Verdict;

// The last kind of command.
const LAST_COMMAND: u8 = 32;

// The first and the last kind of the sister's own.
const FIRST_OWN: u8 = 64;

const LAST_OWN: u8 = 96;

// What C is told where no rule is broken, and where no part stands.
const NO_RULE: usize = 0;

const NO_PART: u8 = 0;

// How a stream call or a key log ended: the paper's number, the record without its arrays, how many bytes or entries were used, how many
// answer bytes or key codes were written.
#[repr(C)]
#[derive(Clone, Copy)]
pub struct ProvedFed {
    pub number: u8,
    pub small: Small,
    pub used: usize,
    pub written: usize,
}

// How a second or the hook call ended.
#[repr(C)]
#[derive(Clone, Copy)]
pub struct ProvedAfter {
    pub number: u8,
    pub small: Small,
}

// How a second in place ended.
#[repr(C)]
#[derive(Clone, Copy)]
pub struct ProvedLight {
    pub number: u8,
    pub light: Backlight,
}

// How a writer or the count of room ended. Both are as wide, so that compilers for all processors hand the pair back alike.
#[repr(C)]
#[derive(Clone, Copy)]
pub struct ProvedCount {
    pub number: usize,
    pub count: usize,
}

// verdict: 0 bad, 1 passed over, 2 obeyed; value: the first number that is out of range of one that is passed over, else 0.
#[repr(C)]
#[derive(Clone, Copy)]
pub struct ProvedVerdict {
    pub verdict: u8,
    pub value: u16,
}

// What becomes of a frame on a record; number_out is 0 unless it is passed over.
#[repr(C)]
#[derive(Clone, Copy)]
pub struct HandsetVerdict {
    pub verdict: u8,
    pub number_out: u16,
}

#[repr(C)]
#[derive(Clone, Copy)]
pub struct ProvedJudged {
    pub number: u8,
    pub judged: HandsetVerdict,
}

// rule: 0 for yes, else the rule that is broken first, 1 to 4, and the offset where.
#[repr(C)]
#[derive(Clone, Copy)]
pub struct ProvedChoice {
    pub rule: usize,
    pub offset: usize,
}

// The part of a stream that stands at a place, and where its end and its body lie.
#[repr(C)]
#[derive(Clone, Copy)]
pub struct HandsetPart {
    pub kind: u8,
    pub end: usize,
    pub body: usize,
    pub body_end: usize,
}

// A panel of the icon bar; level is 0 where there is none.
#[repr(C)]
#[derive(Clone, Copy)]
pub struct HandsetPanel {
    pub panel: u8,
    pub level: u8,
}

#[repr(C)]
#[derive(Clone, Copy)]
pub struct ProvedPanel {
    pub number: u8,
    pub seen: HandsetPanel,
}

// The icon bar.
#[repr(C)]
#[derive(Clone, Copy)]
pub struct HandsetBar {
    pub f: u8,
    pub p: u8,
    pub r: u8,
    pub sms: u8,
    pub volume: u8,
    pub level: u8,
}

// What a row shows: owner and the row, or half of the large line, of the owner; all that it does not use is zero.
#[repr(C)]
#[derive(Clone, Copy)]
pub struct HandsetRow {
    pub owner: u8,
    pub place: u8,
    pub inverse: bool,
    pub codes: [u8; 16],
    pub columns: [u8; 96],
    pub bar: HandsetBar,
    pub left: Label,
    pub right: Label,
    pub w: u8,
}

#[repr(C)]
#[derive(Clone, Copy)]
pub struct ProvedRow {
    pub number: u8,
    pub seen: HandsetRow,
}

// What a place shows.
#[repr(C)]
#[derive(Clone, Copy)]
pub struct HandsetColumn {
    pub owner: u8,
    pub place: u8,
    pub shown: u8,
    pub value: u8,
    pub inverse: bool,
    pub bar: HandsetBar,
}

#[repr(C)]
#[derive(Clone, Copy)]
pub struct ProvedColumn {
    pub number: u8,
    pub seen: HandsetColumn,
}

// How a call ended, by the paper's number.

fn fed_with(number: Number, small: Small, used: usize, written: usize) -> ProvedFed
    ensures same { result ≡ fed_with number small used written }
{
    ProvedFed {
        number: record::paper_number(number),
        small: small,
        used: used,
        written: written,
    }
}

fn after_with(ended: Number, after: Small) -> ProvedAfter
    ensures same { result ≡ after_with ended after }
{
    ProvedAfter {
        number: record::paper_number(ended),
        small: after,
    }
}

fn count_with(counted: Number, count: usize) -> ProvedCount
    ensures same { result ≡ count_with counted count }
{
    ProvedCount {
        number: record::paper_number(counted) as usize,
        count: count,
    }
}

// A count, or its refusal's number and 0.
fn counted_in(counted: Result<usize, Refusal>) -> ProvedCount
    ensures same { result ≡ counted_in counted }
{
    match counted {
        Ok(count) => count_with(Number::Done, count),
        Err(refusal) => count_with(refusal.into(), 0),
    }
}

// Power-on.

// Puts a record's arrays where they are lent, and hands back the rest.
fn put_apart(r: Record, text: &mut Text, picture: &mut Picture, frame: &mut FrameBytes) -> Small
    ensures same { result ≡ small_of r }
    ensures text { text.new ≡ r.text }
    ensures picture { picture.new ≡ r.picture }
    ensures frame { frame.new ≡ r.frame.bytes }
{
    // By locals: the check refuses an array field that is stored straight.
    let codes = r.text;
    let columns = r.picture;
    let bytes = r.frame.bytes;
    *text = codes;
    *picture = columns;
    *frame = bytes;
    record::small_of(r)
}

// The record of this edition.
pub fn proved_power_on(text: &mut Text, picture: &mut Picture, frame: &mut FrameBytes) -> Small
    ensures same { result ≡ small_of power_on }
    ensures text { text.new ≡ power_on.text }
    ensures picture { picture.new ≡ power_on.picture }
    ensures frame { frame.new ≡ power_on.frame.bytes }
{
    put_apart(Record::power_on(), text, picture, frame)
}

// The same with the former defaults of the key times.
pub fn proved_power_on_former(
    text: &mut Text,
    picture: &mut Picture,
    frame: &mut FrameBytes,
) -> Small
    ensures same { result ≡ small_of former_power_on }
    ensures text { text.new ≡ former_power_on.text }
    ensures picture { picture.new ≡ former_power_on.picture }
    ensures frame { frame.new ≡ former_power_on.frame.bytes }
{
    put_apart(Record::former_defaults(), text, picture, frame)
}

// The sister's.
pub fn proved_sister_power_on(
    text: &mut Text,
    picture: &mut Picture,
    frame: &mut FrameBytes,
) -> Small
    ensures same { result ≡ small_of sister_power_on }
    ensures text { text.new ≡ sister_power_on.text }
    ensures picture { picture.new ≡ sister_power_on.picture }
    ensures frame { frame.new ≡ sister_power_on.frame.bytes }
{
    put_apart(Record::sister_power_on(), text, picture, frame)
}

// Calls on the record in parts.

pub fn proved_in_range<'a>(
    small: Small,
    text: &'a Text,
    picture: &'a Picture,
    frame: &'a FrameBytes,
) -> bool
    ensures same { result ≡ in_range (together small text.now picture.now frame.now) }
{
    record_ranges::in_range_lent(InParts {
        small,
        text,
        picture,
        frame,
    })
}

// Bytes from the cord.
pub fn proved_feed(
    small: Small,
    text: &mut Text,
    picture: &mut Picture,
    frame: &mut FrameBytes,
    bytes: &[u8],
    answers: &mut [u8],
) -> ProvedFed
    ensures same { result ≡ fed_in (fed_of (together small text.old picture.old frame.old) bytes.now (length answers.old)) }
    ensures text { text.new ≡ (fed_of (together small text.old picture.old frame.old) bytes.now (length answers.old)).record.text }
    ensures picture { picture.new ≡ (fed_of (together small text.old picture.old frame.old) bytes.now (length answers.old)).record.picture }
    ensures frame { frame.new ≡ (fed_of (together small text.old picture.old frame.old) bytes.now (length answers.old)).record.frame.bytes }
    ensures buffer { answers.new ≡ answers_after (together small text.old picture.old frame.old) bytes.now answers.old }
{
    let f = stream::feed_lent(small, text, picture, frame, bytes, answers);
    fed_with(f.number, f.small, f.used, f.written)
}

// Keys: a tick and an edge for each entry.
pub fn proved_take_log<'a>(
    small: Small,
    text: &'a Text,
    picture: &'a Picture,
    frame: &'a FrameBytes,
    ticks: &'a [u16],
    edges: &'a [u8],
    codes: &mut [u8],
) -> ProvedFed
    ensures same { result ≡ logged_in (handed_back (outcome (together small text.now picture.now frame.now) ticks.now edges.now (length codes.old))) }
    ensures buffer { codes.new ≡ buffer_after (outcome (together small text.now picture.now frame.now) ticks.now edges.now (length codes.old)) codes.old }
{
    let parts = InParts {
        small,
        text,
        picture,
        frame,
    };
    let l = key_log::take_log_lent(parts, ticks, edges, codes);
    fed_with(l.number, l.record, l.used, l.written)
}

// A second passes.
pub fn proved_second<'a>(
    small: Small,
    text: &'a Text,
    picture: &'a Picture,
    frame: &'a FrameBytes,
) -> ProvedAfter
    ensures same { result ≡ passed_in (passed (together small text.now picture.now frame.now)) }
{
    let q = seconds::second_lent(InParts {
        small,
        text,
        picture,
        frame,
    });
    after_with(q.number, q.after)
}

// The entry in place, on a copy.
fn second_of(b: Backlight) -> LightPassed
    ensures { result ≡ light_passed b }
{
    let mut lent = b;
    let number = seconds::second_in_place(&mut lent);
    LightPassed {
        number,
        backlight: lent,
    }
}

// A second passes, on a backlight alone.
pub fn proved_light_second(light: Backlight) -> ProvedLight
    ensures same { result ≡ light_in (light_passed light) }
{
    let q = second_of(light);
    ProvedLight {
        number: record::paper_number(q.number),
        light: q.backlight,
    }
}

// The hook: `on` is whether it is on-hook now.
pub fn proved_hook<'a>(
    small: Small,
    text: &'a Text,
    picture: &'a Picture,
    frame: &'a FrameBytes,
    on: bool,
) -> ProvedAfter
    ensures same { result ≡ hooked_in (hooked (together small text.now picture.now frame.now) on) }
{
    let parts = InParts {
        small,
        text,
        picture,
        frame,
    };
    let q = hook::hook_lent(parts, on);
    after_with(q.number, q.after)
}

// How much room the answers to these bytes can need.
pub fn proved_room_needed<'a>(
    small: Small,
    text: &'a Text,
    picture: &'a Picture,
    frame: &'a FrameBytes,
    bytes: &'a [u8],
) -> ProvedCount
    ensures same { result ≡ counted_in (room_needed (together small text.now picture.now frame.now) bytes.now) }
{
    let parts = InParts {
        small,
        text,
        picture,
        frame,
    };
    counted_in(answer_room::room_needed_lent(parts, bytes))
}

fn judged_with(ended: Number, v: Verdict) -> ProvedJudged
    ensures same { result ≡ judged_with ended v }
{
    let told = handset_numbers::verdict_numbers(v);
    ProvedJudged {
        number: record::paper_number(ended),
        judged: HandsetVerdict {
            verdict: told.0,
            number_out: told.1,
        },
    }
}

// What would become of a frame if it came now.
pub fn proved_judge_in<'a>(
    small: Small,
    text: &'a Text,
    picture: &'a Picture,
    frame: &'a FrameBytes,
    bytes: &'a [u8],
) -> ProvedJudged
    ensures same { result ≡ judged_of (together small text.now picture.now frame.now) bytes.now }
{
    let parts = InParts {
        small,
        text,
        picture,
        frame,
    };
    if record_ranges::in_range_lent(parts) {
        let v = verdict::judge_in(small.settings, small.edition, bytes);
        return judged_with(Number::Done, v);
    }
    judged_with(Number::FieldOutOfRange, Verdict::Bad)
}

// What is seen. phase 0 is lit, any other the pause of a flashing icon.

fn sms_with(n: Number, panel: SmsPanel) -> ProvedPanel
    ensures same { result ≡ sms_with n panel }
{
    ProvedPanel {
        number: record::paper_number(n),
        seen: HandsetPanel {
            panel: handset_numbers::sms_number(panel),
            level: 0,
        },
    }
}

fn sms_in(seen: Result<SmsPanel, Refusal>) -> ProvedPanel
    ensures same { result ≡ sms_in seen }
{
    match seen {
        Ok(panel) => sms_with(Number::Done, panel),
        Err(refusal) => sms_with(refusal.into(), SmsPanel::Nothing),
    }
}

pub fn proved_sms_seen<'a>(
    small: Small,
    text: &'a Text,
    picture: &'a Picture,
    frame: &'a FrameBytes,
    phase: u8,
) -> ProvedPanel
    ensures same { result ≡ sms_in (sms_seen (together small text.now picture.now frame.now) (phase_of phase)) }
{
    let parts = InParts {
        small,
        text,
        picture,
        frame,
    };
    sms_in(seen::sms_seen_lent(parts, handset_numbers::phase_of(phase)))
}

fn volume_with(n: Number, panel: VolumePanel) -> ProvedPanel
    ensures same { result ≡ volume_with n panel }
{
    let Numbered(panel, level) = handset_numbers::volume_numbers(panel);
    ProvedPanel {
        number: record::paper_number(n),
        seen: HandsetPanel { panel, level },
    }
}

fn volume_in(seen: Result<VolumePanel, Refusal>) -> ProvedPanel
    ensures same { result ≡ volume_in seen }
{
    match seen {
        Ok(panel) => volume_with(Number::Done, panel),
        Err(refusal) => volume_with(refusal.into(), VolumePanel::Nothing),
    }
}

pub fn proved_volume_seen<'a>(
    small: Small,
    text: &'a Text,
    picture: &'a Picture,
    frame: &'a FrameBytes,
) -> ProvedPanel
    ensures same { result ≡ volume_in (volume_seen (together small text.now picture.now frame.now)) }
{
    volume_in(seen::volume_seen_lent(InParts {
        small,
        text,
        picture,
        frame,
    }))
}

fn bar_in(bar: Bar) -> HandsetBar
    ensures same { result ≡ bar_in bar }
{
    let Numbered(volume, level) = handset_numbers::volume_numbers(bar.volume);
    HandsetBar {
        f: bar.f,
        p: bar.p,
        r: bar.r,
        sms: handset_numbers::sms_number(bar.sms),
        volume,
        level,
    }
}

fn row_with(n: Number, row: Row) -> ProvedRow
    ensures same { result ≡ row_with n row }
{
    let Numbered(owner, place) = handset_numbers::owner_numbers(row.owner);
    // Locals: the check refuses an array field that goes straight into a literal.
    let codes = row.codes;
    let columns = row.columns;
    ProvedRow {
        number: record::paper_number(n),
        seen: HandsetRow {
            owner,
            place,
            inverse: row.inverse,
            codes,
            columns,
            bar: bar_in(row.bar),
            left: row.labels.left,
            right: row.labels.right,
            w: row.labels.w,
        },
    }
}

// Where a question is refused C gets zeros.
fn no_bar() -> Bar
    ensures { result ≡ no_bar }
{
    Bar {
        f: 0,
        p: 0,
        r: 0,
        sms: SmsPanel::Nothing,
        volume: VolumePanel::Nothing,
    }
}

fn no_label() -> Label
    ensures { result ≡ no_label }
{
    Label {
        len: 0,
        codes: [0u8; 7],
    }
}

#[tactic(auto, unfolding(seen::specs::Rows::no_columns))]
fn nothing_seen() -> Row
    ensures { result ≡ nothing_seen }
{
    Row {
        owner: Owner::Nothing,
        codes: [0u8; 16],
        columns: [0u8; 96],
        bar: no_bar(),
        labels: Labels {
            left: no_label(),
            right: no_label(),
            w: 0,
        },
        inverse: false,
    }
}

fn row_in(seen: Result<Row, Refusal>) -> ProvedRow
    ensures same { result ≡ row_in seen }
{
    match seen {
        Ok(row) => row_with(Number::Done, row),
        Err(refusal) => row_with(refusal.into(), nothing_seen()),
    }
}

pub fn proved_row_seen<'a>(
    small: Small,
    text: &'a Text,
    picture: &'a Picture,
    frame: &'a FrameBytes,
    row: u8,
    phase: u8,
) -> ProvedRow
    ensures same { result ≡ row_in (row_seen (together small text.now picture.now frame.now) row (phase_of phase)) }
{
    let parts = InParts {
        small,
        text,
        picture,
        frame,
    };
    let phase = handset_numbers::phase_of(phase);
    row_in(seen::row_seen_lent(parts, row, phase))
}

fn column_with(n: Number, c: ColumnSeen) -> ProvedColumn
    ensures same { result ≡ column_with n c }
{
    let Numbered(owner, place) = handset_numbers::owner_numbers(c.owner);
    let Numbered(shown, value) = handset_numbers::shown_numbers(c.shown);
    ProvedColumn {
        number: record::paper_number(n),
        seen: HandsetColumn {
            owner,
            place,
            shown,
            value,
            inverse: c.inverse,
            bar: bar_in(c.bar),
        },
    }
}

fn no_place() -> ColumnSeen
    ensures { result ≡ no_place }
{
    ColumnSeen {
        owner: Owner::Nothing,
        shown: Shown::Nothing,
        bar: no_bar(),
        inverse: false,
    }
}

fn column_in(seen: Result<ColumnSeen, Refusal>) -> ProvedColumn
    ensures same { result ≡ column_in seen }
{
    match seen {
        Ok(column) => column_with(Number::Done, column),
        Err(refusal) => column_with(refusal.into(), no_place()),
    }
}

pub fn proved_column_seen<'a>(
    small: Small,
    text: &'a Text,
    picture: &'a Picture,
    frame: &'a FrameBytes,
    row: u8,
    column: u8,
    phase: u8,
) -> ProvedColumn
    ensures same { result ≡ column_in (column_seen (together small text.now picture.now frame.now) row column (phase_of phase)) }
{
    let parts = InParts {
        small,
        text,
        picture,
        frame,
    };
    let phase = handset_numbers::phase_of(phase);
    column_in(seen::column_seen_lent(parts, row, column, phase))
}

// Writers.

// A kind of command that is not known is a command out of range.
pub fn proved_write_command(kind: u8, a: u16, b: u16, room: &mut [u8]) -> ProvedCount
    ensures same { result ≡ command_written kind a b room.old }
    ensures left { room.new ≡ command_room kind a b room.old }
{
    if LAST_COMMAND < kind {
        return counted_in(Err(Refusal::CommandOutOfRange));
    }
    counted_in(writer::write_command(handset_numbers::command_of(kind, a, b), room))
}

fn is_own_kind(kind: u8) -> bool
    ensures same { result ≡ is_own_kind kind }
{
    (FIRST_OWN <= kind) & (kind <= LAST_OWN)
}

fn write_own_kind(kind: u8, a: u16, b: u16, room: &mut [u8]) -> ProvedCount
    ensures same { result ≡ own_written kind a b room.old }
    ensures left { room.new ≡ own_room kind a b room.old }
{
    if is_own_kind(kind) {
        return counted_in(writer::write_own(handset_numbers::sister_command_of(kind, a, b), room));
    }
    counted_in(Err(Refusal::CommandOutOfRange))
}

// In the sister's spelling: a command of her own, or one that both editions have.
pub fn proved_write_sister_command(kind: u8, a: u16, b: u16, room: &mut [u8]) -> ProvedCount
    ensures same { result ≡ sister_written kind a b room.old }
    ensures left { room.new ≡ sister_room kind a b room.old }
{
    if LAST_COMMAND < kind {
        return write_own_kind(kind, a, b, room);
    }
    counted_in(writer::write_shared(handset_numbers::command_of(kind, a, b), room))
}

pub fn proved_write_label(side: u8, codes: &[u8], room: &mut [u8]) -> ProvedCount
    ensures same { result ≡ written_in (written_of (is_label codes.now) (frame_of (spelling (label (side_of side) codes.now))) room.old) }
    ensures left { room.new ≡ room_after (is_label codes.now) (frame_of (spelling (label (side_of side) codes.now))) room.old }
{
    counted_in(writer::write_label(handset_numbers::side_of(side), codes, room))
}

pub fn proved_write_picture_row(row: u8, columns: &[u8], room: &mut [u8]) -> ProvedCount
    ensures same { result ≡ written_in (written_of (is_row row columns.now) (frame_of (spelling (draw row columns.now))) room.old) }
    ensures left { room.new ≡ room_after (is_row row columns.now) (frame_of (spelling (draw row columns.now))) room.old }
{
    counted_in(writer::write_picture_row(row, columns, room))
}

// Questions about a stream.

// What becomes of a frame, all between ESC and CR, in a text mode.
pub fn proved_judge(mode: u8, frame: &[u8]) -> ProvedVerdict
    ensures same { result ≡ judged_in (verdict_of mode frame.now) }
{
    let v = handset_numbers::verdict_numbers(verdict::judge(mode, frame));
    ProvedVerdict {
        verdict: v.0,
        value: v.1,
    }
}

// Whether a collector's stream keeps the rules of the choice screen.
pub fn proved_check_choice(bytes: &[u8]) -> ProvedChoice
    ensures same { result ≡ choice_in (choice_of bytes.now) }
{
    match choice::check(bytes) {
        Ok(()) => ProvedChoice {
            rule: NO_RULE,
            offset: 0,
        },
        Err(broken) => ProvedChoice {
            rule: handset_numbers::rule_number(broken.rule) as usize,
            offset: broken.offset,
        },
    }
}

// The part of a stream that stands at a place. Where there is none, all three places are the one that was asked for.
pub fn proved_part_at(bytes: &[u8], place: usize) -> HandsetPart
    ensures same { result ≡ part_in place (part_at bytes.now place) }
{
    match parts::part_at(bytes, place) {
        None => HandsetPart {
            kind: NO_PART,
            end: place,
            body: place,
            body_end: place,
        },
        Some(part) => HandsetPart {
            kind: handset_numbers::kind_number(part.kind),
            end: part.end,
            body: part.body,
            body_end: part.body_end,
        },
    }
}

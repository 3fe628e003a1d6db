// What a person sees: the owner and the contents of each display row and of each column of it, and the two panels of the icon bar.
// The definitions are document 01's "What is seen", in specs/ and, for owners and panels, in the crates `seen_owners` and `seen_panels`. The cursor is no part of
// what is told, but the column says how many codes the large line has. Each question is asked of a record whose arrays are lent, so that
// asking copies none of them; by value it lends those of its record.
#![tactic(auto)]

ghost use Rattle.std.specs.Prelude.{◌≡◌, true, false, List, ℕ, ◌+◌, ◌≤◌, ◌<◌, length, get_or};
ghost use Rattle.lists.specs.Padded.{padded};
ghost use Rattle.std.proofs.Math.Seq.{slice};
ghost use Rattle.record.specs.Range.{line_of};
ghost use Rattle.record.specs.Parts.{whole};
ghost use Rattle.seen_owners.specs.Table.{last_column, placed};
ghost use Rattle.seen.specs.Line.{codes_in, small_in, small_cells, big_cells};
ghost use Rattle.seen.specs.Columns.{soft_key_at, shown_at, bar_at, inverse_at, column_seen};
ghost use Rattle.seen.specs.Rows.{Showing, row_of, around_rocker, bar_of, labels_of, no_columns, no_bar, nothing_seen, contents, settings_in_range, row_seen, sms_seen, volume_seen};

use lists::BLANK;
use record::{InParts, LAST_ROW, Label, Picture, Record, Refusal, Settings, Text};
use record_ranges::in_range_lent;
pub use seen_owners::Owner;
use seen_owners::{LAST_COLUMN, RIGHT_LABEL, ROCKER, owner_of, owner_of_row};
pub use seen_panels::{Phase, SmsPanel, VolumePanel};
use seen_panels::{sms_panel, volume_panel};

// So many columns has a character, and a big one.
const CELL: u8 = 6;

const BIG_CELL: u8 = 12;

// The big codes of the large line, and where the line begins in the text.
const BIG_CODES: u8 = 8;

const LINE: usize = 80;

// What stands at a place: a code, a picture's column, icon W; a cell past a label's length is 0. The icon bar is told whole.
#[derive(Clone, Copy)]
pub enum Shown {
    Nothing,
    Bar,
    Code(u8),
    Column(u8),
    LeftLabel(u8),
    Rocker(u8),
    RightLabel(u8),
}

// The icon bar: icons F, P and R, and the two panels.
#[derive(Clone, Copy)]
pub struct Bar {
    pub f: u8,
    pub p: u8,
    pub r: u8,
    pub sms: SmsPanel,
    pub volume: VolumePanel,
}

// The soft keys' row: both labels and icon W.
#[derive(Clone, Copy)]
pub struct Labels {
    pub left: Label,
    pub right: Label,
    pub w: u8,
}

// What the row question tells: codes for a text row and for the large line, whose big codes are eight, columns for a picture row,
// bar for the icon bar, labels for the soft keys. A picture with the rocker has zero in the rocker's columns, and icon W in labels.
// What the owner does not use is zero. inverse is whether it is a text row that has the inverse mark.
#[derive(Clone, Copy)]
pub struct Row {
    pub owner: Owner,
    pub codes: [u8; 16],
    pub columns: [u8; 96],
    pub bar: Bar,
    pub labels: Labels,
    pub inverse: bool,
}

// What the column question tells: bar for the icon bar, inverse as its row has it.
#[derive(Clone, Copy)]
pub struct ColumnSeen {
    pub owner: Owner,
    pub shown: Shown,
    pub bar: Bar,
    pub inverse: bool,
}

// The settings of a record in range.
fn settings_in_range(parts: InParts<'_>) -> Result<Settings, Refusal>
    ensures { result ≡ settings_in_range (whole parts.entry) }
{
    if in_range_lent(parts) {
        Ok(parts.small.settings)
    } else {
        Err(Refusal::FieldOutOfRange)
    }
}

// The SMS panel goes by the phase; a bad record is refused.
#[tactic(auto, unfolding(crate::specs::Rows::sms_seen))]
pub fn sms_seen_lent(parts: InParts<'_>, phase: Phase) -> Result<SmsPanel, Refusal>
    ensures same { result ≡ sms_seen (whole parts.entry) phase }
{
    let icons = settings_in_range(parts)?.icons;
    Ok(sms_panel(icons, phase))
}

// The same of a record.
pub fn sms_seen(r: Record, phase: Phase) -> Result<SmsPanel, Refusal>
    ensures same { result ≡ sms_seen r phase }
{
    sms_seen_lent(r.in_parts(), phase)
}

#[tactic(auto, unfolding(crate::specs::Rows::volume_seen))]
pub fn volume_seen_lent(parts: InParts<'_>) -> Result<VolumePanel, Refusal>
    ensures same { result ≡ volume_seen (whole parts.entry) }
{
    let volume = settings_in_range(parts)?.volume;
    Ok(volume_panel(volume))
}

// The same of a record.
pub fn volume_seen(r: Record) -> Result<VolumePanel, Refusal>
    ensures same { result ≡ volume_seen r }
{
    volume_seen_lent(r.in_parts())
}

// Fills `to` with what stands in `cells` from place `at` on.
fn fill(to: &mut [u8], cells: &[u8], at: usize)
    requires { at + length to.old ≤ length cells.now }
    ensures { to.new ≡ slice at (at + length to.old) cells.now }
{
    to.copy_from_slice(&cells[at..at + to.len()]);
}

fn text_row(text: &Text, n: u8) -> [u8; 16]
    requires { n < 5 }
    ensures { result ≡ row_of 16 text.now n }
{
    let mut codes = [0u8; 16];
    fill(&mut codes, text, 16 * n as usize);
    codes
}

// Whether text row n has the inverse mark.
fn mark_of(p: Settings, n: u8) -> bool
    requires { n < 5 }
    ensures { result ≡ get_or p.inverse n false }
{
    p.inverse[n as usize]
}

fn picture_row(picture: &Picture, n: u8) -> [u8; 96]
    requires { n < 7 }
    ensures { result ≡ row_of 96 picture.now n }
{
    let mut columns = [0u8; 96];
    fill(&mut columns, picture, 96 * n as usize);
    columns
}

// A picture row with zero in the columns of the rocker panel.
fn picture_around_rocker(picture: &Picture, n: u8) -> [u8; 96]
    requires { n < 7 }
    ensures { result ≡ around_rocker (row_of 96 picture.now n) }
{
    let mut columns = picture_row(picture, n);
    columns[ROCKER as usize..RIGHT_LABEL as usize].fill(0);
    columns
}

// How many codes the large line has: those before the column, and those up to the last that is not blank.
fn codes_in(text: &[u8], column: u8) -> u8
    requires { length text.now ≡ 104 }
    ensures { result ≡ codes_in column (line_of text.now) }
{
    // A loop still: with `rposition` it was left to show that the code found is not blank, and that all behind it are.
    let mut i: u8 = 24;
    while column < i {
        if text[LINE + i as usize - 1] != BLANK {
            return i;
        }
        i -= 1;
    }
    column
}

// How many of them are small: all but the last eight.
fn small_count(text: &Text, column: u8) -> u8
    ensures { result ≡ small_in column (line_of text.now) }
{
    codes_in(text, column).saturating_sub(BIG_CODES)
}

// From here on the text is read as a slice: of a slice a proof knows the length, of a lent array it does not.
fn small_line(text: &Text, column: u8) -> [u8; 16]
    requires { column ≤ 24 }
    ensures { result ≡ small_cells column (line_of text.now) }
{
    let cells = &text[..];
    let mut codes = [BLANK; 16];
    let small = small_count(text, column) as usize;
    fill(&mut codes[..small], cells, LINE);
    codes
}

fn big_line(text: &Text, column: u8) -> [u8; 16]
    requires { column ≤ 24 }
    ensures { result ≡ padded 16 (big_cells column (line_of text.now)) }
{
    let cells = &text[..];
    let mut codes = [0u8; 16];
    let small = small_count(text, column) as usize;
    fill(&mut codes[..BIG_CODES as usize], cells, LINE + small);
    codes
}

#[tactic(auto, unfolding(crate::specs::Rows::no_columns))]
fn no_columns() -> [u8; 96]
    ensures { result ≡ no_columns }
{
    [0u8; 96]
}

fn no_bar() -> Bar
    ensures { result ≡ no_bar }
{
    Bar {
        f: 0,
        p: 0,
        r: 0,
        sms: SmsPanel::Nothing,
        volume: VolumePanel::Nothing,
    }
}

fn nothing_seen() -> Row
    ensures { result ≡ nothing_seen }
{
    Row {
        owner: Owner::Nothing,
        codes: [0u8; 16],
        columns: no_columns(),
        bar: no_bar(),
        labels: Labels {
            left: Label {
                len: 0,
                codes: [0u8; 7],
            },
            right: Label {
                len: 0,
                codes: [0u8; 7],
            },
            w: 0,
        },
        inverse: false,
    }
}

fn bar_of(p: Settings, phase: Phase) -> Bar
    ensures { result ≡ bar_of p phase }
{
    Bar {
        f: p.icons.f,
        p: p.icons.p,
        r: p.icons.r,
        sms: sms_panel(p.icons, phase),
        volume: volume_panel(p.volume),
    }
}

fn labels_of(p: Settings) -> Labels
    ensures { result ≡ labels_of p }
{
    Labels {
        left: p.left,
        right: p.right,
        w: p.icons.w,
    }
}

#[tactic(auto, unfolding(crate::specs::Rows::contents))]
fn contents_of(parts: InParts<'_>, phase: Phase, owner: Owner) -> Row
    requires { (placed owner ≡ true) × (parts.small.settings.screen.column ≤ 24) }
    ensures { result ≡ contents (whole parts.entry) phase owner }
{
    let settings = parts.small.settings;
    let empty = Row {
        owner,
        ..nothing_seen()
    };
    match owner {
        Owner::Nothing => empty,
        Owner::IconBar => Row {
            bar: bar_of(settings, phase),
            ..empty
        },
        Owner::TextRow(n) => Row {
            codes: text_row(parts.text, n),
            inverse: mark_of(settings, n),
            ..empty
        },
        Owner::PictureRow(n) => Row {
            columns: picture_row(parts.picture, n),
            ..empty
        },
        Owner::SoftKeys => Row {
            labels: labels_of(settings),
            ..empty
        },
        Owner::SmallLine => Row {
            codes: small_line(parts.text, settings.screen.column),
            ..empty
        },
        Owner::BigLine(_) => Row {
            codes: big_line(parts.text, settings.screen.column),
            ..empty
        },
        Owner::PictureWithRocker(n) => Row {
            columns: picture_around_rocker(parts.picture, n),
            labels: Labels {
                w: settings.icons.w,
                ..empty.labels
            },
            ..empty
        },
    }
}

// Row 0 is the top one. A row above the last is refused, a bad record before it. The icon bar has the SMS panel, which goes by the phase.
#[tactic(auto, unfolding(crate::specs::Rows::row_seen))]
pub fn row_seen_lent(parts: InParts<'_>, row: u8, phase: Phase) -> Result<Row, Refusal>
    ensures same { result ≡ row_seen (whole parts.entry) row phase }
{
    if !in_range_lent(parts) {
        return Err(Refusal::FieldOutOfRange);
    }
    if LAST_ROW < row {
        return Err(Refusal::NotListed);
    }
    let owner = owner_of_row(parts.small.settings.screen, row);
    Ok(contents_of(parts, phase, owner))
}

// The same of a record.
pub fn row_seen(r: Record, row: u8, phase: Phase) -> Result<Row, Refusal>
    ensures same { result ≡ row_seen r row phase }
{
    row_seen_lent(r.in_parts(), row, phase)
}

#[tactic(auto, unfolding(crate::specs::Columns::soft_key_at))]
fn soft_key_at(labels: Labels, column: u8) -> Shown
    requires { column ≤ last_column }
    ensures { result ≡ soft_key_at labels column }
{
    if column < ROCKER {
        Shown::LeftLabel(labels.left.codes[(column / CELL) as usize])
    } else if column < RIGHT_LABEL {
        Shown::Rocker(labels.w)
    } else {
        Shown::RightLabel(labels.right.codes[((column - RIGHT_LABEL) / CELL) as usize])
    }
}

// Cell `cell` of the small codes of the large line.
fn small_cell(text: &Text, column: u8, cell: u8) -> u8
    requires { (column ≤ 24) × (cell < 16) }
    ensures { result ≡ get_or (small_cells column (line_of text.now)) cell 0 }
{
    let cells = &text[..];
    if cell < small_count(text, column) {
        cells[LINE + cell as usize]
    } else {
        BLANK
    }
}

// Cell `cell` of the big ones.
fn big_cell(text: &Text, column: u8, cell: u8) -> u8
    requires { (column ≤ 24) × (cell < 8) }
    ensures { result ≡ get_or (big_cells column (line_of text.now)) cell 0 }
{
    let cells = &text[..];
    let small = small_count(text, column) as usize;
    cells[LINE + small + cell as usize]
}

#[tactic(auto, unfolding(crate::specs::Columns::shown_at))]
fn shown_at(parts: InParts<'_>, column: u8, owner: Owner) -> Shown
    requires { (placed owner ≡ true) × (parts.small.settings.screen.column ≤ 24) × (column ≤ last_column) }
    ensures { result ≡ shown_at (whole parts.entry) column owner }
{
    let (text, picture) = (parts.text, parts.picture);
    let settings = parts.small.settings;
    let end = settings.screen.column;
    match owner {
        Owner::Nothing => Shown::Nothing,
        Owner::IconBar => Shown::Bar,
        Owner::TextRow(n) => Shown::Code(text[16 * n as usize + (column / CELL) as usize]),
        Owner::PictureRow(n) => Shown::Column(picture[96 * n as usize + column as usize]),
        Owner::SoftKeys => soft_key_at(labels_of(settings), column),
        Owner::SmallLine => Shown::Code(small_cell(text, end, column / CELL)),
        Owner::BigLine(_) => Shown::Code(big_cell(text, end, column / BIG_CELL)),
        Owner::PictureWithRocker(_) => Shown::Nothing,
    }
}

fn bar_at_place(p: Settings, phase: Phase, owner: Owner) -> Bar
    ensures { (text picture : List ℕ) → Showing p text picture (λ r. result ≡ bar_at r phase owner) }
{
    match owner {
        Owner::IconBar => bar_of(p, phase),
        _ => no_bar(),
    }
}

fn inverse_at(p: Settings, owner: Owner) -> bool
    requires { placed owner ≡ true }
    ensures { (text picture : List ℕ) → Showing p text picture (λ r. result ≡ inverse_at r owner) }
{
    match owner {
        Owner::TextRow(n) => mark_of(p, n),
        _ => false,
    }
}

// Row 0 is the top one, column 0 the left one. A row or a column above the last is refused, a bad record before it.
#[tactic(auto, unfolding(crate::specs::Columns::column_seen))]
pub fn column_seen_lent(
    parts: InParts<'_>,
    row: u8,
    column: u8,
    phase: Phase,
) -> Result<ColumnSeen, Refusal>
    ensures same { result ≡ column_seen (whole parts.entry) row column phase }
{
    if !in_range_lent(parts) {
        return Err(Refusal::FieldOutOfRange);
    }
    if LAST_ROW < row || LAST_COLUMN < column {
        return Err(Refusal::NotListed);
    }
    let settings = parts.small.settings;
    let owner = owner_of(settings.screen, row, column);
    Ok(ColumnSeen {
        owner,
        shown: shown_at(parts, column, owner),
        bar: bar_at_place(settings, phase, owner),
        inverse: inverse_at(settings, owner),
    })
}

// The same of a record.
pub fn column_seen(r: Record, row: u8, column: u8, phase: Phase) -> Result<ColumnSeen, Refusal>
    ensures same { result ≡ column_seen r row column phase }
{
    column_seen_lent(r.in_parts(), row, column, phase)
}

// The writers, for those who build collectors: a command of either edition, a label or a picture row becomes the bytes of its frame.
// Labels and picture rows are the same in both.
// A frame is built once, in a line of its own, and copied once into the lent room; a writer hands back how many bytes it wrote. A frame
// that is out of range or finds no room leaves the room as it was.
#![tactic(auto)]

ghost use Rattle.std.specs.Prelude.{◌≡◌, true, [], ◌∷◌, ◌++◌, ◌+◌, ◌≤◌, length};
ghost use Rattle.lists.specs.Codes.{escape, carriage_return, line_feed};
ghost use Rattle.line.specs.Lines.{held, empty_line};
ghost use Rattle.line.specs.Laws.{Added};
ghost use Rattle.picture.specs.Writing.{encode};
ghost use Rattle.command.specs.Order.{plain, label, draw};
ghost use Rattle.command.specs.InRange.{command_in_range, most_rows};
ghost use Rattle.command.specs.Spell.{spell, spelling};
ghost use Rattle.sister_command.specs.Order.{first, own};
ghost use Rattle.sister_command.specs.Grammar.{sister_form};
ghost use Rattle.sister_command.specs.InRange.{own_in_range};
ghost use Rattle.writer_ranges.specs.Fitting.{is_label, is_row};
ghost use Rattle.writer.specs.Writing.{frame_of, shared_in_range, written_of, room_after};

use command::{Command, Side};
use command_form::{body, in_range};
use line::{Line, add, copy, empty};
use lists::{CARRIAGE_RETURN, ESCAPE, LINE_FEED};
use picture_writer::write_data;
use record::Refusal;
use sister_command::SisterCommand;
use sister_form::{is_shared, own_body, own_in_range, shared_body};
use writer_ranges::{label_in_range, row_in_range};

// A writer knows no text mode: it takes the cursor rows and marks of the mode that has most.
const MOST_ROWS: u8 = 5;

// A line that holds ESC.
fn opened() -> Line
    ensures { Added empty_line (escape ∷ []) 1 result × (result.len ≡ 1) }
{
    add(empty(), &[ESCAPE])
}

// The body of a label's frame.
fn add_label(line: Line, side: Side, codes: &[u8]) -> Line
    requires { (line.len ≤ 1) × (length codes.now ≤ 7) }
    ensures { Added line (spelling (label side codes.now)) 10 result }
{
    match side {
        Side::Left => add(add(line, b"IK1"), codes),
        Side::Right => add(add(line, b"IK2"), codes),
    }
}

// The data of picture columns.
fn add_data(line: Line, columns: &[u8]) -> Line
    requires { length columns.now ≤ 96 }
    ensures { Added line (encode columns.now) 192 result }
{
    let data = write_data(columns);
    let len = data.len as usize;
    let bytes = data.bytes;
    add(line, &bytes[..len])
}

// The body of a picture row's frame.
fn add_row(line: Line, row: u8, columns: &[u8]) -> Line
    requires { (line.len ≤ 1) × (row ≤ 6) × (length columns.now ≤ 96) }
    ensures { Added line (spelling (draw row columns.now)) 197 result }
{
    add(
        add_data(add(line, &[b'G', b'r', b'0' + row, b',']), columns),
        b"z",
    )
}

// A line with its CR LF into the room, where there is room for all of it.
fn deliver(line: Line, room: &mut [u8]) -> Result<usize, Refusal>
    requires { line.len + 2 ≤ 200 }
    ensures same { result ≡ written_of true (held line ++ carriage_return ∷ line_feed ∷ []) room.old }
    ensures left { room.new ≡ room_after true (held line ++ carriage_return ∷ line_feed ∷ []) room.old }
{
    let frame = add(line, &[CARRIAGE_RETURN, LINE_FEED]);
    if copy(frame, room) {
        Ok(frame.len)
    } else {
        Err(Refusal::NoRoom)
    }
}

// The frame of a command whose body stands in a line of its own, if it is in range.
fn deliver_body(good: bool, body: Line, room: &mut [u8]) -> Result<usize, Refusal>
    requires { good ≡ true → body.len ≤ 197 }
    ensures same { result ≡ written_of good (frame_of (held body)) room.old }
    ensures left { room.new ≡ room_after good (frame_of (held body)) room.old }
{
    if good {
        deliver(add(opened(), &body.bytes[..body.len]), room)
    } else {
        Err(Refusal::CommandOutOfRange)
    }
}

// The frame of a command.
pub fn write_command(c: Command, room: &mut [u8]) -> Result<usize, Refusal>
    ensures same { result ≡ written_of (command_in_range most_rows c) (frame_of (spelling (plain c))) room.old }
    ensures left { room.new ≡ room_after (command_in_range most_rows c) (frame_of (spelling (plain c))) room.old }
{
    deliver_body(in_range(c, MOST_ROWS), body(c), room)
}

// The sister's frame of a command of her own.
pub fn write_own(c: SisterCommand, room: &mut [u8]) -> Result<usize, Refusal>
    ensures same { result ≡ written_of (own_in_range c) (frame_of (spell (sister_form (own c)))) room.old }
    ensures left { room.new ≡ room_after (own_in_range c) (frame_of (spell (sister_form (own c)))) room.old }
{
    deliver_body(own_in_range(c), own_body(c), room)
}

// The sister's frame of a command that she shares with the first edition; one that she has not is out of range.
pub fn write_shared(c: Command, room: &mut [u8]) -> Result<usize, Refusal>
    ensures same { result ≡ written_of (shared_in_range c) (frame_of (spell (sister_form (first (plain c))))) room.old }
    ensures left { room.new ≡ room_after (shared_in_range c) (frame_of (spell (sister_form (first (plain c))))) room.old }
{
    deliver_body(is_shared(c) & in_range(c, MOST_ROWS), shared_body(c), room)
}

// The frame of a soft-key label.
pub fn write_label(side: Side, codes: &[u8], room: &mut [u8]) -> Result<usize, Refusal>
    ensures same { result ≡ written_of (is_label codes.now) (frame_of (spelling (label side codes.now))) room.old }
    ensures left { room.new ≡ room_after (is_label codes.now) (frame_of (spelling (label side codes.now))) room.old }
{
    if label_in_range(codes) {
        deliver(add_label(opened(), side, codes), room)
    } else {
        Err(Refusal::CommandOutOfRange)
    }
}

// The frame of a picture row, from its first column on.
pub fn write_picture_row(row: u8, columns: &[u8], room: &mut [u8]) -> Result<usize, Refusal>
    ensures same { result ≡ written_of (is_row row columns.now) (frame_of (spelling (draw row columns.now))) room.old }
    ensures left { room.new ≡ room_after (is_row row columns.now) (frame_of (spelling (draw row columns.now))) room.old }
{
    if row_in_range(row, columns) {
        deliver(add_row(opened(), row, columns), room)
    } else {
        Err(Refusal::CommandOutOfRange)
    }
}

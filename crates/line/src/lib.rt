// A small line of codes: a frame or an answer is built in it, codes behind codes, and then copied into a room, whole or not at all.
// What finds no room leaves all as it was, so nothing is asked of a caller.
#![tactic(auto)]

ghost use Rattle.std.specs.Prelude.{◌≡◌, ◌+◌, ◌≤◌, length};
ghost use Rattle.std.proofs.lemmas.List.Edits.{sets};
ghost use Rattle.numeral.specs.Numeral.{decimal};
ghost use Rattle.line.specs.Lines.{empty_line, added, finds_room, room_with};

use numeral::digits_of;

// The longest that is built is a picture row's frame: ESC, Gr, the row, a comma, 192 codes, z, CR LF.
pub const MOST_CODES: usize = 200;

// The codes that a line holds are the first `len` of its places.
#[derive(Clone, Copy)]
pub struct Line {
    pub len: usize,
    pub bytes: [u8; MOST_CODES],
}

// A line that holds nothing.
pub fn empty() -> Line
    ensures same { result ≡ empty_line }
{
    Line {
        len: 0,
        bytes: [0u8; MOST_CODES],
    }
}

// Codes into a room from a place on. By a loop and not by `copy_from_slice`: with that the two writers of commands went 3,040 and 3,670
// bytes deep into the stack.
fn store(room: &mut [u8], at: usize, codes: &[u8])
    requires { at + length codes.now ≤ length room.old }
    ensures { room.new ≡ sets room.old at codes.now }
{
    let mut i = 0;
    while i < codes.len() {
        room[at + i] = codes[i];
        i += 1;
    }
}

// More codes behind those that a line holds.
pub fn add(line: Line, codes: &[u8]) -> Line
    ensures same { result ≡ added line codes.now }
{
    let start = line.len;
    let n = codes.len();
    if MOST_CODES < start {
        return line;
    }
    if MOST_CODES - start < n {
        return line;
    }
    let mut bytes = line.bytes;
    store(&mut bytes, start, codes);
    Line {
        len: start + n,
        bytes,
    }
}

// A number behind them, without leading zeros.
pub fn add_number(line: Line, n: u16) -> Line
    ensures same { result ≡ added line (decimal n) }
{
    let digits = digits_of(n);
    let len = digits.len as usize;
    let bytes = digits.bytes;
    add(line, &bytes[..len])
}

// What a line holds to the front of a room; whether all of it found room there.
pub fn copy(line: Line, room: &mut [u8]) -> bool
    ensures same { result ≡ finds_room line room.old }
    ensures left { room.new ≡ room_with line room.old }
{
    let n = line.len;
    let bytes = line.bytes;
    if (n <= MOST_CODES) & (n <= room.len()) {
        store(room, 0, &bytes[..n]);
        return true;
    }
    false
}

// The data of a picture frame, read as columns. The crate encoding writes it, by the definitions here.
// An item is two digits 0-9 A-F, one column, or a letter a to y before them, 2 to 26 equal columns; the top dot is the lowest bit.
#![tactic(auto)]

ghost use Rattle.std.specs.Prelude.{◌≡◌, ◌<◌, ◌≤◌, IfSome, length};
ghost use Rattle.picture.specs.Reading.{hex_of, pair_of, first_of, columns_read};

// A picture row holds so many columns.
pub const MOST_COLUMNS: usize = 96;

// The columns that data draws, the places past `len` zero. There is no heap: so it is an array with its length, as `Data` is.
#[derive(Clone, Copy)]
pub struct Columns {
    pub len: u8,
    pub bytes: [u8; 96],
}

// The data that columns are written with, the places past `len` zero.
#[derive(Clone, Copy)]
pub struct Data {
    pub len: u8,
    pub bytes: [u8; 192],
}

// The item that data begins with: so many equal columns, their value, and how many codes it takes.
#[derive(Clone, Copy)]
struct Item {
    count: usize,
    column: u8,
    width: usize,
}

// The value of a digit 0-9 or A-F.
#[tactic(auto, unfolding(crate::specs::Reading::hex_of))]
fn hex_value(c: u8) -> Option<u8>
    ensures same { result ≡ hex_of c }
    ensures small { IfSome result (λ x. x < 16) }
{
    match c {
        b'0'..=b'9' => Some(c - b'0'),
        b'A'..=b'F' => Some(c - b'A' + 10),
        _ => None,
    }
}

// Two digits as an item.
#[tactic(auto, unfolding(crate::specs::Reading::pair_of))]
fn pair(count: usize, a: u8, b: u8, width: usize) -> Option<Item>
    ensures same { result ≡ pair_of count a b width }
    ensures whole { IfSome result (λ item. item.width ≡ width) }
{
    let column = hex_value(a)? * 16 + hex_value(b)?;
    Some(Item {
        count,
        column,
        width,
    })
}

// The item that a slice begins with: a letter a to y stands for 2 to 26 columns.
#[tactic(auto, unfolding(crate::specs::Reading::first_of, crate::specs::Reading::times_of))]
fn first_item(s: &[u8]) -> Option<Item>
    ensures same { result ≡ first_of s.now }
    ensures fits { IfSome result (λ item. (1 ≤ item.width) × (item.width ≤ length s.now)) }
{
    match *s {
        [letter @ b'a'..=b'y', a, b, ..] => pair((letter - b'a') as usize + 2, a, b, 3),
        [a, b, ..] => pair(1, a, b, 2),
        _ => None,
    }
}

// The columns that a slice draws as data. In line in any case, so that who only asks whether it draws something spares the drawing: a
// choice screen with pictures took a third more instructions else.
#[inline(always)]
pub fn read_data(d: &[u8]) -> Option<Columns>
    ensures same { result ≡ columns_read d.now }
{
    let mut bytes = [0; MOST_COLUMNS];
    let mut used = 0;
    let mut rest = d;
    while !rest.is_empty() {
        let item = first_item(rest)?;
        if MOST_COLUMNS - used < item.count {
            return None;
        }
        bytes[used..used + item.count].fill(item.column);
        used += item.count;
        rest = &rest[item.width..];
    }
    (0 < used).then_some(Columns {
        len: used as u8,
        bytes,
    })
}

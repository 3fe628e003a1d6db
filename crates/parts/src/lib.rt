// The part of a stream that stands at a place: what it is, where it ends, where a frame's body lies. What there is to tell is the
// parting's, in specs/Parts.antt; that all the parts, told one after the other, are the parting is in specs/Laws.antt.
#![tactic(auto)]

ghost use Rattle.std.specs.Prelude.{◌≡◌, [], ◌+◌, ◌<◌, length, drop, Some};
ghost use Rattle.std.specs.List.{position_or_len};
ghost use Rattle.parting.specs.Cut.{inside, cut};
ghost use Rattle.parts.specs.Parts.{ends_body, first_part, part_at};

use lists::{BLANK, CARRIAGE_RETURN, ESCAPE};

// What stands at a place: a part, or the unfinished tail.
#[derive(Clone, Copy)]
pub enum Kind {
    Text,
    Skipped,
    Closed,
    Abandoned,
    Tail,
}

// The next part begins at `end`. The bytes from `body` up to `body_end` are those behind the first, without the CR that closes a
// frame: of a frame and of the tail they are the body, of a text or skipped byte there are none.
#[derive(Clone, Copy)]
pub struct PartAt {
    pub kind: Kind,
    pub end: usize,
    pub body: usize,
    pub body_end: usize,
}

// How many bytes of a frame's body there are: those before the first ESC or CR, or all.
fn body_length(behind: &[u8]) -> usize
    ensures { result ≡ position_or_len ends_body behind.now }
{
    behind
        .iter()
        .take_while(|b| !matches!(**b, ESCAPE | CARRIAGE_RETURN))
        .count()
}

// A frame, or the tail, whose ESC stands at this place.
fn frame_at(bytes: &[u8], place: usize) -> PartAt
    requires { place < length bytes.now }
    ensures { Some result ≡ first_part place (cut (inside []) (drop (place + 1) bytes.now)) }
{
    let body = place + 1;
    let body_end = body + body_length(&bytes[body..]);
    let (kind, end) = match bytes.get(body_end) {
        None => (Kind::Tail, body_end),
        Some(&ESCAPE) => (Kind::Abandoned, body_end),
        Some(_) => (Kind::Closed, body_end + 1),
    };
    PartAt {
        kind,
        end,
        body,
        body_end,
    }
}

// It looks at the part's own bytes and, of an abandoned frame, at the ESC behind it. At the stream's end and past it there is none.
pub fn part_at(bytes: &[u8], place: usize) -> Option<PartAt>
    ensures same { result ≡ part_at bytes.now place }
{
    let first = *bytes.get(place)?;
    if first == ESCAPE {
        return Some(frame_at(bytes, place));
    }
    let kind = if first < BLANK {
        Kind::Skipped
    } else {
        Kind::Text
    };
    let end = place + 1;
    Some(PartAt {
        kind,
        end,
        body: end,
        body_end: end,
    })
}

// How much room for answers a stream call can need, told before it is made: by the ESC bytes that are offered and the frame that is
// open, each a mark of the record's edition. It holds where no frame is a question.
#![tactic(auto)]

ghost use Rattle.std.specs.Prelude.{◌≡◌};
ghost use Rattle.record.specs.Parts.{whole};
ghost use Rattle.parting.specs.Count.{escapes};
ghost use Rattle.answer_room.specs.Needed.{room_for, room_needed};

use lists::ESCAPE;
use record::{InParts, NO_FRAME, Record, Refusal};
use record_ranges::in_range_lent;

// The sister's mark is '?' CR LF.
const SISTER_MARK: usize = 3;

// How many ESC bytes there are: what comes in pieces is counted in pieces.
pub fn escapes_in(bytes: &[u8]) -> usize
    ensures same { result ≡ escapes bytes.now }
{
    // By a loop, which becomes vector code: `filter` and `count` took 1.6 to 2.5 times the instructions of each byte.
    let mut n = 0;
    for &b in bytes {
        if b == ESCAPE {
            n += 1;
        }
    }
    n
}

// The room for so many marks. The sister's stops at its type's end rather than run over.
fn room_for(sister: bool, marks: usize) -> usize
    ensures same { result ≡ room_for sister marks }
{
    if sister {
        marks.saturating_mul(SISTER_MARK)
    } else {
        marks
    }
}

// The room that a call on this record and these bytes can need; a record with a field out of range is refused. The arrays are only
// lent to be judged.
#[tactic(auto, unfolding(crate::specs::Needed::room_needed))]
pub fn room_needed_lent(parts: InParts<'_>, bytes: &[u8]) -> Result<usize, Refusal>
    ensures same { result ≡ room_needed (whole parts.entry) bytes.now }
{
    if !in_range_lent(parts) {
        return Err(Refusal::FieldOutOfRange);
    }
    let mut marks = escapes_in(bytes);
    if parts.small.state != NO_FRAME {
        marks += 1;
    }
    Ok(room_for(parts.small.edition.sister, marks))
}

// The same on a record by value.
pub fn room_needed(r: Record, bytes: &[u8]) -> Result<usize, Refusal>
    ensures same { result ≡ room_needed r bytes.now }
{
    room_needed_lent(r.in_parts(), bytes)
}

// Reads a stream from an input to its end and feeds it to a handset, in pieces, as a cord would bring it.
// What an input brings can't be promised; but there are bytes of which the record handed back is the reading.
#![tactic(auto)]

ghost use Rattle.std.specs.Prelude.{◌≡◌, true, false, List, ℕ};
ghost use Rattle.record.specs.Range.{in_range};
ghost use Rattle.picture.specs.Data.{Bytes};
ghost use Rattle.stream_input.specs.Heard.{capped, record_after, replies_to, call_of, counted, heard_after, Hears};

use record::Record;
use std::io::Read;
use stream::Fed;

// Any room does that takes the longest answer, the sister's version of 31 bytes.
const ROOM: usize = 64;

// The record after the stream, how many answers there were, and whether the input failed before its end.
#[derive(Clone, Copy)]
pub struct Heard {
    pub record: Record,
    pub replies: u64,
    pub failed: bool,
}

// What a call handed back, and how many answers it wrote.
#[derive(Clone, Copy)]
struct Call {
    fed: Fed,
    replies: usize,
}

// A call with a buffer of its own for the answers, which are counted in it.
fn one_call(r: Record, bytes: &[u8]) -> Call
    ensures { result ≡ call_of r bytes.now 64 }
{
    let mut answers = [0u8; ROOM];
    let fed = stream_by_value::feed(r, bytes, &mut answers);
    let replies = answer::count(&answers[..fed.written]);
    Call { fed, replies }
}

// The count stops at its type's end rather than run over.
fn more(heard: Heard, after: Record, answered: usize) -> Heard
    ensures { result ≡ counted heard after answered }
{
    Heard {
        record: after,
        replies: heard.replies.saturating_add(answered as u64),
        failed: heard.failed,
    }
}

// One piece of the stream, in as many calls as its answers need. Only a record out of range uses nothing, and it is handed back.
fn hear_piece(heard: Heard, piece: &[u8]) -> Heard
    ensures value { in_range heard.record ≡ true → result ≡ heard_after heard piece.now }
    ensures value_2 { in_range heard.record ≡ false → result ≡ heard }
    ensures bytes { Bytes piece.now }
{
    let mut now = heard;
    let mut at = 0;
    while at < piece.len() {
        let call = one_call(now.record, &piece[at..]);
        if call.fed.used == 0 {
            return now;
        }
        now = more(now, call.fed.record, call.replies);
        at += call.fed.used;
    }
    now
}

// What one reading of the input brought.
#[derive(Clone, Copy)]
struct Turn {
    heard: Heard,
    ended: bool,
    failed: bool,
}

fn hear_once<R: Read>(input: &mut R, heard: Heard) -> Turn
    ensures { Hears heard result.heard }
{
    let mut buffer = [0u8; 4096];
    match input.read(&mut buffer) {
        Ok(n) => Turn {
            heard: hear_piece(heard, &buffer[..n]),
            ended: n == 0,
            failed: false,
        },
        Err(_) => Turn {
            heard,
            ended: true,
            failed: true,
        },
    }
}

// Reads an input to its end, or to where it fails, from this record.
pub fn hear<R: Read>(input: &mut R, r: Record) -> Heard
    ensures heard { in_range r ≡ true → (bytes : List ℕ) × Bytes bytes × (result.record ≡ record_after r bytes) × (result.replies ≡ capped (replies_to r bytes)) }
    ensures refused { in_range r ≡ false → (result.record ≡ r) × (result.replies ≡ 0) }
{
    let mut heard = Heard {
        record: r,
        replies: 0,
        failed: false,
    };
    for _ in 0..u64::MAX {
        let turn = hear_once(input, heard);
        heard = turn.heard;
        if turn.ended {
            heard.failed = turn.failed;
            break;
        }
    }
    heard
}

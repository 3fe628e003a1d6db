// The stream call on a record by value: it lends the record's arrays to `stream` and puts the record together again.
#![tactic(auto)]

ghost use Rattle.std.specs.Prelude.{◌≡◌, length};
ghost use Rattle.record.specs.Parts.{together};
ghost use Rattle.stream.specs.Stream.{fed_of, answers_after};

use record::{Frame, FrameBytes, Picture, Record, Small, Text};
use stream::Fed;

// The record put together of its small fields and its arrays.
pub fn whole(small: Small, text: Text, picture: Picture, frame: FrameBytes) -> Record
    ensures same { result ≡ together small text picture frame }
{
    let settings = small.settings;
    let held = small.held;
    let edition = small.edition;
    Record {
        settings: settings,
        text: text,
        picture: picture,
        held: held,
        frame: Frame {
            state: small.state,
            len: small.len,
            bytes: frame,
        },
        edition: edition,
    }
}

// The stream call, for any record at all.
pub fn feed(r: Record, bytes: &[u8], answers: &mut [u8]) -> Fed
    ensures same { result ≡ fed_of r bytes.now (length answers.old) }
    ensures buffer { answers.new ≡ answers_after r bytes.now answers.old }
{
    let settings = r.settings;
    let mut text = r.text;
    let mut picture = r.picture;
    let held = r.held;
    let kept = r.frame;
    let edition = r.edition;
    let mut frame = kept.bytes;
    let small = Small {
        settings: settings,
        held: held,
        state: kept.state,
        len: kept.len,
        edition: edition,
    };
    let f = stream::feed_lent(small, &mut text, &mut picture, &mut frame, bytes, answers);
    let number = f.number;
    let after = f.small;
    Fed {
        number: number,
        record: whole(after, text, picture, frame),
        used: f.used,
        written: f.written,
    }
}

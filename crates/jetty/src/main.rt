// The worst day, replayed. A screen says "Mine" over the left key; the frame that makes it "Older" comes down the cord in two
// pieces, cut at every place in turn. For each cut it prints the label between the two calls and after them. The verdict is
// computed from the labels that were shown.
#![tactic(auto)]

ghost use Rattle.std.specs.Prelude.{◌≤◌, length};

use program::Host;
use record::{Label, Record};
use stream::Fed;

fn say(host: &Host, words: &[u8]) {
    program::write(host, b"jetty", words);
}

fn say_label(host: &Host, label: &Label) {
    say(host, b"[");
    for code in label.codes.iter().take(label.len as usize) {
        say(host, &[*code]);
    }
    say(host, b"]");
}

fn say_number(host: &Host, n: usize) {
    if n < 10 {
        say(host, b" ");
    }
    program::write_number(host, b"jetty", n as u64);
}

// One call, with room for every answer that these frames can get.
fn send(r: Record, bytes: &[u8]) -> Fed {
    let mut answers = [0; 8];
    stream_by_value::feed(r, bytes, &mut answers)
}

fn same_label(a: &Label, b: &Label) -> bool {
    a.len == b.len && a.codes == b.codes
}

// The left label that one cut showed between the two calls, and after them.
#[derive(Clone, Copy)]
struct Cut {
    between: Label,
    after: Label,
}

impl Cut {
    // Whether no label other than the old or the new one stood between, and the new one stood after.
    fn is_good(&self, old: &Label, new: &Label) -> bool {
        (same_label(&self.between, old) || same_label(&self.between, new))
            && same_label(&self.after, new)
    }
}

fn cut_at(start: Record, frame: &[u8], k: usize) -> Cut
    requires { k ≤ length frame.now }
{
    let (first, second) = frame.split_at(k);
    let half = send(start, first).record;
    let whole = send(half, second).record;
    Cut {
        between: half.settings.left,
        after: whole.settings.left,
    }
}

fn say_cut(host: &Host, k: usize, cut: &Cut) {
    say(host, b"cut after ");
    say_number(host, k);
    say(host, b" bytes: between ");
    say_label(host, &cut.between);
    say(host, b", after ");
    say_label(host, &cut.after);
    say(host, b"\n");
}

fn replay(host: &Host, start: Record, frame: &[u8], old: &Label, new: &Label) {
    let mut good = true;
    for k in 0..frame.len() {
        let cut = cut_at(start, frame, k);
        say_cut(host, k, &cut);
        good &= cut.is_good(old, new);
    }
    if good {
        say(
            host,
            b"verdict: no cut shows a label other than the old or the new one, and every cut ends in the new one\n",
        );
    } else {
        say(
            host,
            b"verdict: WRONG, a cut shows another label or does not end in the new one\n",
        );
    }
}

fn show(host: &Host) {
    let start = send(Record::power_on(), b"\x1BIK1Mine\r\n").record;
    let frame = b"\x1BIK1Older\r\n";
    let old = start.settings.left;
    let new = send(start, frame).record.settings.left;
    say(host, b"old label ");
    say_label(host, &old);
    say(host, b", new label ");
    say_label(host, &new);
    say(host, b"\n");
    replay(host, start, frame, &old, &new);
    let long = send(start, b"\x1BIK1Keep mine\r\n");
    say(
        host,
        b"Keep mine has nine codes and is no label: question marks",
    );
    say_number(host, long.written);
    say(host, b", label still ");
    say_label(host, &long.record.settings.left);
    say(host, b"\n");
}

fn main(rt: HostRuntime) {
    let host = Host::new(rt);
    if program::accepts(
        &host,
        b"jetty",
        b"usage: ./run jetty\n\
        Replays the day that led to the letter: a label's frame is cut at every place into two calls.\n",
        b"",
        false,
    ) {
        show(&host);
    }
}

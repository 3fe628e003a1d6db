// Reads a stream from a file or from standard input and prints how much room its answers need at most, from the power-on record:
// there no frame is open, so it is a byte for each ESC. Of an input that fails nothing is printed: what came before is not the
// stream.
#![tactic(auto)]

use program::{Host, Input, Unreadable};

fn say(host: &Host, room: u64) {
    program::write(host, b"count_room", b"ROOM ");
    program::write_number(host, b"count_room", room);
    program::write(host, b"count_room", b"\n");
}

// Nothing says that the input ends, so its pieces are counted. The room stops at its type's end rather than run over.
fn count(host: &Host, input: &mut Input) -> Result<u64, Unreadable> {
    let mut piece = [0u8; 4096];
    let mut room: u64 = 0;
    for _ in 0..u64::MAX {
        let n = program::read_piece(host, b"count_room", input, &mut piece)?;
        if n == 0 {
            break;
        }
        room = room.saturating_add(answer_room::escapes_in(&piece[..n]) as u64);
    }
    Ok(room)
}

fn accepted(host: &Host) -> bool {
    program::accepts(
        host,
        b"count_room",
        b"usage: ./run count_room [FILE]\n\
        Reads a stream from FILE, or from standard input without one, and prints ROOM and how many bytes its answers are at most.\n\
        That is from the power-on record, in one call or in many, if no frame is a question (IA, IH, &V).\n",
        b"",
        true,
    )
}

fn main(rt: HostRuntime) {
    let host = Host::new(rt);
    if accepted(&host) {
        if let Some(mut input) = program::open_input(&host, b"count_room") {
            if let Ok(room) = count(&host, &mut input) {
                say(&host, room);
            }
        }
    }
}

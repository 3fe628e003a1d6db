// Walks a frame through the table of the frames that carry numbers, state by state, so that it can be told on the telephone:
//
//   ./run walk_frame IP05
//
// A line has a byte of the frame, its class, and the state to which it leads. The last lines say whether the frame is good and, where it
// is not, what could have stood there. Each line asks the proved reader how far the bytes up to here lead. With --table the table itself
// is printed, as it stands in docs/RULES.md.
#![tactic(auto)]

use command::{CLASSES, FIRST_GOOD, NEXT_STATES, STATES};
use program::Host;

const LAST_CLASS: u8 = 16;

// The state in which a frame begins, and the one that refuses.
const START: u8 = 1;

const REFUSED: u8 = 0;

// The tables hold letters: @ is 0, A is 1 and so on.
const NONE: u8 = b'@';

const LETTERS: u8 = 64;

fn say(host: &Host, words: &[u8]) {
    program::write(host, b"walk_frame", words);
}

fn say_code(host: &Host, code: u8) {
    say(host, &[program::printable(code)]);
}

fn say_letter(host: &Host, n: u8) {
    say_code(host, n % LETTERS + NONE);
    say(host, b"  ");
}

// Names. RULES.md has the same.

fn say_state(host: &Host, state: u8) {
    say_letter(host, state);
    program::write_entry(
        host,
        b"walk_frame",
        b"refused\n\
        start\n\
        after I\n\
        after &\n\
        after [\n\
        after ID\n\
        after IE\n\
        after IK: 0, or 1 or 2, which opens a label\n\
        after IT: Time1\n\
        a number\n\
        Time1, up to two digits more\n\
        Time1, up to one digit more\n\
        Time1 is whole\n\
        row, up to two digits more\n\
        row, up to one digit more\n\
        row is whole\n\
        column\n\
        column, up to two digits more\n\
        column, up to one digit more\n\
        column is whole\n\
        after IA: a number or the end\n\
        up to two digits more, or the end\n\
        up to one digit more, or the end\n\
        the end\n",
        state,
    );
    say(host, b"\n");
}

fn say_class(host: &Host, class: u8) {
    program::write_entry(
        host,
        b"walk_frame",
        b"any other byte\n\
        0\n\
        1 to 9\n\
        ;\n\
        I\n\
        &\n\
        [\n\
        A\n\
        D\n\
        E\n\
        H\n\
        K\n\
        T\n\
        R or S\n\
        C, V or #\n\
        e or r\n\
        B, F, J, L, M, P, U, W or Z\n",
        class,
    );
    say(host, b"\n");
}

// The table.

fn next_of(class: u8, state: u8) -> u8 {
    let i = class as usize * STATES as usize + state as usize;
    NEXT_STATES
        .get(i)
        .map_or(REFUSED, |letter| letter % LETTERS)
}

fn say_row(host: &Host, class: u8) {
    say_letter(host, class);
    for state in 0..STATES {
        say_code(host, next_of(class, state) % LETTERS + NONE);
    }
    say(host, b"  ");
    say_class(host, class);
}

fn say_states(host: &Host) {
    for state in 0..STATES {
        say_state(host, state);
    }
}

// The states' letters, above their columns.
fn say_columns(host: &Host) {
    for state in 0..STATES {
        say_code(host, state % LETTERS + NONE);
    }
}

fn say_rows(host: &Host) {
    for class in 0..=LAST_CLASS {
        say_row(host, class);
    }
}

fn say_table(host: &Host) {
    say(host, b"States; a frame may end in those from T on\n");
    say_states(host);
    say(host, b"\nClasses, and the next state from each state\n   ");
    say_columns(host);
    say(host, b"\n");
    say_rows(host);
}

// The walk.

fn state_behind(frame: &[u8]) -> u8 {
    let found = frame_table::run(&CLASSES, &NEXT_STATES, STATES, frame);
    (found.state % LETTERS as usize) as u8
}

fn say_step(host: &Host, code: u8, state: u8) {
    let class = CLASSES[code as usize];
    say_code(host, code);
    say(host, b"  ");
    say_letter(host, class % LETTERS);
    say_state(host, state);
}

// What could have stood behind these bytes, which lead to a state.
fn say_choices(host: &Host, frame: &[u8], state: u8) {
    say(host, b"behind '");
    say(host, frame);
    say(host, b"' could have stood:\n");
    for class in 1..=LAST_CLASS {
        if next_of(class, state) != REFUSED {
            say(host, b"  ");
            say_class(host, class);
        }
    }
    if FIRST_GOOD <= state as usize {
        say(host, b"  the end of the frame\n");
    }
}

fn walk(host: &Host, frame: &[u8]) {
    say(host, b"      ");
    say_state(host, START);
    for (i, code) in frame.iter().enumerate() {
        let state = state_behind(&frame[..=i]);
        say_step(host, *code, state);
        if state == REFUSED {
            say(host, b"bad: ");
            say_choices(host, &frame[..i], state_behind(&frame[..i]));
            return;
        }
    }
    let state = state_behind(frame);
    if (state as usize) < FIRST_GOOD {
        say(host, b"bad, it ends too soon: ");
        say_choices(host, frame, state);
        return;
    }
    say(host, b"good: a frame may end here\n");
}

// Labels and pictures are known by how they open; the table has no state for them.
fn is_other(frame: &[u8]) -> bool {
    picture_frame::opens_picture(frame) || matches!(frame, [b'I', b'K', b'1' | b'2', ..])
}

fn tell(host: &Host, frame: &[u8]) {
    if is_other(frame) {
        say(
            host,
            b"no frame of the table: IK1 and IK2 open a label, Gr opens a picture\n",
        );
    } else {
        walk(host, frame);
    }
}

fn accepted(host: &Host) -> bool {
    program::accepts(
        host,
        b"walk_frame",
        b"usage: ./run walk_frame [--table] [FRAME]\n\
        Walks FRAME, the bytes between ESC and CR, through the table of the frames that carry numbers, and says state by state where it is.\n\
        Without FRAME it walks the empty one. --table prints the table.\n",
        b"--table\n",
        true,
    )
}

fn main(rt: HostRuntime) {
    let host = Host::new(rt);
    if !accepted(&host) {
        return;
    }
    if program::is_given(&host, b"--table\n") {
        say_table(&host);
        return;
    }
    let mut frame = [0u8; 4096];
    match program::read_word(&host, &mut frame) {
        Some(n) => tell(&host, &frame[..n]),
        None => tell(&host, b""),
    }
}

// One reader of frames of signs and numbers, over any table: a class for each byte, and a next state for each class and state. It knows
// no command: the table says which frames are good, and their first bytes which command they spell.
#![tactic(auto)]

ghost use Rattle.std.specs.Prelude.{◌≡◌, ◌≤◌, ◌%◌};
ghost use Rattle.frame_table.specs.Numbers.{with_digit, numbers_after};
ghost use Rattle.frame_table.specs.Table.{state_after};
ghost use Rattle.frame_table.specs.Run.{found_in, accepted_in};

// The tables hold letters, so that they can be read aloud: @ is 0, A is 1, B is 2 and so on.
pub type Classes = [u8; 256];

// The last two numbers of a frame: the last, and the one before its last ';'.
#[derive(Clone, Copy)]
pub struct Numbers {
    pub before: u16,
    pub last: u16,
}

// Where a frame leads, and its numbers.
#[derive(Clone, Copy)]
pub struct Found {
    pub state: usize,
    pub numbers: Numbers,
}

// The state in which a frame begins. State 0 refuses.
const START: usize = 1;

fn letter(x: u8) -> u8
    ensures same { result ≡ x % 64 }
    ensures small { result ≤ 63 }
{
    x % 64
}

// The state after one byte more; what is not in the table refuses. A product of 32 bits: a small processor has none of 64.
fn state_after(class: &Classes, next: &[u8], states: u8, state: usize, b: u8) -> usize
    requires { state ≤ 63 }
    ensures same { result ≡ state_after class.now next.now states state b }
    ensures small { result ≤ 63 }
{
    let row = letter(class[b as usize]) as u32 * states as u32;
    letter(next.get(row as usize + state).copied().unwrap_or(0)) as usize
}

// No table takes a number of so many digits that it runs over.
fn with_digit(n: u16, digit: u8) -> u16
    ensures same { result ≡ with_digit n digit }
{
    n.wrapping_mul(10).wrapping_add(u16::from(digit))
}

// A digit goes to the last number, and a ';' begins another.
#[tactic(auto, unfolding(crate::specs::Numbers::numbers_after))]
fn numbers_after(b: u8, numbers: Numbers) -> Numbers
    ensures same { result ≡ numbers_after b numbers }
{
    match b {
        b'0'..=b'9' => Numbers {
            last: with_digit(numbers.last, b - b'0'),
            ..numbers
        },
        b';' => Numbers {
            before: numbers.last,
            last: 0,
        },
        _ => numbers,
    }
}

// The state to which a frame leads, and its numbers.
#[tactic(auto, using(crate::specs::Run::turned), unfolding(crate::specs::Run::found_in))]
pub fn run(class: &Classes, next: &[u8], states: u8, f: &[u8]) -> Found
    ensures same { result ≡ found_in class.now next.now states f.now }
{
    let mut state = START;
    let mut numbers = Numbers { before: 0, last: 0 };
    for &b in f {
        state = state_after(class, next, states, state, b);
        numbers = numbers_after(b, numbers);
    }
    Found { state, numbers }
}

// The numbers of a frame that leads to a state in which one may end, from the first such state on.
#[tactic(auto, unfolding(crate::specs::Run::found_in, crate::specs::Run::accepted_in))]
pub fn accepted(
    class: &Classes,
    next: &[u8],
    states: u8,
    first_good: usize,
    f: &[u8],
) -> Option<Numbers>
    ensures same { result ≡ accepted_in class.now next.now states first_good f.now }
{
    let found = run(class, next, states, f);
    (first_good <= found.state).then_some(found.numbers)
}

// Places of a frame that are not used.
#![tactic(auto)]

ghost use Rattle.std.specs.Prelude.{◌≡◌};
ghost use Rattle.stream_places.specs.Places.{emptied};

// Zero in every place from len on. By a loop and not by `fill`: the wrong program every_other_place is told from a right one only where
// there is a step that can be a wrong one. In line nowhere: in line it put other leaves of the stream call out of line, and a stream of
// pictures took a tenth more instructions.
#[inline(never)]
pub fn empty_from(bytes: &mut [u8], len: usize)
    ensures buffer { bytes.new ≡ emptied bytes.old len }
{
    let mut i = len;
    while i < bytes.len() {
        bytes[i] = 0;
        i += 1;
    }
}

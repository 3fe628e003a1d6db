// The frames that draw a picture row, in the note's spelling. What they say stands in command's specs/Reading.antt.
#![tactic(auto)]

ghost use Rattle.std.specs.Prelude.{◌≡◌};
ghost use Rattle.command.specs.Reading.{opens_picture, picture_of};

use command::PictureFrame;

// Whether a frame is to be read as a picture.
#[tactic(auto, unfolding(command::specs::Reading::opens_picture))]
pub fn opens_picture(f: &[u8]) -> bool
    ensures same { result ≡ opens_picture f.now }
{
    matches!(f, [b'G', b'r', ..])
}

// The row and the columns that a picture frame draws: Gr, the row's digit, a comma, the data and a z.
#[tactic(auto, unfolding(command::specs::Reading::picture_of, command::specs::Reading::drawn_row, command::specs::Reading::row_and_data))]
pub fn read_picture(f: &[u8]) -> Option<PictureFrame>
    ensures same { result ≡ picture_of f.now }
{
    match f {
        [b'G', b'r', digit @ b'0'..=b'9', b',', data @ .., b'z'] => Some(PictureFrame {
            row: *digit - b'0',
            columns: picture::read_data(data)?,
        }),
        _ => None,
    }
}

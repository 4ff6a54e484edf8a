// A capture of one line, as `listing` and `tally` read it: a letter for the mode of the line, and behind it the wire bytes
// as they came.
#![tactic(auto)]

ghost use Rattle.std.specs.Prelude.{◌≡◌};
ghost use Rattle.capture.specs.Letters.{mode_by, opening_by};

use groups::Mode;
use line::LineState;

// The line that a capture opens, by what it begins with. The letter is no wire byte, so it is compared as it stands.
#[tactic(auto, unfolding(crate::specs::Letters::mode_by, characters::specs::Answers::pick))]
pub fn open(capture: &[u8]) -> Option<LineState>
    ensures { result ≡ opening_by capture.now }
{
    match capture {
        [b'H', ..] => line::open(Mode::Historic as u8),
        [b'S', ..] => line::open(Mode::Standard as u8),
        [b'P', ..] => line::open(Mode::Business as u8),
        _ => None,
    }
}

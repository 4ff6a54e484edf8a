// What differs between the modes.
ghost use Rattle.std.specs.Prelude.{◌≡◌};
ghost use Rattle.groups.specs.Modes.{mode_of, known_mode, separator, counted_at_end};

use crate::{Mode, Refusal};

// The mode of a number.
impl TryFrom<u8> for Mode {
    type Error = Refusal;

    ghost try_from_gives = { λ number mode. mode ≡ known_mode (mode_of number) };

    fn try_from(number: u8) -> Result<Self, Refusal> {
        match number {
            0 => Ok(Mode::Historic),
            1 => Ok(Mode::Standard),
            2 => Ok(Mode::Business),
            _ => Err(Refusal::ModeUnknown),
        }
    }
}

impl Mode {
    pub(crate) fn separator(self) -> u8
        ensures { result ≡ separator self }
    {
        match self {
            Mode::Historic | Mode::Business => characters::SP,
            Mode::Standard => characters::HT,
        }
    }

    // What the final separator adds to the sum.
    pub(crate) fn counted_at_end(self) -> u8
        ensures { result ≡ counted_at_end self }
    {
        match self {
            Mode::Historic => 0,
            Mode::Standard => self.separator(),
            Mode::Business => 0,
        }
    }
}

// The number of a line's frame (document 02, M-108).
ghost use Rattle.std.specs.Prelude.{◌≡◌};
ghost use Rattle.characters.specs.Wire.{STX};
ghost use Rattle.line.specs.Symbols.{symbol_of};
ghost use Rattle.line.specs.ByBytes.{is};
ghost use Rattle.line.specs.FrameNumbers.{frame_at};

// Whether a byte is a sound STX. Its wire byte is looked for, since no other byte is one.
pub(crate) fn is_stx(byte: u8) -> bool
    ensures { result ≡ is STX byte }
{
    byte == characters::wire_byte(characters::STX)
}

// The number after a byte: one more at an STX, and 65,535 is followed by 0.
pub(crate) fn after(frame: u16, byte: u8) -> u16
    ensures { result ≡ frame_at frame (symbol_of byte) }
{
    if is_stx(byte) {
        return frame.wrapping_add(1);
    }
    frame
}

// Standard input, taken byte by byte from a piece that holds what one read brought.
ghost use Rattle.std.specs.Prelude.{◌≡◌, ◌+◌, ◌*◌, ◌≤◌, ◌<◌, length, IfOk};

use crate::Stop;
use streams::Streams;

// The bytes of a piece, and the most that a record may have as its n.
const SIZE: usize = 4096;

// The number with these two bytes.
fn of_two(low: u8, high: u8) -> usize
    ensures { result ≡ low + 256 * high }
{
    usize::from(u16::from_le_bytes([low, high]))
}

// Where the taking stands: the bytes of the piece from place `next` up to `end` wait, and `before` bytes of the input went
// before the piece.
#[derive(Drop)]
pub struct Input<'a> {
    streams: Streams<'a>,
    piece: [u8; SIZE],
    next: usize,
    end: usize,
    before: usize,
    ghost in_piece: { (next ≤ end) × (end ≤ 4096) },
}

impl<'a> Input<'a> {
    pub(crate) fn new(streams: Streams<'a>) -> Input<'a> {
        Input {
            streams,
            piece: [0; SIZE],
            next: 0,
            end: 0,
            before: 0,
        }
    }

    // Whether nothing waits, so that the next byte has to be read.
    pub(crate) fn is_used_up(&self) -> bool {
        self.next == self.end
    }

    // Where the next byte stands in the input. No input is so long that these places would start again at 0.
    pub(crate) fn place(&self) -> usize {
        self.before.wrapping_add(self.next)
    }

    // Reads the next piece. An input that can't be read counts as one that has ended.
    fn refill(&mut self) {
        self.before = self.before.wrapping_add(self.end);
        self.end = 0;
        self.next = 0;
        self.end = self.streams.read(&mut self.piece).unwrap_or(0);
    }

    // The next byte, or none at the end of the input.
    pub(crate) fn next_byte(&mut self) -> Option<u8> {
        if self.is_used_up() {
            self.refill();
        }
        if self.next == self.end {
            return None;
        }
        let byte = self.piece[self.next];
        self.next += 1;
        Some(byte)
    }

    // Takes a byte of a record.
    pub(crate) fn take(&mut self) -> Result<u8, Stop> {
        self.next_byte().ok_or(Stop::CutShort)
    }

    // Takes a length, low byte first.
    pub(crate) fn take_length(&mut self) -> Result<usize, Stop>
        ensures { IfOk result (λ count. count ≤ 4096) }
    {
        let count = of_two(self.take()?, self.take()?);
        if SIZE < count {
            return Err(Stop::Overlong);
        }
        Ok(count)
    }

    // Takes as many bytes as the room has.
    fn fill(&mut self, room: &mut [u8]) -> Result<(), Stop> {
        for byte in room {
            *byte = self.take()?;
        }
        Ok(())
    }

    // Takes a length, and that many bytes to the front of the room.
    pub(crate) fn take_block<'r>(&mut self, room: &'r mut [u8; SIZE]) -> Result<&'r [u8], Stop> {
        let count = self.take_length()?;
        let block = &mut room[..count];
        self.fill(block)?;
        Ok(block)
    }

    // Takes a length of one byte, and that many bytes to the front of the room.
    pub(crate) fn take_text<'r>(&mut self, room: &'r mut [u8; 255]) -> Result<&'r [u8], Stop> {
        let count = usize::from(self.take()?);
        let text = &mut room[..count];
        self.fill(text)?;
        Ok(text)
    }
}

// Standard output, gathered on a page that is written when it is full: a write for each field would be slow.
ghost use Rattle.std.specs.Prelude.{List, ℕ, [], ◌≡◌, ◌≤◌, ◌<◌, length, take, OnOk, OnErr};
ghost use Rattle.streams.specs.Page.{with_byte, with_bytes, with_room};

use crate::{Stopped, Streams};
use std::fmt;
use std::marker::Model;

// The bytes of a page.
const SIZE: usize = 4096;

// What waits to be written: the first `end` bytes.
#[derive(Drop)]
pub struct Page<'a> {
    streams: Streams<'a>,
    bytes: [u8; SIZE],
    end: usize,
}

impl<'a> Model for Page<'a> {
    ghost Value = { List ℕ };

    ghost view = { λ page. take page.end page.bytes };

    ghost invariant = { λ page. page.end ≤ 4096 };
}

// Lays an array into a room of its length. Not by `copy_from_slice`, which asks at run time whether one lies over the other: for
// that the compiler keeps each array in memory first, and `wire` takes two fifths more instructions.
fn fill<const N: usize>(room: &mut [u8], bytes: &[u8; N])
    requires { length room.old ≡ N }
    ensures { room.new ≡ bytes.now }
{
    let Some(room) = room.as_mut_array() else {
        unreachable!()
    };
    *room = *bytes;
}

impl<'a> Page<'a> {
    pub fn new(streams: Streams<'a>) -> Page<'a>
        ensures { result ≡ [] }
    {
        Page {
            streams,
            bytes: [0; SIZE],
            end: 0,
        }
    }

    // Writes what waits.
    pub fn flush(&mut self) -> Result<(), Stopped>
        ensures ok { OnOk result (self.new ≡ []) }
        ensures err { OnErr result (self.new ≡ self.old) }
    {
        self.streams.print(&self.bytes[..self.end])?;
        self.end = 0;
        Ok(())
    }

    // Writes what waits where the page has no room for so many bytes more, which then stand on one page.
    pub fn make_room(&mut self, count: usize) -> Result<(), Stopped>
        ensures ok { OnOk result (self.new ≡ with_room self.old count) }
        ensures err { OnErr result (self.new ≡ self.old) }
    {
        if SIZE - self.end < count {
            self.flush()?;
        }
        Ok(())
    }

    // Lays a byte behind those that wait. A page that is full is written first.
    fn put(&mut self, byte: u8) -> Result<(), Stopped>
        ensures { OnOk result (self.new ≡ with_byte self.old byte) }
    {
        self.make_room(1)?;
        self.bytes[self.end] = byte;
        self.end += 1;
        Ok(())
    }

    // Lays bytes behind those that wait.
    pub fn put_all(&mut self, bytes: &[u8]) -> Result<(), Stopped>
        ensures { OnOk result (self.new ≡ with_bytes self.old bytes.now) }
    {
        for byte in bytes {
            self.put(*byte)?;
        }
        Ok(())
    }

    // Lays an array whole on a page, all at once: where it doesn't fit behind those that wait, they are written first. One that is
    // longer than a page is laid as any bytes are.
    pub fn put_array<const N: usize>(&mut self, bytes: &[u8; N]) -> Result<(), Stopped>
        ensures ok { OnOk result (self.new ≡ with_bytes (with_room self.old N) bytes.now) }
        ensures err { N ≤ 4096 → OnErr result (self.new ≡ self.old) }
    {
        self.make_room(N)?;
        if SIZE < N {
            return self.put_all(bytes);
        }
        let end = self.end + N;
        fill(&mut self.bytes[self.end..end], bytes);
        self.end = end;
        Ok(())
    }
}

// So that `write!` lays a text.
impl fmt::Write for Page<'_> {
    ghost write_str_gives = { λ before text after. after ≡ with_bytes before text };

    fn write_str(&mut self, text: &str) -> fmt::Result {
        self.put_all(text.as_bytes()).map_err(|_| fmt::Error)
    }
}

// A line's inbox: the bytes that wait in it, and deliveries.
ghost use Rattle.std.specs.Prelude.{◌≡◌, take, drop};
ghost use Rattle.station.specs.Memory.{rows_behind};
ghost use Rattle.station.specs.Parts.{Fills};

use crate::Refusal;
use crate::row::Row;

// The waiting bytes, the oldest first. Numbers that no call makes are read as some that lie inside the inbox. Kept as two
// numbers beside the inbox, as the interface to C has them.
pub(crate) fn waiting(inbox: &[u8; 256], first: u16, count: u16) -> &[u8]
    ensures { result.now ≡ take count (drop first inbox.now) }
{
    let behind = &inbox[usize::from(first).min(256)..];
    &behind[..usize::from(count).min(behind.len())]
}

// Adds bytes to the inbox of a line, all of them or none: what waits is moved to the front, and they are laid behind it.
pub(crate) fn fill(
    marks: &[u8; 6],
    places: &mut [u16; 4],
    content: &[u8; 128],
    inbox: &mut [u8; 256],
    bytes: &[u8],
) -> Result<(), Refusal>
    ensures { Fills (rows_behind marks.now places.old content.now inbox.old) bytes.now result
        (rows_behind marks.now places.new content.now inbox.new) }
{
    let row = Row::read(marks, places);
    if row.opened == 0 {
        return Err(Refusal::LineClosed);
    }
    let oldest = waiting(inbox, row.first, row.count);
    let count = oldest.len();
    if 256 - count < bytes.len() {
        return Err(Refusal::NoRoom);
    }
    let all = count + bytes.len();
    // Laid out beside the inbox, since what waits may lie across the place that it is moved to. In the inbox itself `copy_within`
    // goes byte by byte, and of a copy that is copied back the compiler makes a `memmove`, which the archive for C must not need.
    let mut then = [0; 256];
    then[..count].copy_from_slice(oldest);
    then[count..all].copy_from_slice(bytes);
    inbox[..all].copy_from_slice(&then[..all]);
    *places = Row {
        first: 0,
        count: all as u16,
        ..row
    }
    .places();
    Ok(())
}

// The boundary to C: the calls of the station, and the reader and the writer of one group, under plain names, with
// document 01's numbers for answers. `include/espandim.h` declares them again.
//
// Lines and modes are 32 bits wide here: a caller's 256 would arrive as line 0, were it cut to a byte before it is
// looked at.
//
// The station lies in four arrays of the caller's; `include/espandim.h` has them in one struct, and hands each of them in.
#![tactic(auto)]

ghost use Rattle.std.specs.Prelude.{◌≡◌, length, min};
ghost use Rattle.groups.specs.Groups.{group_of};
ghost use Rattle.groups.specs.Place.{judgement, place_told};
ghost use Rattle.groups.specs.Writing.{writing};
ghost use Rattle.station.specs.History.{opens, delivers};
ghost use Rattle.station.specs.Memory.{behind};
ghost use Rattle.espandim.specs.Calls.{Calls, Serves};
ghost use Rattle.espandim.specs.OneGroup.{stretches_of, Judges, Writes};

use groups::{Fault, Fields};
use station::{Contents, Inboxes, Marks, Places};

// The byte of a number, or 255, which is neither a line nor a mode either, of one that no byte holds.
fn byte_of(number: u32) -> u8
    ensures { result ≡ min number 255 }
{
    u8::try_from(number).unwrap_or(u8::MAX)
}

// Opens a line in a mode.
#[unsafe(no_mangle)]
pub extern "C" fn espandim_rows_open(
    marks: &mut Marks,
    places: &mut Places,
    contents: &Contents,
    inboxes: &Inboxes,
    line: u32,
    mode: u32,
) -> u32
    ensures { Calls (behind marks.old places.old contents.now inboxes.now) (opens line mode) result
        (behind marks.new places.new contents.now inboxes.now) }
{
    let reply = station::open(
        marks,
        places,
        contents,
        inboxes,
        byte_of(line),
        byte_of(mode),
    );
    u32::from(station::number_of(reply))
}

// Adds bytes to the inbox of an open line, all of them or none.
#[unsafe(no_mangle)]
pub extern "C" fn espandim_rows_deliver(
    marks: &Marks,
    places: &mut Places,
    contents: &Contents,
    inboxes: &mut Inboxes,
    line: u32,
    bytes: &[u8],
) -> u32
    ensures { Calls (behind marks.now places.old contents.now inboxes.old) (delivers line bytes.now) result
        (behind marks.now places.new contents.now inboxes.new) }
{
    let reply = station::deliver(marks, places, contents, inboxes, byte_of(line), bytes);
    u32::from(station::number_of(reply))
}

// Gives each open line its turn, tells of the turns on the lent sheet, and sets the counts to how many bytes each turn
// took.
#[unsafe(no_mangle)]
pub extern "C" fn espandim_rows_round(
    marks: &mut Marks,
    places: &mut Places,
    contents: &mut Contents,
    inboxes: &Inboxes,
    sheet: &mut [u8],
    counts: &mut [u8; 8],
) -> u32
    ensures { Serves (behind marks.old places.old contents.old inboxes.now) sheet.old result
        (behind marks.new places.new contents.new inboxes.now) sheet.new counts.new }
{
    let told = station::round(marks, places, contents, inboxes, sheet);
    *counts = station::counts_of(told);
    u32::from(station::number_of(told))
}

// The stretches of a judgement, three empty ones of a refused content, and its place.
fn shown(judgement: Result<Fields, Fault>) -> ([usize; 6], usize)
    ensures { (result.0 ≡ stretches_of judgement) × (result.1 ≡ place_told judgement) }
{
    match judgement {
        Ok(fields) => {
            let stretches = [
                fields.label.start,
                fields.label.length,
                fields.stamp.start,
                fields.stamp.length,
                fields.data.start,
                fields.data.length,
            ];
            (stretches, 0)
        }
        Err(fault) => ([0; 6], fault.place),
    }
}

// Judges the content of one group, given alone; shows where its label, stamp and data start, and their lengths; and tells the
// place where a refused stamp or refused data went wrong.
#[unsafe(no_mangle)]
pub extern "C" fn espandim_judge(
    mode: u32,
    content: &[u8],
    stretches: &mut [usize; 6],
    place: &mut usize,
) -> u32
    ensures { Judges (judgement mode content.now) result stretches.new place.new }
{
    let judgement = groups::judge(byte_of(mode), content);
    (*stretches, *place) = shown(judgement);
    u32::from(groups::number_of(judgement))
}

// Writes LF, the content of the group with these fields, and CR, at the start of the buffer, and tells how many bytes.
#[unsafe(no_mangle)]
pub extern "C" fn espandim_write(
    mode: u32,
    label: &[u8],
    stamp: &[u8],
    data: &[u8],
    buffer: &mut [u8],
    written: &mut usize,
) -> u32
    ensures { Writes
        (writing mode (group_of label.now stamp.now «data».now)
        (length buffer.old))
        buffer.old result buffer.new written.new }
{
    let done = groups::write(byte_of(mode), label, stamp, data, buffer);
    *written = done.unwrap_or(0);
    u32::from(groups::number_of_writing(done))
}

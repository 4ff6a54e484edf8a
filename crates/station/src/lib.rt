// The station: eight lines, 0 to 7, each with its inbox, and the rounds that serve them.
//
// It lies in four arrays that the caller lends, with a row for each line:
//
//  marks     opened, mode, phase, flaw, damaged, overlong
//  places    the content's length, the first waiting byte, the count of waiting bytes, the number of the frame
//  contents  the characters of the group
//  inboxes   the waiting bytes
//
// Four arrays, and numbers by their places in them, since the C interface lends them so, some of them to be read only. `Row`
// has a line's numbers by name.
//
// Zeros are the station with all lines closed. A contract speaks of the memory before and after: `behind`
// gathers the four arrays, as they are when a call begins (`old`), and when it has returned (`new`).
#![tactic(auto)]

mod inbox;
mod known;
mod row;
mod serve;
mod sheet;
mod turn;

ghost use Rattle.std.specs.Prelude.{◌≡◌};
ghost use Rattle.station.specs.Numbers.{number_of};
ghost use Rattle.station.specs.Rounds.{counts_of};
ghost use Rattle.station.specs.Memory.{behind};
ghost use Rattle.station.specs.CallContracts.{Opens, Delivers, Serves};

use crate::row::Row;

// A row for each line.
pub type Marks = [[u8; 6]; 8];

pub type Places = [[u16; 4]; 8];

pub type Contents = [[u8; 128]; 8];

pub type Inboxes = [[u8; 256]; 8];

// The bytes that a lent sheet must have.
pub const SMALLEST_SHEET: usize = 1096;

// Why a call is refused, with document 01's numbers.
#[derive(Clone, Copy, PartialEq, Eq)]
pub enum Refusal {
    NoRoom = 15,
    LineUnknown = 16,
    LineClosed = 17,
    SheetShort = 18,
    ModeUnknown = 19,
}

// Opens a line in a mode: its inbox is empty then, the line outside of every frame, and its frame number 0.
pub fn open(
    marks: &mut Marks,
    places: &mut Places,
    contents: &Contents,
    inboxes: &Inboxes,
    line: u8,
    mode: u8,
) -> Result<(), Refusal>
    ensures { Opens (behind marks.old places.old contents.now inboxes.now) line mode result
        (behind marks.new places.new contents.now inboxes.now) }
{
    if line >= 8 {
        return Err(Refusal::LineUnknown);
    }
    let Some(state) = line::open(mode) else {
        return Err(Refusal::ModeUnknown);
    };
    let row = Row::opening(state);
    let at = line as usize;
    marks[at] = row.marks();
    places[at] = row.places();
    Ok(())
}

// Adds bytes to the inbox of an open line, all of them or none.
pub fn deliver(
    marks: &Marks,
    places: &mut Places,
    contents: &Contents,
    inboxes: &mut Inboxes,
    line: u8,
    bytes: &[u8],
) -> Result<(), Refusal>
    ensures { Delivers (behind marks.now places.old contents.now inboxes.old) line bytes.now result
        (behind marks.now places.new contents.now inboxes.new) }
{
    if line >= 8 {
        return Err(Refusal::LineUnknown);
    }
    let at = line as usize;
    inbox::fill(
        &marks[at],
        &mut places[at],
        &contents[at],
        &mut inboxes[at],
        bytes,
    )
}

// Gives each open line its turn, tells of the turns on the lent sheet, and returns how many bytes each turn took.
pub fn round(
    marks: &mut Marks,
    places: &mut Places,
    contents: &mut Contents,
    inboxes: &Inboxes,
    sheet: &mut [u8],
) -> Result<[u8; 8], Refusal>
    ensures { Serves (behind marks.old places.old contents.old inboxes.now) sheet.old result
        (behind marks.new places.new contents.new inboxes.now) sheet.new }
{
    if sheet.len() < SMALLEST_SHEET {
        return Err(Refusal::SheetShort);
    }
    Ok(serve::serve(marks, places, contents, inboxes, sheet))
}

// How many bytes each turn took: eight zeros where the round is refused.
pub fn counts_of(told: Result<[u8; 8], Refusal>) -> [u8; 8]
    ensures { result ≡ counts_of told }
{
    told.unwrap_or([0; 8])
}

// Document 01's number of what a call returned.
pub fn number_of<T: Drop>(reply: Result<T, Refusal>) -> u8
    ensures { result ≡ number_of reply }
{
    match reply {
        Ok(_) => 0,
        Err(refusal) => refusal as u8,
    }
}

// One group: the table of labels, the reader and the writer.
#![tactic(auto)]

mod find;
mod fitting;
mod group;
mod modes;
mod quick;
mod reading;
mod stamps;
mod table;
mod writing;

ghost use Rattle.std.specs.Prelude.{◌≡◌, length};
ghost use Rattle.groups.specs.Modes.{is_mode};
ghost use Rattle.groups.specs.Groups.{group_of};
ghost use Rattle.groups.specs.Judging.{judging, shown, stretches_of, Part};
ghost use Rattle.groups.specs.Place.{place_of, place_told};
ghost use Rattle.groups.specs.Numbers.{number_of, number_of_refusal, number_of_writing};
ghost use Rattle.groups.specs.Writing.{writing, count_of, Wrote};

use group::Group;

#[derive(Clone, Copy, PartialEq, Eq)]
pub enum Mode {
    Historic,
    Standard,
    Business,
}

// Why a group, or its fields, are refused, with document 01's numbers.
#[derive(Clone, Copy, PartialEq, Eq)]
pub enum Refusal {
    TooLong = 8,
    Misshapen = 9,
    CheckWrong = 10,
    LabelUnknown = 11,
    StampWrong = 12,
    WidthWrong = 13,
    KindWrong = 14,
    NoRoom = 15,
    ModeUnknown = 19,
}

// A part of the content: `length` bytes from place `start` on.
#[derive(Clone, Copy)]
pub struct Stretch {
    pub start: usize,
    pub length: usize,
}

// Where in the content the three fields of an accepted group stand.
#[derive(Clone, Copy)]
pub struct Fields {
    pub label: Stretch,
    pub stamp: Stretch,
    pub data: Stretch,
}

// Why a content is refused, and the place in it, counted from 0, where a refused stamp or refused data went wrong (M-104); 0
// with every other refusal.
#[derive(Clone, Copy)]
pub struct Fault {
    pub refusal: Refusal,
    pub place: usize,
}

impl From<Refusal> for Fault {
    ghost from_gives = { λ refusal fault. fault ≡ record { refusal = refusal; place = 0 } };

    fn from(refusal: Refusal) -> Fault {
        Fault { refusal, place: 0 }
    }
}

// Whether a number is that of a mode.
pub fn is_mode(number: u8) -> bool
    ensures { result ≡ is_mode number }
{
    Mode::try_from(number).is_ok()
}

// Judges the content of one group, given alone, in the mode of this number.
pub fn judge(mode: u8, content: &[u8]) -> Result<Fields, Fault>
    ensures { result ≡ shown (judging mode content.now) (place_of mode content.now) }
{
    reading::read(Mode::try_from(mode)?, content)
}

// The part of the caller's own bytes that a stretch names; the empty part at their start where it does not fit.
// Kept as tests: tried as a chain of `get`s, its goal `returns`, where the part lies in memory, stayed open.
pub fn part(content: &[u8], stretch: Stretch) -> &[u8]
    ensures { Part stretch content.entry result }
{
    let start = stretch.start;
    let length = stretch.length;
    if content.len() < start {
        return &content[..0];
    }
    if content.len() - start < length {
        return &content[..0];
    }
    let end = start + length;
    &content[start..end]
}

// Writes LF, the content of the group with these fields, and CR, as sound wire bytes, at the start of the buffer, and tells how
// many bytes these are.
pub fn write(
    mode: u8,
    label: &[u8],
    stamp: &[u8],
    data: &[u8],
    buffer: &mut [u8],
) -> Result<usize, Refusal>
    ensures { Wrote (writing mode (group_of label.now stamp.now «data».now) (length buffer.old)) buffer.old result buffer.new }
{
    writing::write_in(Mode::try_from(mode)?, Group { label, stamp, data }, buffer)
}

const NOWHERE: Stretch = Stretch {
    start: 0,
    length: 0,
};

const NO_FIELDS: Fields = Fields {
    label: NOWHERE,
    stamp: NOWHERE,
    data: NOWHERE,
};

// Where a judgement shows the fields: three empty stretches with a refusal.
pub fn fields_of(judgement: Result<Fields, Fault>) -> Fields
    ensures { result ≡ stretches_of judgement }
{
    judgement.unwrap_or(NO_FIELDS)
}

// The place that a judgement tells: 0 with an accepted group, which tells none.
pub fn place_told(judgement: Result<Fields, Fault>) -> usize
    ensures { result ≡ place_told judgement }
{
    judgement.err().map_or(0, |fault| fault.place)
}

// How many bytes a writing wrote: none where it is refused.
pub fn count_of(written: Result<usize, Refusal>) -> usize
    ensures { result ≡ count_of written }
{
    written.unwrap_or(0)
}

// Document 01's number of a judgement.
pub fn number_of(judgement: Result<Fields, Fault>) -> u8
    ensures { result ≡ number_of judgement }
{
    match judgement {
        Ok(_) => 1,
        Err(fault) => refusal_number(fault.refusal),
    }
}

// Document 01's number of how a writing ended.
pub fn number_of_writing(written: Result<usize, Refusal>) -> u8
    ensures { result ≡ number_of_writing written }
{
    match written {
        Ok(_) => 0,
        Err(refusal) => refusal_number(refusal),
    }
}

// Document 01's number of a refusal.
pub fn refusal_number(refusal: Refusal) -> u8
    ensures { result ≡ number_of_refusal refusal }
{
    refusal as u8
}

// Replays the log of a box's calls at the desk. Standard input is a row of records, each a letter and its fields. Line,
// mode and fill are a byte each; n is a number of 16 bits, low byte first; a text is a byte with its length, and that
// many bytes. Each record gives a line, which begins with its letter and the answer's number:
//   `O` line mode                     opening
//   `D` line n, n bytes               delivery
//   `R` n fill                        a round with a sheet of n bytes, each `fill` before; the line goes on with the
//                                     eight counts and the whole sheet afterwards
//   `J` mode n, n bytes               judging; the line goes on with label, stamp and data
//   `W` mode label stamp data n fill  writing into a buffer of n bytes, each `fill` before; the line goes on with how
//                                     many bytes were written and the whole buffer afterwards
// Fields are parted by a space; bytes are in hex, and none are `-`. What is no record gives a line too: `?`, its number
// from 1, where it starts in the input, counted from 0, and why: `unknown letter`, `length over 4096` or `cut short`. Then
// the program ends. It ends without a word where the input ends between two records. docs/REPLAY.md has an example.
//
// usage: ./espandim replay < LOG
//
// What it is run on, and what it must write, is made from the calls in calls.tsv by the script `make`.
#![tactic(auto)]

mod hex;
mod input;

use hex::put_hex;
use input::Input;
use station::{Contents, Inboxes, Marks, Places, Refusal};
use std::fmt;
use std::fmt::Write;
use streams::{Page, Stopped, Streams};

// Why the program ends before its input does.
#[derive(Clone, Copy)]
pub enum Stop {
    UnknownLetter,
    Overlong,
    CutShort,
    // What is to be written could not be, which has been said.
    Closed,
}

impl fmt::Display for Stop {
    fn fmt<W: fmt::Write>(&self, f: &mut fmt::Formatter<W>) -> fmt::Result {
        match self {
            Stop::UnknownLetter => write!(f, "unknown letter"),
            Stop::Overlong => write!(f, "length over 4096"),
            Stop::CutShort => write!(f, "cut short"),
            Stop::Closed => write!(f, "output closed"),
        }
    }
}

impl From<Stopped> for Stop {
    fn from(_stopped: Stopped) -> Stop {
        Stop::Closed
    }
}

impl From<fmt::Error> for Stop {
    fn from(_error: fmt::Error) -> Stop {
        Stop::Closed
    }
}

// A station in memory of its own.
#[derive(Drop)]
struct Station {
    marks: Marks,
    places: Places,
    contents: Contents,
    inboxes: Inboxes,
}

impl Station {
    // As all stations begin, with its eight lines closed.
    fn new() -> Station {
        Station {
            marks: [[0; 6]; 8],
            places: [[0; 4]; 8],
            contents: [[0; 128]; 8],
            inboxes: [[0; 256]; 8],
        }
    }

    fn open(&mut self, line: u8, mode: u8) -> Result<(), Refusal> {
        station::open(
            &mut self.marks,
            &mut self.places,
            &self.contents,
            &self.inboxes,
            line,
            mode,
        )
    }

    fn deliver(&mut self, line: u8, bytes: &[u8]) -> Result<(), Refusal> {
        station::deliver(
            &self.marks,
            &mut self.places,
            &self.contents,
            &mut self.inboxes,
            line,
            bytes,
        )
    }

    fn round(&mut self, sheet: &mut [u8]) -> Result<[u8; 8], Refusal> {
        station::round(
            &mut self.marks,
            &mut self.places,
            &mut self.contents,
            &self.inboxes,
            sheet,
        )
    }
}

// What the records are taken from, what they are done with, and what their lines are laid on.
#[derive(Drop)]
struct Desk<'a> {
    input: Input<'a>,
    station: Station,
    page: Page<'a>,
}

impl<'a> Desk<'a> {
    fn new(streams: Streams<'a>) -> Desk<'a> {
        Desk {
            input: Input::new(streams),
            station: Station::new(),
            page: Page::new(streams),
        }
    }

    fn open(&mut self) -> Result<(), Stop> {
        let line = self.input.take()?;
        let mode = self.input.take()?;
        let reply = self.station.open(line, mode);
        let number = station::number_of(reply);
        writeln!(self.page, "O {number}")?;
        Ok(())
    }

    fn deliver(&mut self) -> Result<(), Stop> {
        let mut room = [0; 4096];
        let line = self.input.take()?;
        let bytes = self.input.take_block(&mut room)?;
        let reply = self.station.deliver(line, bytes);
        let number = station::number_of(reply);
        writeln!(self.page, "D {number}")?;
        Ok(())
    }

    fn round(&mut self) -> Result<(), Stop> {
        let size = self.input.take_length()?;
        let mut room = [self.input.take()?; 4096];
        let sheet = &mut room[..size];
        let told = self.station.round(sheet);
        let number = station::number_of(told);
        write!(self.page, "R {number}")?;
        for count in station::counts_of(told) {
            write!(self.page, " {count}")?;
        }
        put_hex(&mut self.page, sheet)?;
        writeln!(self.page)?;
        Ok(())
    }

    fn judge(&mut self) -> Result<(), Stop> {
        let mut room = [0; 4096];
        let mode = self.input.take()?;
        let content = self.input.take_block(&mut room)?;
        let judgement = groups::judge(mode, content);
        let number = groups::number_of(judgement);
        write!(self.page, "J {number}")?;
        let fields = groups::fields_of(judgement);
        for field in [fields.label, fields.stamp, fields.data] {
            put_hex(&mut self.page, groups::part(content, field))?;
        }
        let place = groups::place_told(judgement);
        writeln!(self.page, " {place}")?;
        Ok(())
    }

    fn write(&mut self) -> Result<(), Stop> {
        let mut label_room = [0; 255];
        let mut stamp_room = [0; 255];
        let mut data_room = [0; 255];
        let mode = self.input.take()?;
        let label = self.input.take_text(&mut label_room)?;
        let stamp = self.input.take_text(&mut stamp_room)?;
        let data = self.input.take_text(&mut data_room)?;
        let size = self.input.take_length()?;
        let mut room = [self.input.take()?; 4096];
        let buffer = &mut room[..size];
        let written = groups::write(mode, label, stamp, data, buffer);
        let number = groups::number_of_writing(written);
        let length = groups::count_of(written);
        write!(self.page, "W {number} {length}")?;
        put_hex(&mut self.page, buffer)?;
        writeln!(self.page)?;
        Ok(())
    }

    // The record that begins with this letter.
    // Kept as a match: five methods that take nothing but the desk, where a table of closures would be no plainer.
    fn replay(&mut self, letter: u8) -> Result<(), Stop> {
        match letter {
            b'O' => self.open(),
            b'D' => self.deliver(),
            b'R' => self.round(),
            b'J' => self.judge(),
            b'W' => self.write(),
            _ => Err(Stop::UnknownLetter),
        }
    }

    // Replays the records up to the end, or to what is none. A proved loop has to end, and nothing says that an input does:
    // this one ends after more records than any input has.
    fn replay_all(&mut self) -> Result<(), Stopped> {
        for record in 1..=u64::MAX {
            // Whoever waits for a line gets it before the program may have to wait for input.
            if self.input.is_used_up() {
                self.page.flush()?;
            }
            let start = self.input.place();
            let Some(letter) = self.input.next_byte() else {
                break;
            };
            match self.replay(letter) {
                Ok(()) => {}
                Err(Stop::Closed) => return Err(Stopped),
                Err(stop) => {
                    // The line of what is no record: which one, where it starts, and why.
                    writeln!(self.page, "? {record} {start} {stop}")?;
                    break;
                }
            }
        }
        self.page.flush()
    }
}

// What could not be read or written has been said.
fn main(rt: HostRuntime) {
    let _ = Desk::new(Streams::new(&rt, b"replay")).replay_all();
}

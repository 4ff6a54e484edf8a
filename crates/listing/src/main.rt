// Lists the answers to a captured line: standard input is `H` (historic), `S` (standard) or `P` (the business meter
// PME-PMI), then the wire bytes of the line. Each answer gives a line: its number and, for an accepted group, label, stamp or
// `-`, and data, each after a space. A capture that is empty, or begins with another byte, gives the line `20`.
//
// usage: ./espandim listing < CAPTURE
//
// The capture is read in pieces. From one piece to the next goes only what a line keeps, so a capture of any length is
// listed in the same small room, and a line that is still being captured is listed as it comes.
#![tactic(auto)]

mod text;

ghost use Rattle.std.specs.Prelude.{OnOk};
ghost use Rattle.listing.specs.Parts.{Lists, Goes};

use line::LineState;
use streams::{Stopped, Streams};
use text::Text;

// A line that is listed: what it keeps, and the bytes of its group's content.
#[derive(Drop)]
struct Ear {
    line: LineState,
    content: [u8; 128],
}

// What became of a stretch of bytes: the line afterwards, and how many it took.
#[derive(Clone, Copy)]
struct Listed {
    line: LineState,
    count: usize,
}

// Takes bytes up to one that gives an answer, and lays its line into the text. The two parts of an ear come apart, so that
// the line stays in registers from answer to answer.
fn list_next(line: LineState, content: &mut [u8; 128], bytes: &[u8], text: &mut Text) -> Listed
    ensures { Lists (record { line = line; content = content.old }) bytes.now result.count (record { line = result.line; content = content.new }) text.new }
{
    let taken = line::feed(line, content, bytes);
    text::put_line(text, taken.heard, content);
    Listed {
        line: taken.line,
        count: taken.count,
    }
}

// Lists a piece of the capture. Each line is written as soon as it is known, and whole.
fn list_piece(streams: &Streams, ear: &mut Ear, piece: &[u8]) -> Result<(), Stopped>
    ensures { OnOk result (Goes ear.old piece.now ear.new) }
{
    let mut text = Text::new();
    let mut line = ear.line;
    let mut rest = piece;
    while !rest.is_empty() {
        let listed = list_next(line, &mut ear.content, rest, &mut text);
        streams.print(text.as_slice())?;
        line = listed.line;
        rest = &rest[listed.count..];
    }
    ear.line = line;
    Ok(())
}

// Lists all that comes, for a line that was just opened. A proved loop has to end, and nothing says that an input does:
// the loop counts to a number that no run reaches.
// Kept beside the like loops of `tally` and `wire`: a shared one would have to require that its closure may be called, and
// no public function here has a `requires`; a trait with one method, for three loops of five lines, is no plainer.
fn list_all(streams: &Streams, opened: LineState) -> Result<(), Stopped> {
    let mut ear = Ear {
        line: opened,
        content: [0; 128],
    };
    let mut piece = io::buffer();
    for _ in 0..u64::MAX {
        let count = streams.read(&mut piece)?;
        if count == 0 {
            break;
        }
        list_piece(streams, &mut ear, &piece[..count])?;
    }
    Ok(())
}

// An input that can't be read is no capture, not even an empty one: nothing is listed of it.
fn list(streams: &Streams) -> Result<(), Stopped> {
    let mut first = [0; 1];
    let count = streams.read(&mut first)?;
    match capture::open(&first[..count]) {
        Some(line) => list_all(streams, line),
        None => streams.print(b"20\n"),
    }
}

fn main(rt: HostRuntime) {
    let _ = list(&Streams::new(&rt, b"listing"));
}

// Counts the answers to a captured line: standard input is `H` (historic), `S` (standard) or `P` (the business meter
// PME-PMI), then the wire bytes of the line, as for `listing`. It writes a line for each number from 1 to 14: the number, a
// space, and how many answers had it. A capture that is empty, or begins with another byte, gives the line `20`.
//
// usage: ./espandim tally < CAPTURE
//
// The fitter sees from it how noisy a line is; and since it does little but take bytes, bench/run measures the line's
// loop by it. It is proved to be safe and to end.
#![tactic(auto)]

use line::LineState;
use std::fmt;
use std::fmt::Write;
use streams::{Page, Stopped, Streams};

// How many answers had each number, from 0 on. What gives no answer has number 0: it is counted, and not shown.
type Counts = [u64; 15];

// Counts the answers to a piece of the capture. There is room for every number; that it is asked spares the proof.
// Kept apart: no other function here takes a line and its content, and a struct of both, as `listing` has, is no plainer for
// one (and takes 2 to 5 % more instructions).
fn count_piece(
    opened: LineState,
    content: &mut [u8; 128],
    piece: &[u8],
    counts: &mut Counts,
) -> LineState {
    let mut line = opened;
    let mut rest = piece;
    while !rest.is_empty() {
        let taken = line::feed(line, content, rest);
        let number = line::number_of(taken.heard);
        if let Some(count) = counts.get_mut(number as usize) {
            *count = count.wrapping_add(1);
        }
        line = taken.line;
        rest = &rest[taken.count..];
    }
    line
}

// Counts the answers to all that comes, for a line that was just opened. A proved loop has to end, and nothing says that
// an input does: the loop counts to a number that no run reaches. Kept beside the like loop of `listing`, which says why.
fn count_all(streams: &Streams, opened: LineState, counts: &mut Counts) -> Result<(), Stopped> {
    let mut line = opened;
    let mut content = [0; 128];
    let mut piece = io::buffer();
    for _ in 0..u64::MAX {
        let count = streams.read(&mut piece)?;
        if count == 0 {
            break;
        }
        line = count_piece(line, &mut content, &piece[..count], counts);
    }
    Ok(())
}

// Lays the lines of the numbers from 1 on.
fn put_counts(page: &mut Page, counts: &Counts) -> fmt::Result {
    for (number, count) in counts.iter().enumerate().skip(1) {
        writeln!(page, "{number} {count}")?;
    }
    Ok(())
}

fn show_all(streams: Streams, counts: &Counts) -> Result<(), Stopped> {
    let mut page = Page::new(streams);
    put_counts(&mut page, counts)?;
    page.flush()
}

// An input that can't be read is no capture, not even an empty one: nothing is counted of it. One that can't be read any
// more is over, and what came of it counts.
fn tally(streams: Streams) -> Result<(), Stopped> {
    let mut first = [0; 1];
    let count = streams.read(&mut first)?;
    match capture::open(&first[..count]) {
        Some(line) => {
            let mut counts = [0; 15];
            let _ = count_all(&streams, line, &mut counts);
            show_all(streams, &counts)
        }
        None => streams.print(b"20\n"),
    }
}

fn main(rt: HostRuntime) {
    let _ = tally(Streams::new(&rt, b"tally"));
}

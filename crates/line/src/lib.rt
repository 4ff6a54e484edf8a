// One line: bytes to answers.
//
// What a line keeps is a small struct of numbers, which goes in and comes back by value, and beside it the 128 bytes of
// its group's content, which the caller lends. Only `feed` takes bytes: those that give no answer in a row where it can,
// and every other one by `step`.
#![tactic(auto)]

mod frames;
mod rows;
mod rules;
mod state;
mod step;

ghost use Rattle.std.specs.Prelude.{◌≡◌};
ghost use Rattle.line.specs.Numbers.{number_of, number_of_notice, place_of, place_of_notice, number_of_opening};
ghost use Rattle.line.specs.State.{opening_of};
ghost use Rattle.line.specs.Steps.{Fed, fed};

use groups::{Fields, Refusal};
use rules::Phase;
use state::Line;

// What a line keeps, beside the bytes of its content. No call makes other values than those that `state` writes, and
// every other value is read as one of them. It stays numbers, and no enum with its marks: C keeps it (include/espandim.h), and
// `feed` takes every value of it.
#[repr(C)]
#[derive(Clone, Copy)]
pub struct LineState {
    pub mode: u8,
    pub phase: u8,
    pub flaw: u8,
    pub damaged: u8,
    pub overlong: u8,
    pub length: u16,
    pub frame: u16,
}

// What a line tells of its frames and groups, an accepted group apart. A refused group comes with the place in its content
// that judging tells (M-104).
#[derive(Clone, Copy, PartialEq, Eq)]
pub enum Notice {
    FrameSound,
    FrameFlawed,
    FrameInterrupted,
    FrameRestarted,
    GroupRestarted,
    GroupDamaged,
    GroupRefused(Refusal, u8),
}

// What a byte gave: no answer, an accepted group, whose fields stand in the lent content, or a notice. Three cases of its own,
// and no Option of a Result: most notices are no errors.
#[derive(Clone, Copy)]
pub enum Heard {
    Nothing,
    Accepted(Fields),
    Told(Notice),
}

// What became of a stretch of bytes: the line afterwards, how many bytes it took, and the answer that ended it, if any. The
// number of the answer's frame is the one that the line has afterwards (M-108).
#[derive(Clone, Copy)]
pub struct Taken {
    pub line: LineState,
    pub count: usize,
    pub heard: Heard,
}

// A line of this mode, outside of every frame, of which none came yet; none where the mode is not known.
#[tactic(auto, unfolding(crate::specs::State::opening_of, characters::specs::Answers::pick))]
pub fn open(mode: u8) -> Option<LineState>
    ensures { result ≡ opening_of mode }
{
    if !groups::is_mode(mode) {
        return None;
    }
    Some(LineState::from(Line {
        mode,
        frame: 0,
        phase: Phase::Outside,
        held: 0,
    }))
}

// Takes bytes from the front, up to one that gives an answer. The content is lent beside the line and is no part of it: in C it
// lies in the caller's memory (include/espandim.h).
pub fn feed(line: LineState, content: &mut [u8; 128], bytes: &[u8]) -> Taken
    ensures { Fed (fed 0 line content.old bytes.now) result content.new }
{
    if bytes.is_empty() {
        return Taken {
            line,
            count: 0,
            heard: Heard::Nothing,
        };
    }
    let mut at = Line::from(line);
    let mut rest = bytes;
    while !rest.is_empty() {
        let row = rows::take_row(at, content, rest);
        let Some((&byte, behind)) = rest[row.count..].split_first() else {
            return Taken {
                line: LineState::from(row.line),
                count: bytes.len(),
                heard: Heard::Nothing,
            };
        };
        let reaction = step::step(row.line, content, byte);
        match reaction.heard {
            Heard::Nothing => {
                at = reaction.line;
                rest = behind;
            }
            heard => {
                return Taken {
                    line: LineState::from(reaction.line),
                    count: bytes.len() - behind.len(),
                    heard,
                };
            }
        }
    }
    Taken {
        line: LineState::from(at),
        count: bytes.len(),
        heard: Heard::Nothing,
    }
}

// Document 01's number of what was heard; 0 is no answer.
pub fn number_of(heard: Heard) -> u8
    ensures { result ≡ number_of heard }
{
    match heard {
        Heard::Nothing => 0,
        Heard::Accepted(_) => 1,
        Heard::Told(notice) => number_of_notice(notice),
    }
}

// The place that comes with what was heard: that of a refused group, and 0 where there is none.
pub fn place_of(heard: Heard) -> u8
    ensures { result ≡ place_of heard }
{
    match heard {
        Heard::Told(notice) => place_of_notice(notice),
        _ => 0,
    }
}

// Document 01's number of an opening.
pub fn number_of_opening(opening: Option<LineState>) -> u8
    ensures { result ≡ number_of_opening opening }
{
    match opening {
        Some(_) => 0,
        None => 19,
    }
}

// By a match, and no discriminants: a refused group has fields.
fn number_of_notice(notice: Notice) -> u8
    ensures { result ≡ number_of_notice notice }
{
    match notice {
        Notice::FrameSound => 2,
        Notice::FrameFlawed => 3,
        Notice::FrameInterrupted => 4,
        Notice::FrameRestarted => 5,
        Notice::GroupRestarted => 6,
        Notice::GroupDamaged => 7,
        Notice::GroupRefused(refusal, _) => groups::refusal_number(refusal),
    }
}

fn place_of_notice(notice: Notice) -> u8
    ensures { result ≡ place_of_notice notice }
{
    match notice {
        Notice::GroupRefused(_, place) => place,
        _ => 0,
    }
}

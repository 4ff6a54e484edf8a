// The numbers that a line keeps, and what they stand for.
ghost use Rattle.std.specs.Prelude.{◌≡◌, ◌≤◌};

use crate::LineState;
use crate::rules::Phase;

// A line as its numbers are read. From byte to byte it is kept so, and not as its numbers: to write them in between and to
// read them again costs more than to take a byte.
#[derive(Clone, Copy)]
pub struct Line {
    // The caller's number, known or not: each has its answer, so it is no `Mode` here.
    pub mode: u8,
    pub frame: u16,
    pub phase: Phase,
    // How many characters the group holds; outside of groups it counts for nothing.
    pub held: u16,
    ghost room: { held ≤ 128 },
}

impl Line {
    ghost use Rattle.line.specs.State.{IsLine};

    // The same line in another phase, with so many characters of content.
    pub(crate) fn turned(self, phase: Phase, held: u16) -> Line
        requires { held ≤ 128 }
        ensures { IsLine self.mode self.frame phase held result }
    {
        Line {
            mode: self.mode,
            frame: self.frame,
            phase,
            held,
        }
    }
}

impl LineState {
    ghost use Rattle.line.specs.State.{phase_of};

    // Where the line is. A number that no call makes is read as one that a call makes.
    #[tactic(auto, unfolding(crate::specs::State::phase_of, characters::specs::Answers::pick))]
    fn phase(self) -> Phase
        ensures { result ≡ phase_of self }
    {
        match self.phase {
            1 => Phase::Frame(self.flaw != 0),
            2 => Phase::Group(self.flaw != 0, self.damaged != 0, self.overlong != 0),
            _ => Phase::Outside,
        }
    }
}

impl From<LineState> for Line {
    ghost use Rattle.line.specs.State.{IsRead};

    ghost from_gives = { IsRead };

    #[tactic(auto, unfolding(crate::specs::State::held_in))]
    fn from(state: LineState) -> Line {
        Line {
            mode: state.mode,
            frame: state.frame,
            phase: state.phase(),
            held: state.length.min(128),
        }
    }
}

// Only a group has marks and content.
impl From<Line> for LineState {
    ghost use Rattle.line.specs.State.{written};

    ghost from_gives = { λ line state. state ≡ written line };

    fn from(line: Line) -> LineState {
        let (phase, flaw, damaged, overlong, length) = match line.phase {
            Phase::Outside => (0, false, false, false, 0),
            Phase::Frame(flaw) => (1, flaw, false, false, 0),
            Phase::Group(flaw, damaged, overlong) => (2, flaw, damaged, overlong, line.held),
        };
        LineState {
            mode: line.mode,
            phase,
            flaw: flaw as u8,
            damaged: damaged as u8,
            overlong: overlong as u8,
            length,
            frame: line.frame,
        }
    }
}

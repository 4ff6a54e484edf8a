// The numbers of a line, by name. In the caller's memory they lie by their places in its rows of marks and places.
ghost use Rattle.std.specs.Prelude.{◌≡◌, [], ◌∷◌};
ghost use Rattle.station.specs.Parts.{row_of};

use line::LineState;

// The first waiting byte lies at `first`, and `count` bytes wait.
#[derive(Clone, Copy)]
pub struct Row {
    // 0 where the line is closed. Kept as the number that it is in the caller's memory, where any other one stays as it is.
    pub opened: u8,
    pub state: LineState,
    pub first: u16,
    pub count: u16,
}

impl Row {
    pub(crate) fn read(marks: &[u8; 6], places: &[u16; 4]) -> Row
        ensures { result ≡ row_of marks.now places.now }
    {
        let [opened, mode, phase, flaw, damaged, overlong] = *marks;
        let [length, first, count, frame] = *places;
        let state = LineState {
            mode,
            phase,
            flaw,
            damaged,
            overlong,
            length,
            frame,
        };
        Row {
            opened,
            state,
            first,
            count,
        }
    }

    // Of a line that is opened: nothing waits.
    pub(crate) fn opening(state: LineState) -> Row
        ensures { result ≡ record { opened = 1; state = state; first = 0; count = 0 } }
    {
        Row {
            opened: 1,
            state,
            first: 0,
            count: 0,
        }
    }

    pub(crate) fn marks(self) -> [u8; 6]
        ensures { result ≡ self.opened ∷ self.state.mode ∷ self.state.phase ∷ self.state.flaw ∷ self.state.damaged ∷ self.state.overlong ∷ [] }
    {
        [
            self.opened,
            self.state.mode,
            self.state.phase,
            self.state.flaw,
            self.state.damaged,
            self.state.overlong,
        ]
    }

    pub(crate) fn places(self) -> [u16; 4]
        ensures { result ≡ self.state.length ∷ self.first ∷ self.count ∷ self.state.frame ∷ [] }
    {
        [self.state.length, self.first, self.count, self.state.frame]
    }
}

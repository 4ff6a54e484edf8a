// One line's turn in a round.
ghost use Rattle.std.specs.Prelude.{◌≡◌, take};
ghost use Rattle.station.specs.Lines.{most_in_turn};
ghost use Rattle.station.specs.Memory.{rows_behind};
ghost use Rattle.station.specs.Parts.{Turns};

use crate::inbox;
use crate::row::Row;
use line::Heard;

// What a turn tells: how many bytes it took, what was heard at the last of them, and the number that the frame has then.
#[derive(Clone, Copy)]
pub struct Took {
    pub count: u8,
    pub heard: Heard,
    pub frame: u16,
}

// The bytes of a turn: the oldest of those that wait, at most 64.
fn bytes_of_turn(waiting: &[u8]) -> &[u8]
    ensures { result.now ≡ take most_in_turn waiting.now }
{
    &waiting[..waiting.len().min(64)]
}

// Takes the oldest bytes of a line, at most 64, up to one that gives an answer; a closed line has no turn.
pub(crate) fn turn(
    marks: &mut [u8; 6],
    places: &mut [u16; 4],
    content: &mut [u8; 128],
    inbox: &[u8; 256],
) -> Option<Took>
    ensures { Turns (rows_behind marks.old places.old content.old inbox.now)
        (rows_behind marks.new places.new content.new inbox.now) result }
{
    let row = Row::read(marks, places);
    if row.opened == 0 {
        return None;
    }
    let waiting = inbox::waiting(inbox, row.first, row.count);
    let taken = line::feed(row.state, content, bytes_of_turn(waiting));
    let count = taken.count as u8;
    let then = Row {
        opened: row.opened,
        state: taken.line,
        first: row.first.min(256) + u16::from(count),
        count: (waiting.len() - taken.count) as u16,
    };
    *marks = then.marks();
    *places = then.places();
    Some(Took {
        count,
        heard: taken.heard,
        frame: taken.line.frame,
    })
}

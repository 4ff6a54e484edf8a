// The turns of a round, and what the sheet tells of them.
ghost use Rattle.std.specs.Prelude.{◌≡◌, ◌≤◌, length};
ghost use Rattle.station.specs.Memory.{behind, station_in};
ghost use Rattle.station.specs.Parts.{ServesLines, TakesTurns};

use crate::sheet::Pen;
use crate::{Contents, Inboxes, Marks, Places, turn};

// Gives each open line its turn, and tells of the turns on the sheet. Returns the counts.
pub(crate) fn serve(
    marks: &mut Marks,
    places: &mut Places,
    contents: &mut Contents,
    inboxes: &Inboxes,
    sheet: &mut [u8],
) -> [u8; 8]
    requires { 1096 ≤ length sheet.old }
    ensures { ServesLines (station_in (behind marks.old places.old contents.old inboxes.now)).lines sheet.old
        (station_in (behind marks.new places.new contents.new inboxes.now)).lines result sheet.new }
{
    let (counts, offsets) = turns(marks, places, contents, inboxes, sheet);
    sheet[..8].copy_from_slice(&counts);
    sheet[8..24].copy_from_slice(&offsets);
    counts
}

// Gives each open line its turn, and puts its entry. Returns the counts, and the offsets of the entries; those of a closed
// line stay zeros.
fn turns(
    marks: &mut Marks,
    places: &mut Places,
    contents: &mut Contents,
    inboxes: &Inboxes,
    sheet: &mut [u8],
) -> ([u8; 8], [u8; 16])
    requires { 1096 ≤ length sheet.old }
    ensures { TakesTurns (station_in (behind marks.old places.old contents.old inboxes.now)).lines sheet.old
        (station_in (behind marks.new places.new contents.new inboxes.now)).lines result.0 result.1 sheet.new }
{
    let mut counts = [0; 8];
    let mut offsets = [0; 16];
    let mut pen = Pen { sheet, at: 24 };
    for i in 0..8 {
        let told = turn::turn(&mut marks[i], &mut places[i], &mut contents[i], &inboxes[i]);
        let Some(took) = told else {
            continue;
        };
        counts[i] = took.count;
        let offset = pen.put_entry(took.heard, took.frame, contents[i]);
        let [low, high] = offset.to_le_bytes();
        offsets[2 * i] = low;
        offsets[2 * i + 1] = high;
    }
    (counts, offsets)
}

// What the types of the four arrays tell, as a statement (docs/PROMISES.md): the prover knows an array's own length
// wherever it is lent, and those of its rows where it comes by value. No code calls it.
ghost use Rattle.station.specs.Memory.{of_rows, Sized};

use crate::{Contents, Inboxes, Marks, Places};

pub(crate) fn sized(marks: Marks, places: Places, contents: Contents, inboxes: Inboxes)
    ensures { Sized (of_rows marks places contents inboxes) }
{}

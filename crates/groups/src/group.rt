// The fields of one group, as they were lent; an absent stamp is empty.
ghost use Rattle.std.specs.Prelude.{◌≡◌, ◌≤◌};
ghost use Rattle.groups.specs.Judging.{places_of, stamp_span, stamp_stretch};
ghost use Rattle.groups.specs.Inside.{fields_in};

use crate::{Fields, Stretch};

#[derive(Clone, Copy)]
pub(crate) struct Group<'a> {
    pub label: &'a [u8],
    pub stamp: &'a [u8],
    pub data: &'a [u8],
}

impl Group<'_> {
    // Where the fields stand in the content of the group.
    pub(crate) fn places(self) -> Fields
        ensures { result ≡ places_of (fields_in self.entry) }
    {
        let next = self.label.len() + 1;
        Fields {
            label: Stretch {
                start: 0,
                length: self.label.len(),
            },
            stamp: stamp_stretch(next, self.stamp.len()),
            data: Stretch {
                start: next + stamp_span(self.stamp.len()),
                length: self.data.len(),
            },
        }
    }
}

// How many characters a stamp of this length, and the separator behind it, take.
pub(crate) fn stamp_span(length: usize) -> usize
    ensures { (result ≡ stamp_span length) × (result ≤ 14) }
{
    if length == 0 { 0 } else { 14 }
}

// Where the stamp stands behind the label; an absent one stands at 0.
fn stamp_stretch(next: usize, length: usize) -> Stretch
    ensures { result ≡ stamp_stretch next length }
{
    let start = if length == 0 { 0 } else { next };
    Stretch { start, length }
}

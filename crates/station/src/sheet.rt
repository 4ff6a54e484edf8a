// A lent sheet that is written from a place on, and the entries on it.
ghost use Rattle.std.specs.Prelude.{◌≡◌, ◌+◌, ◌≤◌, length, take, drop};
ghost use Rattle.std.proofs.Math.Seq.{paste};
ghost use Rattle.station.specs.Parts.{Fits, Put, PutShort, group_entry, entry_heard, offset_heard};

use groups::Stretch;
use line::Heard;

// What is put next goes to the place `at`.
#[derive(Drop)]
pub struct Pen<'a> {
    pub sheet: &'a mut [u8],
    pub at: usize,
}

// The bytes of a field that lies inside the content. `groups::part` would test that: 2 % more instructions (bench/run).
fn text_of(content: &[u8; 128], field: Stretch) -> &[u8]
    requires { field.start + field.length ≤ 128 }
    ensures { result.now ≡ take field.length (drop field.start content.now) }
{
    &content[field.start..field.start + field.length]
}

impl Pen<'_> {
    pub(crate) fn put(&mut self, bytes: &[u8])
        requires { self.old.at + length bytes.now ≤ length self.old.sheet.now }
        ensures same_sheet { self.new.sheet.ghost_name ≡ self.old.sheet.ghost_name }
        ensures on { self.new.at ≡ self.old.at + length bytes.now }
        ensures written { self.new.sheet.now ≡ paste self.old.sheet.now self.old.at bytes.now (length bytes.now) }
    {
        let end = self.at + bytes.len();
        self.sheet[self.at..end].copy_from_slice(bytes);
        self.at = end;
    }

    // Puts the entry of an accepted group with these fields, and the two bytes of its frame's number.
    fn put_group(&mut self, label: &[u8], stamp: &[u8], data: &[u8], low: u8, high: u8)
        requires short { length label.now + (length stamp.now + length «data».now) ≤ 128 }
        requires room { self.old.at + 134 ≤ length self.old.sheet.now }
        ensures same_sheet { self.new.sheet.ghost_name ≡ self.old.sheet.ghost_name }
        ensures entry { Put self.old.at self.old.sheet.now (group_entry label.now stamp.now «data».now low high) self.new.at self.new.sheet.now }
    {
        self.put(&[
            1,
            label.len() as u8,
            stamp.len() as u8,
            data.len() as u8,
            low,
            high,
        ]);
        self.put(label);
        self.put(stamp);
        self.put(data);
    }

    // Puts the entry of what was heard in the frame with this number, if there was an answer. Its offset, or 0. The content
    // comes by value: lent, it might lie where the sheet does, and a round took 2 % more instructions (bench/run).
    pub(crate) fn put_entry(&mut self, heard: Heard, frame: u16, content: [u8; 128]) -> u16
        requires { Fits heard self.old.at (length self.old.sheet.now) }
        ensures same_sheet { self.new.sheet.ghost_name ≡ self.old.sheet.ghost_name }
        ensures entry { PutShort self.old.at self.old.sheet.now (entry_heard heard frame content) self.new.at self.new.sheet.now }
        ensures offset { result ≡ offset_heard heard self.old.at }
    {
        let offset = self.at as u16;
        let [low, high] = frame.to_le_bytes();
        match heard {
            Heard::Nothing => return 0,
            Heard::Accepted(fields) => self.put_group(
                text_of(&content, fields.label),
                text_of(&content, fields.stamp),
                text_of(&content, fields.data),
                low,
                high,
            ),
            Heard::Told(_) => {
                let number = line::number_of(heard);
                let place = line::place_of(heard);
                self.put(&[number, 0, 0, place, low, high]);
            }
        }
        offset
    }
}

// The writer: every test first, then the bytes, one piece after the other.
ghost use Rattle.std.specs.Prelude.{◌≡◌, [], ◌∷◌, map, ◌+◌, ◌%◌, ◌≤◌, ◌<◌, length};
ghost use Rattle.characters.specs.Wire.{wire_byte_of};
ghost use Rattle.groups.specs.Stamps.{is_stamped};
ghost use Rattle.groups.specs.Groups.{total, body, content as content_of, compose};
ghost use Rattle.groups.specs.Writing.{on_the_wire, into, Wrote};
ghost use Rattle.groups.specs.Stored.{rule_of};
ghost use Rattle.groups.specs.Inside.{fields_in, Laid, ShortRow, RightFields, write_by};

use crate::group::Group;
use crate::table::{Mark, Rule};
use crate::{Mode, Refusal, find, fitting, group, reading};

// What is put next goes to the place `at` of the lent buffer.
#[derive(Drop)]
struct Pen<'a> {
    buffer: &'a mut [u8],
    at: usize,
}

impl Pen<'_> {
    fn put(&mut self, text: &[u8])
        requires { self.old.at + length text.now ≤ length self.old.buffer.now }
        ensures same_buffer { self.new.buffer.ghost_name ≡ self.old.buffer.ghost_name }
        ensures laid { Laid self.old.buffer.now self.old.at (map wire_byte_of text.now) self.new.at self.new.buffer.now }
    {
        let at = self.at;
        for (i, code) in text.iter().enumerate() {
            self.buffer[at + i] = characters::wire_byte(*code);
        }
        self.at = at + text.len();
    }

    // Stamp and separator, where the label has a stamp, and data.
    fn put_body(&mut self, mode: Mode, mark: Mark, group: Group)
        requires { self.old.at + length (body mode (is_stamped mark) group.stamp.now group.«data».now) ≤ length self.old.buffer.now }
        ensures same_buffer { self.new.buffer.ghost_name ≡ self.old.buffer.ghost_name }
        ensures laid { Laid self.old.buffer.now self.old.at (map wire_byte_of (body mode (is_stamped mark) group.entry.stamp.now group.entry.«data».now)) self.new.at self.new.buffer.now }
    {
        if mark.is_stamped() {
            self.put(group.stamp);
            self.put(&[mode.separator()]);
        }
        self.put(group.data);
    }

    fn put_group(&mut self, mode: Mode, mark: Mark, group: Group)
        requires { self.old.at + length group.label.now + length (body mode (is_stamped mark) group.stamp.now group.«data».now) + 5 ≤ length self.old.buffer.now }
        ensures same_buffer { self.new.buffer.ghost_name ≡ self.old.buffer.ghost_name }
        ensures laid { Laid self.old.buffer.now self.old.at (on_the_wire (content_of mode group.entry.label.now (body mode (is_stamped mark) group.entry.stamp.now group.entry.«data».now))) self.new.at self.new.buffer.now }
    {
        let separator = mode.separator();
        let check = reading::check_from(mode, group.label, sum_of_body(mode, mark, group));
        self.put(&[characters::LF]);
        self.put(group.label);
        self.put(&[separator]);
        self.put_body(mode, mark, group);
        self.put(&[separator, check, characters::CR]);
    }
}

fn sum_of_body(mode: Mode, mark: Mark, group: Group) -> u8
    ensures { result ≡ total (body mode (is_stamped mark) group.entry.stamp.now group.entry.«data».now) % 256 }
{
    let data = reading::sum(group.data);
    if mark.is_stamped() {
        let front = reading::sum(group.stamp).wrapping_add(mode.separator());
        return front.wrapping_add(data);
    }
    data
}

// The group of these fields, by its label's rule.
fn write_by(mode: Mode, rule: Rule, group: Group, buffer: &mut [u8]) -> Result<usize, Refusal>
    requires { ShortRow (rule_of rule) group.label.now }
    ensures { Wrote (write_by mode (rule_of rule) (fields_in group.entry) (length buffer.old)) buffer.old result buffer.new }
{
    fitting::fit(rule, group)?;
    write_right(mode, rule, group, buffer)
}

// The same for fields that the rule takes.
fn write_right(mode: Mode, rule: Rule, group: Group, buffer: &mut [u8]) -> Result<usize, Refusal>
    requires { ShortRow (rule_of rule) group.label.now × RightFields (rule_of rule) group.stamp.now group.«data».now }
    ensures { Wrote (write_by mode (rule_of rule) (fields_in group.entry) (length buffer.old)) buffer.old result buffer.new }
{
    let span = group::stamp_span(group.stamp.len());
    let size = group.label.len() + 1 + span + group.data.len() + 4;
    if buffer.len() < size {
        return Err(Refusal::NoRoom);
    }
    let mut pen = Pen { buffer, at: 0 };
    pen.put_group(mode, rule.mark(), group);
    Ok(pen.at)
}

pub(crate) fn write_in(mode: Mode, group: Group, buffer: &mut [u8]) -> Result<usize, Refusal>
    ensures { Wrote (into (length buffer.old) (compose mode (fields_in group.entry))) buffer.old result buffer.new }
{
    let Some(rule) = find::find(mode, group.label, group.label.len()) else {
        return Err(Refusal::LabelUnknown);
    };
    write_by(mode, rule, group, buffer)
}

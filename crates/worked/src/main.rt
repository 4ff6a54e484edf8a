// Judges the worked groups and writes each accepted one again. Standard input is a row of records: a byte with the
// mode, two with the length, low byte first, and that many bytes of content. Each record gives a line: the answer's
// number, the place that it tells and, where the number is 1, label, stamp or `-`, and data, each after a space. An accepted
// group has a second line: `same` where writing those fields gives the group that was read, and `other` where it does not.
// The records, and the lines to expect of them, are made from the cases in groups.tsv by the script `make`.
//
// usage: ./espandim worked < RECORDS
#![tactic(auto)]

use characters::{CR, LF};
use groups::Fields;
use std::fmt::Write;
use std::io::Read;
use streams::{Page, Stopped, Streams};

// A field of a line, after the space that parts it from what stands before.
fn put_field(page: &mut Page, field: &[u8]) -> Result<(), Stopped> {
    page.put_all(b" ")?;
    page.put_all(field)
}

// The fields of an accepted group. An empty stamp is shown as `-`, or else the data could be taken for it.
fn put_fields(page: &mut Page, fields: Fields, content: &[u8]) -> Result<(), Stopped> {
    let stamp = groups::part(content, fields.stamp);
    put_field(page, groups::part(content, fields.label))?;
    put_field(page, if stamp.is_empty() { b"-" } else { stamp })?;
    put_field(page, groups::part(content, fields.data))
}

// Whether each byte is the wire byte of the character at its place.
fn on_wire(bytes: &[u8], text: &[u8]) -> bool {
    bytes.len() == text.len()
        && bytes
            .iter()
            .zip(text)
            .all(|(byte, code)| *byte == characters::wire_byte(*code))
}

// Whether the bytes are LF, the content and CR, as wire bytes.
fn holds_group(bytes: &[u8], content: &[u8]) -> bool {
    match bytes {
        [first, inside @ .., last] => {
            *first == characters::wire_byte(LF)
                && *last == characters::wire_byte(CR)
                && on_wire(inside, content)
        }
        _ => false,
    }
}

// Whether the group with these fields is written, and as this content.
fn comes_again(mode: u8, fields: Fields, content: &[u8]) -> bool {
    let label = groups::part(content, fields.label);
    let stamp = groups::part(content, fields.stamp);
    let data = groups::part(content, fields.data);
    let mut buffer = [0; 256];
    match groups::write(mode, label, stamp, data, &mut buffer) {
        Ok(count) => buffer
            .get(..count)
            .is_some_and(|written| holds_group(written, content)),
        Err(_) => false,
    }
}

// The lines of one group.
fn put_group(page: &mut Page, mode: u8, content: &[u8]) -> Result<(), Stopped> {
    let judgement = groups::judge(mode, content);
    let number = groups::number_of(judgement);
    let place = groups::place_told(judgement);
    write!(page, "{number} {place}")?;
    match judgement {
        Ok(fields) => {
            put_fields(page, fields, content)?;
            let again = comes_again(mode, fields, content);
            page.put_all(if again { b"\nsame\n" } else { b"\nother\n" })
        }
        Err(_) => page.put_all(b"\n"),
    }
}

// Reads one record into the room for its content: the mode and the content. There is none at the end of the input, and of
// a record that is cut short or has more than 256 bytes of content.
fn read_record<'a>(rt: &HostRuntime, room: &'a mut [u8; 256]) -> Option<(u8, &'a [u8])> {
    let mut input = rt.stdin();
    let mut head = [0; 3];
    input.read_exact(&mut head).ok()?;
    let [mode, low, high] = head;
    let content = room.get_mut(..u16::from_le_bytes([low, high]) as usize)?;
    input.read_exact(content).ok()?;
    Some((mode, content))
}

// Shows the lines of each record as it comes, up to the first write that fails. A proved loop has to end, and nothing says
// that an input does: the loop counts to a number that no run reaches.
fn show_all(rt: &HostRuntime) -> Result<(), Stopped> {
    let mut page = Page::new(Streams::new(rt, b"worked"));
    let mut room = [0; 256];
    for _ in 0..u64::MAX {
        let Some((mode, content)) = read_record(rt, &mut room) else {
            break;
        };
        put_group(&mut page, mode, content)?;
        page.flush()?;
    }
    Ok(())
}

fn main(rt: HostRuntime) {
    let _ = show_all(&rt);
}

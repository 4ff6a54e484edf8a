// The lines of the listing, laid into a text before they are written, so that contracts can say what they are.
ghost use Rattle.std.specs.Prelude.{[], ◌≡◌, ◌∷◌, ◌++◌, ◌+◌, ◌≤◌, length};
ghost use Rattle.arrayvec.specs.ArrayVec.{array_vec_len};
ghost use Rattle.characters.specs.Wire.{SP};
ghost use Rattle.groups.specs.Groups.{group_of};
ghost use Rattle.line.specs.Views.{FieldsInside};
ghost use Rattle.listing.specs.Listing.{digits, stamp_or_dash, fields_shown, place_shown};
ghost use Rattle.listing.specs.Parts.{lines_heard};

use arrayvec::ArrayVec;
use characters::{LF, SP};
use groups::Fields;
use line::Heard;

// Room for a line: the fields of a group have no more than the 128 bytes of its content, and a number of one digit, three
// spaces, a `-` and the LF are 6 more.
pub(crate) const LONGEST: usize = 134;

// A line, or as much of it as is laid.
pub(crate) type Text = ArrayVec<u8, LONGEST>;

// Lays several bytes behind those that are laid.
fn put_all(text: &mut Text, bytes: &[u8])
    requires { array_vec_len text.old + length bytes.now ≤ LONGEST }
    ensures { text.new.items ≡ text.old.items ++ bytes.now }
{
    text.try_extend_from_slice(bytes).unwrap();
}

// The digits of a number. Kept by hand: `write!` to this text does not promise which bytes it lays, as the clause does, and
// `io::decimal` lays them into a text of twenty from which they are then copied, which is no plainer.
#[tactic(auto, unfolding(crate::specs::Listing::digits, characters::specs::Answers::pick))]
fn put_number(text: &mut Text, number: u8)
    requires { array_vec_len text.old + 3 ≤ LONGEST }
    ensures { text.new.items ≡ text.old.items ++ digits number }
{
    match number {
        0..=9 => put_all(text, &[b'0' + number]),
        10..=99 => put_all(text, &[b'0' + number / 10, b'0' + number % 10]),
        100.. => put_all(
            text,
            &[
                b'0' + number / 100,
                b'0' + number / 10 % 10,
                b'0' + number % 10,
            ],
        ),
    }
}

// The place of a wrong stamp or of wrong data, after a space; no other refusal has one.
#[tactic(auto, unfolding(crate::specs::Listing::place_shown, characters::specs::Answers::pick))]
fn put_place(text: &mut Text, number: u8, place: u8)
    requires { array_vec_len text.old + 4 ≤ LONGEST }
    ensures { text.new.items ≡ text.old.items ++ place_shown number place }
{
    if number == 12 || number == 14 {
        text.push(SP);
        put_number(text, place);
    }
}

// A field of a line, after the space that parts it from what stands before.
fn put_field(text: &mut Text, field: &[u8])
    requires { array_vec_len text.old + 1 + length field.now ≤ LONGEST }
    ensures { text.new.items ≡ text.old.items ++ SP ∷ field.now }
{
    text.push(SP);
    put_all(text, field);
}

// An absent stamp is shown as `-`, or else the data could be taken for it.
fn put_stamp(text: &mut Text, stamp: &[u8])
    requires { array_vec_len text.old + 2 + length stamp.now ≤ LONGEST }
    ensures { text.new.items ≡ text.old.items ++ SP ∷ stamp_or_dash stamp.now }
{
    if stamp.is_empty() {
        text.push(SP);
        text.push(b'-');
    } else {
        put_field(text, stamp);
    }
}

// Label, stamp and data of an accepted group.
#[tactic(auto, unfolding(crate::specs::Listing::fields_shown))]
fn put_fields(text: &mut Text, label: &[u8], stamp: &[u8], data: &[u8])
    requires { array_vec_len text.old + 4 + length label.now + length stamp.now + length «data».now ≤ LONGEST }
    ensures { text.new.items ≡ text.old.items ++ fields_shown (group_of label.now stamp.now «data».now) }
{
    put_field(text, label);
    put_stamp(text, stamp);
    put_field(text, data);
}

// The line of an accepted group, whose fields lie in the content, in place of what stood in the text.
fn put_group(text: &mut Text, fields: Fields, content: &[u8; 128])
    requires { FieldsInside (Heard.Accepted fields) }
    ensures { text.new.items ≡ lines_heard (Heard.Accepted fields) content.now }
{
    *text = Text::new();
    put_number(text, 1);
    put_fields(
        text,
        groups::part(content, fields.label),
        groups::part(content, fields.stamp),
        groups::part(content, fields.data),
    );
    text.push(LF);
}

// The line of a notice in place of what stood in the text: its number, and the place of a refused group.
fn put_told(text: &mut Text, number: u8, place: u8)
    ensures { text.new.items ≡ (digits number ++ place_shown number place) ++ LF ∷ [] }
{
    *text = Text::new();
    put_number(text, number);
    put_place(text, number, place);
    text.push(LF);
}

// The line of what was heard, in place of what stood in the text; nothing heard has none. One text serves all lines: a new
// one for each would be copied.
pub(crate) fn put_line(text: &mut Text, heard: Heard, content: &[u8; 128])
    requires { FieldsInside heard }
    ensures { text.new.items ≡ lines_heard heard content.now }
{
    let number = line::number_of(heard);
    let place = line::place_of(heard);
    match heard {
        Heard::Nothing => *text = Text::new(),
        Heard::Accepted(fields) => put_group(text, fields, content),
        Heard::Told(_) => put_told(text, number, place),
    }
}

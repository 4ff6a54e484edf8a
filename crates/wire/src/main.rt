// Shows what came over the wire, byte by byte: a line for each byte of standard input, with the byte in hex and what it
// is: `unsound`, the name of a control character, the character itself, or, for any other, its number in hex.
//
// usage: ./espandim wire < CAPTURE
//
// Lines are gathered on a page and written when it is full, and when all that was read is shown: a line that is still
// being captured is shown as it comes, and a long capture takes few writes.
#![tactic(auto)]

ghost use Rattle.std.specs.Prelude.{length, ◌≡◌, ◌+◌, ◌<◌, ◌≤◌, OnOk};

use characters::{CR, EOT, ETX, HT, LF, SP, STX};
use streams::{Page, Stopped, Streams};

// The longest line is that of an unsound byte: two digits, a space, `unsound` and an LF.
const LONGEST: usize = 11;

// A digit, in hex.
fn digit(number: u8) -> u8
    requires { number < 16 }
{
    b"0123456789abcdef"[number as usize]
}

// Lays the line of a byte where there is room for it: the byte in hex, a space, and what it is, with the LF. The digits are laid
// by hand: with `write!` the program takes more than six times the instructions.
fn put_line<const N: usize>(page: &mut Page, wire: u8, what: &[u8; N]) -> Result<(), Stopped>
    requires { length page.old + 3 + N ≤ 4096 }
    ensures whole { OnOk result (length page.new ≡ length page.old + 3 + N) }
    ensures most { length page.new ≤ length page.old + 3 + N }
{
    page.put_array(&[digit(wire / 16), digit(wire % 16), b' '])?;
    page.put_array(what)
}

// The line of a sound byte.
fn put_sound(page: &mut Page, wire: u8) -> Result<(), Stopped>
    requires { length page.old + LONGEST ≤ 4096 }
    ensures { length page.new ≤ length page.old + 11 }
{
    let code = characters::character(wire);
    match code {
        STX => put_line(page, wire, b"STX\n"),
        ETX => put_line(page, wire, b"ETX\n"),
        EOT => put_line(page, wire, b"EOT\n"),
        HT => put_line(page, wire, b"HT\n"),
        LF => put_line(page, wire, b"LF\n"),
        CR => put_line(page, wire, b"CR\n"),
        SP => put_line(page, wire, b"SP\n"),
        0x21..=0x7E => put_line(page, wire, &[code, b'\n']),
        _ => put_line(page, wire, &[digit(code / 16), digit(code % 16), b'\n']),
    }
}

// The line of a byte, whole on a page that has room for the longest.
fn put(page: &mut Page, wire: u8) -> Result<(), Stopped>
    requires { length page.old + LONGEST ≤ 4096 }
    ensures { length page.new ≤ length page.old + 11 }
{
    if characters::sound(wire) {
        put_sound(page, wire)
    } else {
        put_line(page, wire, b"unsound\n")
    }
}

// Shows bytes, each line whole on a page.
fn show(page: &mut Page, bytes: &[u8]) -> Result<(), Stopped> {
    for wire in bytes {
        page.make_room(LONGEST)?;
        put(page, *wire)?;
    }
    page.flush()
}

// Shows all that comes. A proved loop has to end, and nothing says that an input does: this one ends after more turns than
// any run takes. Kept beside the like loop of `listing`, which says why.
fn show_all(streams: Streams) -> Result<(), Stopped> {
    let mut page = Page::new(streams);
    let mut piece = io::buffer();
    for _ in 0..u64::MAX {
        let count = streams.read(&mut piece)?;
        if count == 0 {
            break;
        }
        show(&mut page, &piece[..count])?;
    }
    Ok(())
}

// What could not be read or written has been said.
fn main(rt: HostRuntime) {
    let _ = show_all(Streams::new(&rt, b"wire"));
}

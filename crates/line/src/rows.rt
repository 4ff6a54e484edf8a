// Bytes that give no answer, in a row: those outside of groups, up to an LF that opens one, and the characters of a
// group, which are most of what comes. They are taken here in one go, for speed, and `step` takes the rest.
ghost use Rattle.std.specs.Prelude.{◌≡◌, true, not, ◌&&◌, ◌≤◌, fold, length, map};
ghost use Rattle.std.specs.List.{prefix_len};
ghost use Rattle.characters.specs.Wire.{STX, character_of};
ghost use Rattle.line.specs.ByBytes.{is};
ghost use Rattle.line.specs.Symbols.{symbol_of};
ghost use Rattle.line.specs.Runs.{goes_on, is_plain_byte, Lays, LaysOn, Passes, Runs};

use crate::rules::{Phase, Symbol};
use crate::state::Line;
use crate::{frames, rules};

// A line behind the bytes that were taken, and how many they were.
#[derive(Clone, Copy)]
pub struct Run {
    pub line: Line,
    pub count: usize,
}

// How many bytes at the front are no STX. Outside they do nothing; an STX is left to `step`: it begins a frame, and so no
// row has one.
fn pass_outside(bytes: &[u8]) -> usize
    ensures { result ≡ prefix_len (λ byte. not (is STX byte)) bytes.now }
{
    bytes
        .iter()
        .take_while(|&&byte| !frames::is_stx(byte))
        .count()
}

// Whether a byte of a frame, in no group, gives no answer and opens no group.
fn goes_on(byte: u8) -> bool
    ensures { result ≡ goes_on (symbol_of byte) }
{
    !matches!(
        rules::symbol_of(byte),
        Symbol::Stx | Symbol::Etx | Symbol::Eot | Symbol::Lf
    )
}

// How many bytes at the front only flaw a frame.
fn pass_noise(bytes: &[u8]) -> usize
    ensures { result ≡ prefix_len (λ byte. goes_on (symbol_of byte)) bytes.now }
{
    bytes.iter().take_while(|&&byte| goes_on(byte)).count()
}

// Takes bytes of a frame while they give no answer, up to and with an LF. Behind a group an LF comes as a rule, so it is
// looked for first. Its wire byte is its code, since that has two ones.
fn pass_frame(flaw: bool, bytes: &[u8]) -> (Phase, usize)
    ensures { Passes (Phase.Frame flaw) bytes.now result.0 result.1 }
{
    if let [characters::LF, ..] = bytes {
        return (Phase::Group(flaw, false, false), 1);
    }
    let count = pass_noise(bytes);
    let flawed = flaw | (0 < count);
    if let Some(&characters::LF) = bytes.get(count) {
        return (Phase::Group(flawed, false, false), count + 1);
    }
    (Phase::Frame(flawed), count)
}

// Takes the bytes at the front that give no answer, where the line is in no group: up to and with an LF that opens one.
fn take_quiet(line: Line, bytes: &[u8]) -> Run
    ensures { (content : _) → Runs line content bytes.now result content }
{
    match line.phase {
        Phase::Outside => Run {
            line: line.turned(Phase::Outside, 0),
            count: pass_outside(bytes),
        },
        Phase::Frame(flaw) => {
            let (phase, count) = pass_frame(flaw, bytes);
            Run {
                line: line.turned(phase, 0),
                count,
            }
        }
        Phase::Group(_, _, _) => Run { line, count: 0 },
    }
}

// Whether a byte is sound and one of the characters that groups are made of: no control character but HT.
#[tactic(auto, unfolding(crate::specs::Runs::is_plain_byte))]
fn is_plain(byte: u8) -> bool
    ensures { result ≡ is_plain_byte byte }
{
    characters::sound(byte)
        & ((characters::SP <= characters::character(byte)) | (byte == characters::HT))
}

// Whether eight bytes are plain. No test leaves the chain, so that the compiler tests all eight at once.
fn are_plain(eight: &[u8; 8]) -> bool
    ensures { result ≡ fold (λ plain byte. plain && is_plain_byte byte) true eight.now }
{
    eight
        .iter()
        .fold(true, |plain, &byte| plain & is_plain(byte))
}

// The characters of eight bytes.
fn codes_of(eight: &[u8; 8]) -> [u8; 8]
    ensures { result ≡ map character_of eight.now }
{
    eight.map(characters::character)
}

// Adds the plain characters at the front, eight by eight, and tells how many they are. The room is written by place: of what a
// chain over `chunks_exact_mut` writes, a proof knows the length alone.
fn add_eights(room: &mut [u8], bytes: &[u8]) -> usize
    requires { length bytes.now ≤ length room.old }
    ensures { Lays room.old bytes.now result room.new }
{
    let mut count = 0;
    while let Some(eight) = bytes[count..].first_chunk::<8>() {
        if !are_plain(eight) {
            return count;
        }
        let codes = codes_of(eight);
        room[count..count + 8].copy_from_slice(&codes);
        count += 8;
    }
    count
}

// Adds the characters from a place on, one by one, and tells the place behind them. The place is handed over, since what was
// laid before it counts in the contract.
fn add_rest(room: &mut [u8], bytes: &[u8], from: usize) -> usize
    requires { (from ≤ length bytes.now) × (length bytes.now ≤ length room.old) }
    ensures { LaysOn bytes.now from room.old result room.new }
{
    for i in from..bytes.len() {
        let Symbol::Text(code) = rules::symbol_of(bytes[i]) else {
            return i;
        };
        room[i] = code;
    }
    bytes.len()
}

// Adds the characters at the front of the bytes, as far as there is room, and tells how many they are.
fn add_text(room: &mut [u8], bytes: &[u8]) -> usize
    ensures { Lays room.old bytes.now result room.new }
{
    let most = room.len().min(bytes.len());
    let fits = &bytes[..most];
    let from = add_eights(room, fits);
    add_rest(room, fits, from)
}

// Takes the bytes at the front that give no answer, as far as they are taken in a row.
pub(crate) fn take_row(line: Line, content: &mut [u8; 128], bytes: &[u8]) -> Run
    ensures { Runs line content.old bytes.now result content.new }
{
    let quiet = take_quiet(line, bytes);
    match quiet.line.phase {
        Phase::Group(_, _, _) => {
            let held = quiet.line.held;
            let rest = &bytes[quiet.count..];
            let more = add_text(&mut content[held as usize..], rest);
            Run {
                line: quiet.line.turned(quiet.line.phase, held + more as u16),
                count: quiet.count + more,
            }
        }
        _ => quiet,
    }
}

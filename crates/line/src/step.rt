// One byte.
ghost use Rattle.std.specs.Prelude.{◌≡◌};
ghost use Rattle.line.specs.Symbols.{symbol_of};
ghost use Rattle.line.specs.Rules.{move};
ghost use Rattle.line.specs.Steps.{heard_of, ended_of, reacted, Stepped};

use crate::rules::{Move, Phase};
use crate::state::Line;
use crate::{Heard, Notice, frames, rules};
use groups::Refusal;

// What a byte did: the line afterwards, and what it gave.
#[derive(Clone, Copy)]
pub struct Reaction {
    pub line: Line,
    pub heard: Heard,
}

// What a group that is complete gives.
#[tactic(auto, unfolding(crate::specs::Steps::heard_of, characters::specs::Answers::pick))]
fn judged(mode: u8, damaged: bool, overlong: bool, content: &[u8]) -> Heard
    ensures { result ≡ heard_of mode damaged overlong content.now }
{
    if damaged {
        return Heard::Told(Notice::GroupDamaged);
    }
    if overlong {
        return Heard::Told(Notice::GroupRefused(Refusal::TooLong, 0));
    }
    match groups::judge(mode, content) {
        Ok(fields) => Heard::Accepted(fields),
        Err(fault) => Heard::Told(Notice::GroupRefused(fault.refusal, fault.place as u8)),
    }
}

// What a byte does. Almost every row of characters ends with the CR of its group, so that is looked for first.
fn move_of(phase: Phase, byte: u8) -> Move
    ensures { result ≡ move phase (symbol_of byte) }
{
    if byte == characters::wire_byte(characters::CR) {
        if let Phase::Group(flaw, damaged, overlong) = phase {
            return Move::Judges(flaw, damaged, overlong);
        }
    }
    rules::moved(phase, rules::symbol_of(byte))
}

// The frame goes on behind a group; one that is not accepted leaves it flawed.
fn ended(line: Line, flaw: bool, heard: Heard) -> Reaction
    ensures { (content : _) → Stepped (ended_of line.mode line.frame flaw heard content) result content }
{
    let flawed = flaw | !matches!(heard, Heard::Accepted(_));
    Reaction {
        line: line.turned(Phase::Frame(flawed), 0),
        heard,
    }
}

// What a byte does to a line; the number of its frame is then the one after the byte.
#[tactic(auto, unfolding(characters::specs::Answers::pick))]
pub(crate) fn step(mut line: Line, content: &mut [u8; 128], byte: u8) -> Reaction
    ensures { Stepped (reacted line content.old byte) result content.new }
{
    line.frame = frames::after(line.frame, byte);
    let held = line.held;
    match move_of(line.phase, byte) {
        Move::Quiet(phase) => quiet(line.turned(phase, held)),
        Move::Opens(flaw) => quiet(line.turned(Phase::Group(flaw, false, false), 0)),
        Move::Says(phase, notice) => Reaction {
            line: line.turned(phase, 0),
            heard: Heard::Told(notice),
        },
        Move::Adds(flaw, damaged, overlong, code) => {
            if held < 128 {
                content[held as usize] = code;
                quiet(line.turned(Phase::Group(flaw, damaged, overlong), held + 1))
            } else {
                quiet(line.turned(Phase::Group(flaw, damaged, true), held))
            }
        }
        Move::Judges(flaw, damaged, overlong) => {
            let text = &content[..held as usize];
            ended(line, flaw, judged(line.mode, damaged, overlong, text))
        }
    }
}

fn quiet(line: Line) -> Reaction
    ensures { result ≡ record { line = line; heard = Heard.Nothing } }
{
    Reaction {
        line,
        heard: Heard::Nothing,
    }
}

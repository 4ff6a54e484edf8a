// The frame rules: what a symbol does to a line, before any judging.
ghost use Rattle.std.specs.Prelude.{◌≡◌};
ghost use Rattle.line.specs.Symbols.{symbol_of};
ghost use Rattle.line.specs.Rules.{frame_end, move};

use crate::Notice;

// What a wire byte is to a line.
#[derive(Clone, Copy)]
pub enum Symbol {
    Stx,
    Etx,
    Eot,
    Lf,
    Cr,
    Damaged,
    Text(u8),
}

// Where a line is: outside; in a frame, flawed or not; in a group of a frame, flawed or not, that is damaged or not and
// too long or not. The three flags are no struct of their own: with one a byte takes 8 to 10 % more instructions (tally).
#[derive(Clone, Copy)]
pub enum Phase {
    Outside,
    Frame(bool),
    Group(bool, bool, bool),
}

// What a symbol does: it moves the line and gives no answer; it opens an empty group in a frame, flawed or not; it moves
// the line and gives a notice; it adds a character to the group; it ends the group, which is then judged.
#[derive(Clone, Copy)]
pub enum Move {
    Quiet(Phase),
    Opens(bool),
    Says(Phase, Notice),
    Adds(bool, bool, bool, u8),
    Judges(bool, bool, bool),
}

#[tactic(auto, unfolding(crate::specs::Symbols::symbol_of, crate::specs::Symbols::sound_symbol, characters::specs::Answers::pick))]
pub(crate) fn symbol_of(byte: u8) -> Symbol
    ensures { result ≡ symbol_of byte }
{
    if !characters::sound(byte) {
        return Symbol::Damaged;
    }
    match characters::character(byte) {
        characters::STX => Symbol::Stx,
        characters::ETX => Symbol::Etx,
        characters::EOT => Symbol::Eot,
        characters::LF => Symbol::Lf,
        characters::CR => Symbol::Cr,
        code => Symbol::Text(code),
    }
}

pub(crate) fn moved(phase: Phase, symbol: Symbol) -> Move
    ensures { result ≡ move phase symbol }
{
    match phase {
        Phase::Outside => moved_outside(symbol),
        Phase::Frame(flaw) => moved_in_frame(flaw, symbol),
        Phase::Group(flaw, damaged, overlong) => moved_in_group(flaw, damaged, overlong, symbol),
    }
}

// Kept here and below with an arm for each symbol, where several give the same: each is a line of document 01, and stands so in
// specs/Rules.antt.
fn moved_outside(symbol: Symbol) -> Move
    ensures { result ≡ move Phase.Outside symbol }
{
    match symbol {
        Symbol::Stx => Move::Quiet(Phase::Frame(false)),
        Symbol::Etx => Move::Quiet(Phase::Outside),
        Symbol::Eot => Move::Quiet(Phase::Outside),
        Symbol::Lf => Move::Quiet(Phase::Outside),
        Symbol::Cr => Move::Quiet(Phase::Outside),
        Symbol::Damaged => Move::Quiet(Phase::Outside),
        Symbol::Text(_) => Move::Quiet(Phase::Outside),
    }
}

fn moved_in_frame(flaw: bool, symbol: Symbol) -> Move
    ensures { result ≡ move (Phase.Frame flaw) symbol }
{
    match symbol {
        Symbol::Stx => Move::Says(Phase::Frame(false), Notice::FrameRestarted), // whatever the flaw
        Symbol::Etx => Move::Says(Phase::Outside, frame_end(flaw)),
        Symbol::Eot => Move::Says(Phase::Outside, Notice::FrameInterrupted),
        Symbol::Lf => Move::Opens(flaw),
        Symbol::Cr => Move::Quiet(Phase::Frame(true)),
        Symbol::Damaged => Move::Quiet(Phase::Frame(true)),
        Symbol::Text(_) => Move::Quiet(Phase::Frame(true)),
    }
}

fn frame_end(flaw: bool) -> Notice
    ensures { result ≡ frame_end flaw }
{
    if flaw {
        return Notice::FrameFlawed;
    }
    Notice::FrameSound
}

fn moved_in_group(flaw: bool, damaged: bool, overlong: bool, symbol: Symbol) -> Move
    ensures { result ≡ move (Phase.Group flaw damaged overlong) symbol }
{
    match symbol {
        Symbol::Stx => Move::Says(Phase::Frame(false), Notice::FrameRestarted), // and the group is gone
        Symbol::Etx => Move::Says(Phase::Outside, Notice::FrameFlawed),
        Symbol::Eot => Move::Says(Phase::Outside, Notice::FrameInterrupted),
        Symbol::Lf => Move::Says(Phase::Group(true, false, false), Notice::GroupRestarted),
        Symbol::Cr => Move::Judges(flaw, damaged, overlong),
        Symbol::Damaged => Move::Quiet(Phase::Group(flaw, true, overlong)),
        Symbol::Text(code) => Move::Adds(flaw, damaged, overlong, code),
    }
}

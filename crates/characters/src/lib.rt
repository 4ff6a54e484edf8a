// Characters on the wire: seven data bits with an even parity bit on top.
#![tactic(auto)]

ghost use Rattle.std.specs.Prelude.{◌≡◌};
ghost use Rattle.characters.specs.Wire.{is_sound, character_of, wire_byte_of};

// The characters that the line and its groups are made with.
pub const STX: u8 = 0x02;

pub const ETX: u8 = 0x03;

pub const EOT: u8 = 0x04;

pub const HT: u8 = 0x09;

pub const LF: u8 = 0x0A;

pub const CR: u8 = 0x0D;

pub const SP: u8 = 0x20;

// Whether a wire byte came with even parity.
pub fn sound(wire: u8) -> bool
    ensures { result ≡ is_sound wire }
{
    u8::count_ones(wire) % 2 == 0
}

// The character of a wire byte.
pub fn character(wire: u8) -> u8
    ensures { result ≡ character_of wire }
{
    wire % 128
}

// The sound wire byte of a character, and of the low seven bits of a number that is none.
pub fn wire_byte(code: u8) -> u8
    ensures { result ≡ wire_byte_of code }
{
    let bits = code % 128;
    bits + 128 * ((u8::count_ones(bits) % 2) as u8)
}

// Looking a label up in its mode's list, which is sorted by bytes: std halves the range of rows until one is left (M-107).
//
// A label is compared by its first eight bytes as one number, the first on top, so that the order of these keys is that of the
// bytes; no two labels of a mode have the same. Of the row with that key, the length and the ninth byte are compared too.
ghost use Rattle.std.specs.Prelude.{◌≡◌, [], ◌∷◌, ◌+◌, ◌*◌, ◌/◌, ◌^◌, ◌-◌, ◌≤◌, T as So, length, take};
ghost use Rattle.groups.specs.Table.{lookup, rows};
ghost use Rattle.std.specs.Option.{option_copied};
ghost use Rattle.groups.specs.Stored.{rule_found};
ghost use Rattle.groups.specs.Packed.{packed, key_of, ninth_of, is_named, rising, Finds, Decides};

use crate::table::{Row, Rule};
use crate::{Mode, table};

// The key of the first n bytes of a text, byte by byte from the last one on.
fn key_by_bytes(text: &[u8], n: usize) -> u64
    requires { n ≤ length text.now }
    ensures { result ≡ key_of (take n text.now) }
{
    let behind_first = text[..n].iter().rev();
    behind_first.fold(
        0,
        |key: u64, byte| key / 256 + u64::from(*byte) * 0x0100_0000_0000_0000,
    )
}

// Four bytes as one number.
fn four(a: u8, b: u8, c: u8, d: u8) -> u32
    ensures { result ≡ packed 4 (a ∷ b ∷ c ∷ d ∷ []) }
{
    a as u32 * 0x0100_0000 + b as u32 * 0x0001_0000 + c as u32 * 0x0100 + d as u32
}

// The first eight bytes of a text as one number. They are taken in two halves, since then the compiler takes all at once.
fn first_eight(text: &[u8]) -> u64
    requires { 8 ≤ length text.now }
    ensures { result ≡ packed 8 text.now }
{
    let high = four(text[0], text[1], text[2], text[3]);
    let low = four(text[4], text[5], text[6], text[7]);
    high as u64 * 0x0001_0000_0000 + low as u64
}

// Eight bytes in one number with all but the first n made 0.
fn cut(eight: u64, n: usize) -> u64
    ensures { result ≡ eight / 256 ^ (8 - n) * 256 ^ (8 - n) }
{
    match n {
        0 => 0,
        1 => eight / 0x0100_0000_0000_0000 * 0x0100_0000_0000_0000,
        2 => eight / 0x0001_0000_0000_0000 * 0x0001_0000_0000_0000,
        3 => eight / 0x0100_0000_0000 * 0x0100_0000_0000,
        4 => eight / 0x0001_0000_0000 * 0x0001_0000_0000,
        5 => eight / 0x0100_0000 * 0x0100_0000,
        6 => eight / 0x0001_0000 * 0x0001_0000,
        7 => eight / 0x0100 * 0x0100,
        _ => eight,
    }
}

// The key of the first n bytes of a text.
fn key_of(text: &[u8], n: usize) -> u64
    requires { n ≤ length text.now }
    ensures { result ≡ key_of (take n text.now) }
{
    if text.len() < 8 {
        return key_by_bytes(text, n);
    }
    cut(first_eight(text), n)
}

// The ninth of the first n bytes of a text, or 0 where there is none.
fn ninth_of(text: &[u8], n: usize) -> u8
    requires { n ≤ length text.now }
    ensures { result ≡ ninth_of (take n text.now) }
{
    if n < 9 { 0 } else { text[8] }
}

// Whether the row that has a label's key is the label's: whether length and ninth byte are the same too.
fn is_named(row: &Row, n: usize, ninth: u8) -> bool
    ensures { result ≡ is_named n ninth row.now }
{
    (n == usize::from(row.length)) & (ninth == row.ninth)
}

// The row that has this key, of rows in the order of their keys. It is generic in their number, since the compiler then knows
// how often they are halved: over a slice of any length the line takes 5 to 8 % more instructions, and with a copy of the row
// in place of a loan 1 to 3 % more (docs/DECISIONS.md, 48).
fn row_with<const N: usize>(rows: &[Row; N], key: u64) -> Option<&Row>
    requires { So (rising rows.now) }
    ensures { Finds rows.now key (option_copied result) }
{
    match rows.binary_search_by_key(&key, |row| row.key) {
        Ok(at) => Some(&rows[at]),
        Err(_) => None,
    }
}

// The row that has this key in the list of a mode.
fn row_of(mode: Mode, key: u64) -> Option<&'static Row>
    ensures { Decides mode key (option_copied result) }
{
    match mode {
        Mode::Historic => row_with(&table::HISTORIC, key),
        Mode::Standard => row_with(&table::STANDARD, key),
        Mode::Business => row_with(&table::BUSINESS, key),
    }
}

// No label has more bytes.
const LONGEST: usize = 9;

// The rule of a label, the first n bytes of a text, in a mode's list. It is put into the reader and the writer: as a function
// of its own it hands the rule over through memory, for 50 instructions more a writing and 18 more a judging.
#[inline(always)]
pub(crate) fn find(mode: Mode, text: &[u8], n: usize) -> Option<Rule>
    requires { n ≤ length text.now }
    ensures { rule_found result ≡ lookup (take n text.now) (rows mode) }
{
    if n == 0 || LONGEST < n {
        return None;
    }
    let row = row_of(mode, key_of(text, n))?;
    if is_named(row, n, ninth_of(text, n)) {
        Some(row.rule)
    } else {
        None
    }
}

// Stamps: a season letter, then YYMMDDhhmmss.
ghost use Rattle.std.specs.Prelude.{◌≡◌, ◌+◌, ◌-◌, ◌≤◌, ◌<◌, length, get_or};
ghost use Rattle.groups.specs.Stamps.{two_digits, days_in, date_right, season_right, stamp_right};

use crate::fitting;
use crate::table::{Kind, Mark};

// What a digit stands for.
fn digit(code: u8) -> u32
    requires { 48 ≤ code }
    ensures { (result ≡ code - 48) × (result < 256) }
{
    u32::from(code - b'0')
}

// The number that two digits are.
fn two_digits(text: &[u8], at: usize) -> u32
    requires { (at + 1 < length text.now) × (48 ≤ get_or text.now at 0) × (48 ≤ get_or text.now (at + 1) 0) }
    ensures { (result ≡ two_digits text.now at) × (result < 4000) }
{
    digit(text[at]) * 10 + digit(text[at + 1])
}

fn days_in(year: u32, month: u32) -> u32
    ensures { result ≡ days_in year month }
{
    match month {
        2 if year % 4 == 0 => 29,
        2 => 28,
        4 | 6 | 9 | 11 => 30,
        _ => 31,
    }
}

fn date_right(stamp: &[u8]) -> bool
    requires { length stamp.now ≡ 13 }
    ensures { result ≡ date_right stamp.now }
{
    if fitting::wrong_at(Kind::Digits, &stamp[1..]) != 12 {
        return false;
    }
    let month = two_digits(stamp, 3);
    let days = days_in(two_digits(stamp, 1), month);
    let day = two_digits(stamp, 5);
    let in_year = (1 <= month) & (month <= 12);
    let in_month = (1 <= day) & (day <= days);
    in_year
        & in_month
        & (two_digits(stamp, 7) <= 23)
        & (two_digits(stamp, 9) <= 59)
        & (two_digits(stamp, 11) <= 59)
}

fn season_right(mark: Mark, code: u8) -> bool
    ensures { result ≡ season_right mark code }
{
    match mark {
        Mark::Unstamped => false,
        Mark::Letter => matches!(code, b'H' | b'E' | b'h' | b'e'),
        Mark::Space => code == characters::SP,
    }
}

// Whether a stamp is the one that a mark asks for; no stamp is the empty one.
pub(crate) fn stamp_right(mark: Mark, stamp: &[u8]) -> bool
    ensures { result ≡ stamp_right mark stamp.now }
{
    if !mark.is_stamped() {
        return stamp.is_empty();
    }
    if stamp.len() != 13 {
        return false;
    }
    season_right(mark, stamp[0]) & date_right(stamp)
}

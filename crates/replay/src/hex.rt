// Bytes in hex.
// Kept by hand: a `Display` with `{:02x}` takes three times the instructions of the whole program, and `io::hex` lays digits into
// a text of sixteen from which they are then copied; neither is plainer than these two digits.
ghost use Rattle.std.specs.Prelude.{◌∷◌, ◌≡◌, ◌<◌, OnOk};
ghost use Rattle.io.specs.Digits.{hex_digit_ascii};
ghost use Rattle.streams.specs.Page.{with_bytes};
ghost use Rattle.replay.specs.Hex.{hex_field};

use streams::{Page, Stopped};

fn digit(number: u8) -> u8
    requires { number < 16 }
    ensures { result ≡ hex_digit_ascii number }
{
    if number < 10 {
        b'0' + number
    } else {
        b'a' - 10 + number
    }
}

// Lays bytes in hex, in small letters, as a field of a line, behind the space that parts it from what stands before. No bytes
// are `-`, or else the field could not be seen.
pub(crate) fn put_hex(page: &mut Page, bytes: &[u8]) -> Result<(), Stopped>
    ensures { OnOk result (page.new ≡ with_bytes page.old (32 ∷ hex_field bytes.now)) }
{
    if bytes.is_empty() {
        return page.put_all(b" -");
    }
    page.put_all(b" ")?;
    for byte in bytes {
        page.put_all(&[digit(*byte / 16), digit(*byte % 16)])?;
    }
    Ok(())
}

// A quick way to say yes to the data of mode 2. A form is held as two texts, of the lowest and the highest character that it
// takes in each place, so that many characters are tested at once. Where it says no, `fitting.rt` decides by the pictures.
ghost use Rattle.std.specs.Prelude.{◌≡◌, true, ◌&&◌, nat_le, fold, T as So, length};
ghost use Rattle.std.specs.List.{zip};
ghost use Rattle.groups.specs.Forms.{fits, some_fits};
ghost use Rattle.groups.specs.Formats.{form_of, forms as forms_of};
ghost use Rattle.groups.specs.Table.{codes};
ghost use Rattle.groups.specs.Stored.{format_at, formats_from, Bounded};

use crate::table::Forms;

// Whether each character lies between those of two texts in its place. No test leaves the chain, so that the compiler tests
// many at once.
fn all_between<const N: usize>(low: &[u8; N], high: &[u8; N], codes: &[u8; N]) -> bool
    ensures { result ≡ fold (λ right p. right && nat_le p.0.0 p.1 && nat_le p.1 p.0.1) true (zip (zip low.now high.now) codes.now) }
{
    low.iter()
        .zip(high)
        .zip(codes)
        .fold(true, |right, ((low, high), code)| {
            right & (low <= code) & (code <= high)
        })
}

// Whether data have at least so many characters, and lie between the ends of two texts: behind the front of the lowest, all do.
fn lies_between<const N: usize>(least: usize, low: &[u8; N], high: &[u8; N], data: &[u8]) -> bool
    ensures { result ≡ true → Bounded least low.now high.now «data».now }
{
    let n = data.len();
    if n < least || N < n {
        return false;
    }
    let mut codes = *low;
    let room = &mut codes[..];
    room[N - n..].copy_from_slice(data);
    all_between(low, high, &codes)
}

// Whether the form of a number takes data: only a yes is sure. A tangent is written with a comma or with a point; what lies
// between these two is a minus.
#[inline(never)]
fn surely_takes(number: usize, data: &[u8]) -> bool
    ensures { result ≡ true → So (fits (form_of (format_at number)) «data».now) }
{
    match number {
        0 => lies_between(4, b"TEST", b"TEST", data),
        1 => lies_between(17, b"00/00/00 00:00:00", b"99/99/99 99:99:99", data),
        2 => lies_between(3, b"0000000Wh", b"9999999Wh", data),
        3 => lies_between(5, b"0000000varh", b"9999999varh", data),
        4 => lies_between(4, b"0000000VAh", b"9999999VAh", data),
        5 => lies_between(5, b"ACTIF", b"ACTIF", data),
        6 => lies_between(7, b"INACTIF", b"INACTIF", data),
        7 => lies_between(6, b"TD-   ", b"TD-~~~", data),
        8 => lies_between(21, b"00/00/00 00:00:00-   ", b"99/99/99 99:99:99-~~~", data),
        9 => lies_between(8, b"CONTROLE", b"CONTROLE", data),
        10 => lies_between(5, b"CONSO", b"CONSO", data),
        11 => lies_between(4, b"PROD", b"PROD", data),
        12 => lies_between(3, b"00000kW", b"99999kW", data),
        13 => lies_between(4, b"00000TkW", b"99999TkW", data),
        14 => lies_between(4, b"0000000kWh", b"9999999kWh", data),
        15 => lies_between(6, b"0000000kvarh", b"9999999kvarh", data),
        16 => lies_between(3, b"00000kW", b"99999kW", data),
        17 => lies_between(4, b"00000kVA", b"99999kVA", data),
        18 => lies_between(3, b"DEP", b"DEP", data),
        19 => lies_between(4, b"DEP ", b"DEP ", data),
        20 => lies_between(3, b"00000kW", b"99999kW", data),
        21 => lies_between(4, b"00000,00", b"99999,99", data)
            || lies_between(4, b"00000.00", b"99999.99", data),
        22 => lies_between(5, b"-0,00", b"-9,99", data)
            || lies_between(5, b"-0.00", b"-9.99", data),
        23 => lies_between(6, b"-00,00", b"-99,99", data)
            || lies_between(6, b"-00.00", b"-99.99", data),
        24 => lies_between(7, b"-000,00", b"-999,99", data)
            || lies_between(7, b"-000.00", b"-999.99", data),
        25 => lies_between(8, b"-0000,00", b"-9999,99", data)
            || lies_between(8, b"-0000.00", b"-9999.99", data),
        26 => lies_between(12, b"            ", b"~~~~~~~~~~~~", data),
        27 => lies_between(10, b"          ", b"~~~~~~~~~~", data),
        28 => lies_between(1, b"   ", b"~~~", data),
        29 => lies_between(3, b"   ", b"~~~", data),
        _ => false,
    }
}

// Whether one of the forms takes data: only a yes is sure.
pub(crate) fn surely_fits(forms: Forms, data: &[u8]) -> bool
    ensures { result ≡ true → So (some_fits (forms_of (formats_from forms.first forms.count)) «data».now) }
{
    let first = usize::from(forms.first);
    for i in 0..usize::from(forms.count) {
        if surely_takes(first + i, data) {
            return true;
        }
    }
    false
}

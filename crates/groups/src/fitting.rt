// What a rule asks of stamp and data; reader and writer both ask it.
ghost use Rattle.std.specs.Prelude.{◌≡◌, true, ◌&&◌, ◌≤◌, fold, length};
ghost use Rattle.std.specs.List.{prefix_len};
ghost use Rattle.groups.specs.Kinds.{of_kind};
ghost use Rattle.groups.specs.Forms.{takes};
ghost use Rattle.groups.specs.Formats.{forms as forms_of};
ghost use Rattle.groups.specs.Stored.{plain_rule, formed_rule, rule_of, form_in, formats_from};
ghost use Rattle.groups.specs.Place.{agreed as agreed_of, reach as reach_of, furthest as furthest_of, first_wrong};
ghost use Rattle.groups.specs.Inside.{fields_in, fitness, RightUpTo};

use crate::group::Group;
use crate::table::{Form, Forms, Kind, Plain, Rule};
use crate::{Refusal, quick, stamps, table};

pub(crate) fn of_kind(kind: Kind, code: u8) -> bool
    ensures { result ≡ of_kind kind code }
{
    match kind {
        Kind::Digits => matches!(code, b'0'..=b'9'),
        // in two, since with both ranges in one the compiler tests the eight of a chain one by one
        Kind::Hex => matches!(code, b'0'..=b'9') | matches!(code, b'A'..=b'F'),
        Kind::Text => matches!(code, b' '..=b'~'),
    }
}

// Whether eight characters are of the kind. No test leaves the chain, so that the compiler tests all eight at once.
fn eight_of_kind(kind: Kind, eight: &[u8; 8]) -> bool
    ensures { result ≡ fold (λ right code. right && of_kind kind code) true eight.now }
{
    eight
        .iter()
        .fold(true, |right, &code| right & of_kind(kind, code))
}

// How many characters at the front are of the kind, by eights: the first that is not is none of them.
fn eights_of_kind(kind: Kind, text: &[u8]) -> usize
    ensures { RightUpTo (of_kind kind) text.now result }
{
    let mut count = 0;
    while let Some(eight) = text[count..].first_chunk::<8>() {
        if !eight_of_kind(kind, eight) {
            return count;
        }
        count += 8;
    }
    count
}

// The place of the first character that is not of the kind, looked for one by one; the length where all are.
fn wrong_among(kind: Kind, text: &[u8]) -> usize
    ensures { result ≡ prefix_len (of_kind kind) text.now }
{
    text.iter().take_while(|&&code| of_kind(kind, code)).count()
}

// The same, eight by eight as far as it goes: one by one, data of 98 characters take three times as long.
fn wrong_by_eights(kind: Kind, text: &[u8]) -> usize
    ensures { result ≡ prefix_len (of_kind kind) text.now }
{
    let count = eights_of_kind(kind, text);
    count + wrong_among(kind, &text[count..])
}

// The place of the first character that is not of the kind; the length where all are.
// Short data, as most are, are not tried by eights: that takes a hundredth less of judging in historic mode.
pub(crate) fn wrong_at(kind: Kind, text: &[u8]) -> usize
    ensures { result ≡ prefix_len (of_kind kind) text.now }
{
    if text.len() < 8 {
        wrong_among(kind, text)
    } else {
        wrong_by_eights(kind, text)
    }
}

// Whether a character of a picture takes a character of data.
fn taken(picture: u8, code: u8) -> bool
    ensures { result ≡ takes picture code }
{
    match picture {
        b'9' => of_kind(Kind::Digits, code),
        b'0' => of_kind(Kind::Hex, code),
        b'*' => of_kind(Kind::Text, code),
        b',' => matches!(code, b',' | b'.'),
        _ => code == picture,
    }
}

// How many characters of data, from the first on, a picture of their length takes. Kept as a `for`: after `zip` and `take_while`
// the goal that `count` is `agreed_of` stays open.
fn agreed(picture: &[u8], data: &[u8]) -> usize
    requires { length picture.now ≡ length «data».now }
    ensures { result ≡ agreed_of picture.now «data».now }
{
    for (i, code) in data.iter().enumerate() {
        if !taken(picture[i], *code) {
            return i;
        }
    }
    data.len()
}

// How far data get in a form: 0 where it has not their length, else one more than the characters that its picture takes from
// the first on.
fn reach(form: Form, data: &[u8]) -> usize
    requires { form.1 ≤ 21 }
    ensures { result ≡ reach_of (form_in form) «data».now }
{
    let Form(least, most, picture) = form;
    let n = data.len();
    if n < least || most < n {
        return 0;
    }
    let start = 21 - n;
    agreed(&picture[start..], data) + 1
}

// The furthest that data get in some forms: past their end where one takes them.
fn furthest(forms: Forms, data: &[u8]) -> usize
    ensures { result ≡ furthest_of (forms_of (formats_from forms.first forms.count)) «data».now }
{
    let first = usize::from(forms.first);
    let mut best = 0;
    for i in 0..usize::from(forms.count) {
        best = best.max(reach(table::form_of(first + i), data));
    }
    best
}

// The tests of data of one kind and one width, in document 01's order.
fn fit_plain(rule: Plain, group: Group) -> Result<(), Refusal>
    ensures { result ≡ fitness (plain_rule rule) (fields_in group.entry) }
{
    let data = group.data;
    if !stamps::stamp_right(rule.mark, group.stamp) {
        return Err(Refusal::StampWrong);
    }
    if data.len() != rule.width {
        return Err(Refusal::WidthWrong);
    }
    if wrong_at(rule.kind, data) != data.len() {
        return Err(Refusal::KindWrong);
    }
    Ok(())
}

// The tests of data that have forms, and of their stamp, which is to be empty. The quick way says yes to data that have one;
// where it does not, how far they get in the pictures decides.
fn fit_forms(forms: Forms, group: Group) -> Result<(), Refusal>
    ensures { result ≡ fitness (formed_rule forms) (fields_in group.entry) }
{
    let data = group.data;
    let n = data.len();
    if !group.stamp.is_empty() {
        return Err(Refusal::StampWrong);
    }
    if n < forms.smallest || forms.largest < n {
        return Err(Refusal::WidthWrong);
    }
    if quick::surely_fits(forms, data) {
        return Ok(());
    }
    if furthest(forms, data) == n + 1 {
        return Ok(());
    }
    Err(Refusal::KindWrong)
}

// Whether stamp and data are what a rule asks for, or the refusal.
pub(crate) fn fit(rule: Rule, group: Group) -> Result<(), Refusal>
    ensures { result ≡ fitness (rule_of rule) (fields_in group.entry) }
{
    match rule {
        Rule::Plain(plain) => fit_plain(plain, group),
        Rule::Formed(forms) => fit_forms(forms, group),
    }
}

// How many characters of data of one kind and one width stand before the first wrong one.
fn wrong_plain(rule: Plain, data: &[u8]) -> usize
    ensures { (result ≡ first_wrong (plain_rule rule) «data».now) × (result ≤ length «data».now) }
{
    if data.len() == rule.width {
        wrong_at(rule.kind, data)
    } else {
        0
    }
}

// The same for data that have forms: those that they get through in the form in which they get furthest.
fn wrong_formed(forms: Forms, data: &[u8]) -> usize
    ensures { (result ≡ first_wrong (formed_rule forms) «data».now) × (result ≤ length «data».now) }
{
    furthest(forms, data).saturating_sub(1)
}

// How many data characters stand before the first wrong one, in data that a rule does not take (M-104).
pub(crate) fn first_wrong(rule: Rule, data: &[u8]) -> usize
    ensures { (result ≡ first_wrong (rule_of rule) «data».now) × (result ≤ length «data».now) }
{
    match rule {
        Rule::Plain(plain) => wrong_plain(plain, data),
        Rule::Formed(forms) => wrong_formed(forms, data),
    }
}

// The reader: tests in document 01's order, each over a part of the content.
ghost use Rattle.std.specs.Prelude.{◌≡◌, ◌+◌, ◌%◌, ◌≤◌, length};
ghost use Rattle.groups.specs.Modes.{counted_at_end};
ghost use Rattle.groups.specs.Groups.{total};
ghost use Rattle.groups.specs.Numbers.{number_of_refusal};
ghost use Rattle.groups.specs.Place.{place_for};
ghost use Rattle.groups.specs.Stored.{rule_of};
ghost use Rattle.groups.specs.Inside.{check_from, fields_in, ContentWalk, FrontSum, LabelWalk, Split, StartsWith};
ghost use Rattle.groups.specs.Inside.{finished, judged_in, told_behind, told_of, wrong_behind};

use crate::group::Group;
use crate::table::Rule;
use crate::{Fault, Fields, Mode, Refusal, find, fitting, group};

// The sum of the codes, by 256: the check character needs the remainder by 64 alone.
pub(crate) fn sum(text: &[u8]) -> u8
    ensures { result ≡ total text.now % 256 }
{
    text.iter().fold(0, |sum: u8, code| sum.wrapping_add(*code))
}

// What a walk over characters found: the place of the first of a code, the length where there is none, and the sum of
// those that it went over, by 256.
#[derive(Clone, Copy)]
pub struct Walked {
    pub first: usize,
    pub sum: u8,
}

// Goes up to the first character of this code. A walk for the place and another for the sum would go over it twice (M-103).
fn walk_label(text: &[u8], code: u8) -> Walked
    ensures { LabelWalk code text.now result.first result.sum }
{
    let mut sum: u8 = 0;
    for (first, one) in text.iter().enumerate() {
        if *one == code {
            return Walked { first, sum };
        }
        sum = sum.wrapping_add(*one);
    }
    Walked {
        first: text.len(),
        sum,
    }
}

// Goes over a content once, for its first separator and its sum (M-103): up to the separator, and from there on up to the
// last two characters, where it is not one of them.
fn walk(content: &[u8], separator: u8) -> Walked
    ensures { ContentWalk separator content.now result.first result.sum }
{
    let label = walk_label(content, separator);
    let first = label.first;
    let n = content.len();
    if n - first < 3 {
        return label;
    }
    let closing = n - 2;
    let behind = sum(&content[first..closing]);
    Walked {
        first,
        sum: label.sum.wrapping_add(behind),
    }
}

// The check character of a label, its separator and a body, from the sum of them all.
fn check_by(mode: Mode, front: u8) -> u8
    ensures { result ≡ (front + counted_at_end mode) % 64 + 32 }
{
    front.wrapping_add(mode.counted_at_end()) % 64 + 32
}

// The check character of a label and a body of which `rest` is the sum.
pub(crate) fn check_from(mode: Mode, label: &[u8], rest: u8) -> u8
    ensures { result ≡ check_from mode label.now rest }
{
    let front = sum(label).wrapping_add(mode.separator());
    check_by(mode, front.wrapping_add(rest))
}

// The place that a refusal of stamp or data tells: that of a wrong stamp is the first character after the label's separator.
// It is looked for only now, so that nothing is gone over twice of a group that is accepted.
fn wrong_place(refusal: Refusal, rule: Rule, group: Group) -> usize
    requires { length group.label.now ≤ 128 }
    ensures { result ≡ place_for (number_of_refusal refusal) (length group.entry.label.now + 1) (wrong_behind (rule_of rule) (fields_in group.entry)) }
{
    let next = group.label.len() + 1;
    match refusal {
        Refusal::StampWrong => next,
        Refusal::KindWrong => {
            let before = fitting::first_wrong(rule, group.data);
            next + group::stamp_span(group.stamp.len()) + before
        }
        _ => 0,
    }
}

// Where the fields of a group stand, if its rule takes them.
fn finish(rule: Rule, group: Group) -> Result<Fields, Fault>
    requires { length group.label.now ≤ 128 }
    ensures { result ≡ finished (rule_of rule) (fields_in group.entry) }
{
    match fitting::fit(rule, group) {
        Ok(()) => Ok(group.places()),
        Err(refusal) => {
            let place = wrong_place(refusal, rule, group);
            Err(Fault { refusal, place })
        }
    }
}

// Where the stamp of a body ends, 0 where the label has none; nothing where a stamped label's body is not parted.
fn stamp_end(mode: Mode, rule: Rule, body: &[u8]) -> Option<usize>
    ensures { Split mode (rule_of rule) body.now result }
{
    if !rule.mark().is_stamped() {
        return Some(0);
    }
    if body.len() < 14 {
        return None;
    }
    if body[13] == mode.separator() {
        Some(13)
    } else {
        None
    }
}

// The fields of a label with this rule and a body, the characters between the first separator and the final one. `finish`
// is called in one place, so that the compiler puts it there and passes nothing through memory.
fn fields_of(mode: Mode, rule: Rule, label: &[u8], body: &[u8]) -> Result<Fields, Fault>
    requires { length label.now ≤ 128 }
    ensures { result ≡ told_of mode (rule_of rule) label.now body.now }
{
    let Some(end) = stamp_end(mode, rule, body) else {
        return Err(Fault {
            refusal: Refusal::StampWrong,
            place: label.len() + 1,
        });
    };
    let stamp = &body[..end];
    let data = &body[group::stamp_span(end)..];
    finish(rule, Group { label, stamp, data })
}

// A content, its label, all that stands behind the separator of the label, and the sum of all but the last two of these
// characters. The label is looked up in the content, so that its first eight bytes can be taken at once.
fn behind_label(
    mode: Mode,
    content: &[u8],
    label: &[u8],
    rest: &[u8],
    front: u8,
) -> Result<Fields, Fault>
    requires { (FrontSum mode label.now rest.now front) × (StartsWith label.now content.now) × (length label.now ≤ 128) }
    ensures { result ≡ told_behind mode label.now rest.now }
{
    let n = rest.len();
    if n < 2 {
        return Err(Refusal::Misshapen.into());
    }
    let end = n - 2;
    if rest[end] != mode.separator() {
        return Err(Refusal::Misshapen.into());
    }
    let body = &rest[..end];
    if rest[n - 1] != check_by(mode, front) {
        return Err(Refusal::CheckWrong.into());
    }
    let Some(rule) = find::find(mode, content, label.len()) else {
        return Err(Refusal::LabelUnknown.into());
    };
    fields_of(mode, rule, label, body)
}

pub(crate) fn read(mode: Mode, content: &[u8]) -> Result<Fields, Fault>
    ensures { result ≡ judged_in mode content.now }
{
    let n = content.len();
    if 128 < n {
        return Err(Refusal::TooLong.into());
    }
    let walked = walk(content, mode.separator());
    let at = walked.first;
    if n <= at {
        return Err(Refusal::Misshapen.into());
    }
    if at < 1 {
        return Err(Refusal::Misshapen.into());
    }
    let next = at + 1;
    behind_label(mode, content, &content[..at], &content[next..], walked.sum)
}

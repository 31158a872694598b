ghost use Rattle.std.specs.Prelude.{◌≡◌, ◌+◌, ◌-◌, ◌==◌, ◌<◌, ◌≤◌, ◌&&◌, ◌||◌, IsTrue, length, slice_index, if◌then◌else◌};
ghost use Rattle.std.specs.List.{slice_range};
ghost use Rattle.generic_names.specs.Spelled.{qualifiers};
ghost use Rattle.generic_names.specs.Covers.{is_double, is_open, matches, begins, covers_all};
ghost use Rattle.generic_names.specs.Walked.{Walked, covers_end_at};

use crate::kind::NameKind;
use crate::qualifiers::qualifier_end;

/// How a walk along a pattern and a name ends.
#[derive(Clone, Copy)]
pub(crate) enum WalkEnd {
    Covered,
    Refused,
    /// It came to a `**`: the places behind it in the pattern, and in the name.
    Double(usize, usize),
}

/// Whether a pattern covers a name. Where it doesn't fit behind a `**`, it is tried again from the next
/// qualifier of the name on. An earlier `**` is never taken up again, so there are at most as many tries
/// as the name has qualifiers, and each takes at most as many steps as the pattern has.
pub(crate) fn covers_text(kind: NameKind, pattern: &[u8], name: &[u8]) -> bool
    requires pattern_fits { length pattern.now ≤ 246 }
    requires name_fits { length name.now ≤ 246 }
    ensures { result ≡ covers_all kind (qualifiers pattern.now) (qualifiers name.now) }
{
    match walk(kind, pattern, 0, name, 0) {
        WalkEnd::Covered => true,
        WalkEnd::Refused => false,
        WalkEnd::Double(at, from) => covers_some_end(kind, pattern, at, name, from),
    }
}

/// Whether the pattern from its place on covers some end of the name from its place on.
fn covers_some_end(
    kind: NameKind,
    pattern: &[u8],
    mut at: usize,
    name: &[u8],
    mut from: usize,
) -> bool
    requires pattern_fits { length pattern.now ≤ 246 }
    requires name_fits { length name.now ≤ 246 }
    requires at { at ≤ length pattern.now + 1 }
    requires from { from ≤ length name.now + 1 }
    ensures { result ≡ covers_end_at kind pattern.now at name.now from }
{
    while at <= pattern.len() {
        match walk(kind, pattern, at, name, from) {
            WalkEnd::Covered => return true,
            WalkEnd::Double(later, there) => {
                at = later;
                from = there;
            }
            WalkEnd::Refused => {
                if from > name.len() {
                    return false;
                }
                from = qualifier_end(name, from) + 1;
            }
        }
    }
    true
}

/// Goes along the pattern and the name from these places, up to the first `**`.
fn walk(kind: NameKind, pattern: &[u8], mut at: usize, name: &[u8], mut from: usize) -> WalkEnd
    requires pattern_fits { length pattern.now ≤ 246 }
    requires name_fits { length name.now ≤ 246 }
    requires at { at ≤ length pattern.now + 1 }
    requires from { from ≤ length name.now + 1 }
    ensures { Walked kind pattern.now at name.now from result }
{
    while at <= pattern.len() {
        let end = qualifier_end(pattern, at);
        let qualifier = &pattern[at..end];
        if is_double_asterisk(qualifier) {
            return WalkEnd::Double(end + 1, from);
        }
        if from > name.len() {
            return WalkEnd::Refused;
        }
        if is_open_ended(kind, end == pattern.len(), qualifier) {
            return covered(begins_with(&pattern[at..end - 1], &name[from..]));
        }
        let next = qualifier_end(name, from);
        if !matches_qualifier(qualifier, &name[from..next]) {
            return WalkEnd::Refused;
        }
        at = end + 1;
        from = next + 1;
    }
    covered(from > name.len())
}

/// The end of the walk, where that tells it.
fn covered(yes: bool) -> WalkEnd
    ensures { result ≡ (if yes then WalkEnd.Covered else WalkEnd.Refused) }
{
    if yes {
        WalkEnd::Covered
    } else {
        WalkEnd::Refused
    }
}

/// Whether a pattern's qualifier matches a name's.
fn matches_qualifier(pattern: &[u8], qualifier: &[u8]) -> bool
    ensures { result ≡ matches pattern.now qualifier.now }
{
    for (i, byte) in pattern.iter().enumerate() {
        if is_final_asterisk(*byte, i + 1 == pattern.len()) {
            return true;
        }
        if i == qualifier.len() || !fits(*byte, qualifier[i]) {
            return false;
        }
    }
    pattern.len() == qualifier.len()
}

/// Whether a text begins with a match of these bytes, periods included.
fn begins_with(front: &[u8], text: &[u8]) -> bool
    ensures { result ≡ begins front.now text.now }
{
    for (i, byte) in front.iter().enumerate() {
        if i == text.len() {
            return false;
        }
        let fits = if *byte == b'%' {
            text[i] != b'.'
        } else {
            *byte == text[i]
        };
        if !fits {
            return false;
        }
    }
    true
}

/// Whether it is the whole qualifier `**`.
pub(crate) fn is_double_asterisk(qualifier: &[u8]) -> bool
    ensures { result ≡ is_double qualifier.now }
{
    qualifier == b"**".as_slice()
}

/// Whether a qualifier, which may be a pattern's last one, takes the rest of a name.
fn is_open_ended(kind: NameKind, last: bool, qualifier: &[u8]) -> bool
    ensures test { result ≡ is_open kind last qualifier.now }
    ensures some { IsTrue result → 0 < length qualifier.now }
{
    match kind {
        NameKind::DataSet => false,
        NameKind::General => last && matches!(qualifier, [.., b'*']),
    }
}

/// Whether a byte is the `*` that ends its qualifier.
fn is_final_asterisk(byte: u8, last: bool) -> bool
    ensures { result ≡ ((byte == 42) && last) }
{
    byte == b'*' && last
}

/// Whether a pattern's byte stands for a name's.
fn fits(byte: u8, other: u8) -> bool
    ensures { result ≡ ((byte == 37) || (byte == other)) }
{
    byte == b'%' || byte == other
}

//! Entries put into access lists and taken away.
ghost use Rattle.std.specs.Prelude.{◌≡◌, ◌↔◌, ◌≤◌, ◌++◌, [], ◌∷◌, IsTrue, Err, MatchResult, position, length};
ghost use Rattle.access_lists.specs.Lists.{is_for, is_for_under, permitted, permitted_when, withdrawn, withdrawn_when, is_absent, is_full, is_full_when, most_entries};
ghost use Rattle.access_levels.specs.Entries.{is_same_who, is_same_port};

use access_levels::{CondEntry, Condition, Entry, Id, Who};

/// The most entries of one list (this product's own limit).
pub const MOST_ENTRIES: usize = 1_000;

/// Why an entry was not put into a list.
#[derive(Clone, Copy, Debug, PartialEq, Eq)]
pub enum ListFault {
    /// It would be one too many.
    Full,
    NoMemory,
}

/// Puts an entry into a standard list (PERMIT): in place of the one of its ID, or else last. It goes
/// through the list once.
///
/// # Errors
///
/// `Full` where it would be added to 1,000 entries, `NoMemory` where there is no memory to add it; an entry
/// that is replaced wants none. The list then stays as it was.
pub fn permit(list: &mut Vec<Entry>, entry: Entry) -> Result<(), ListFault>
    ensures list { MatchResult result (λ _. list.new.items ≡ permitted entry list.old.items) (λ _. list.new.items ≡ list.old.items) }
    ensures full { (result ≡ Err ListFault.Full) ↔ IsTrue (is_full entry list.old.items) }
    ensures memory { result ≡ Err ListFault.NoMemory → IsTrue (is_absent (is_for entry.who) list.old.items) }
{
    match place_for(list.as_slice(), entry.who) {
        Some(place) => {
            list[place] = entry;
            Ok(())
        }
        None => add(list, entry),
    }
}

/// Takes the entry of an ID, or of `*`, out of a standard list (PERMIT with DELETE). A list without one
/// stays as it is.
pub fn withdraw(list: &mut Vec<Entry>, who: Who)
    ensures { list.new.items ≡ withdrawn who list.old.items }
{
    list.retain(|entry| !is_same_who(&entry.who, &who));
}

/// Puts an entry into a conditional list (PERMIT with WHEN): in place of the one of its condition and
/// ID, or else last. It goes through the list once.
///
/// # Errors
///
/// As for `permit`.
pub fn permit_when(list: &mut Vec<CondEntry>, entry: CondEntry) -> Result<(), ListFault>
    ensures list { MatchResult result (λ _. list.new.items ≡ permitted_when entry list.old.items) (λ _. list.new.items ≡ list.old.items) }
    ensures full { (result ≡ Err ListFault.Full) ↔ IsTrue (is_full_when entry list.old.items) }
    ensures memory { result ≡ Err ListFault.NoMemory → IsTrue (is_absent (is_for_under entry.condition entry.who) list.old.items) }
{
    match place_under(list.as_slice(), &entry.condition, &entry.who) {
        Some(place) => {
            list[place] = entry;
            Ok(())
        }
        None => add(list, entry),
    }
}

/// Takes the entry of a condition and an ID, or `*`, out of a conditional list (PERMIT with WHEN and
/// DELETE). A list without one stays as it is.
pub fn withdraw_when(list: &mut Vec<CondEntry>, condition: Condition, who: Who)
    ensures { list.new.items ≡ withdrawn_when condition who list.old.items }
{
    list.retain(|entry| !is_for_under(entry, &condition, &who));
}

/// The place of the entry of an ID.
fn place_for(list: &[Entry], who: Who) -> Option<usize>
    ensures { result ≡ position (is_for who) list.now }
{
    list.iter().position(|entry| is_same_who(&entry.who, &who))
}

/// The place of the entry of a condition and an ID.
pub(crate) fn place_under(list: &[CondEntry], condition: &Condition, who: &Who) -> Option<usize>
    ensures { result ≡ position (is_for_under condition.now who.now) list.now }
{
    list.iter()
        .position(|entry| is_for_under(entry, condition, who))
}

/// Adds an entry last, if there is room.
fn add<T: Copy>(list: &mut Vec<T>, entry: T) -> Result<(), ListFault>
    ensures list { MatchResult result (λ _. list.new.items ≡ list.old.items ++ entry ∷ []) (λ _. list.new.items ≡ list.old.items) }
    ensures full { (result ≡ Err ListFault.Full) ↔ most_entries ≤ length list.old.items }
{
    if list.len() >= MOST_ENTRIES {
        return Err(ListFault::Full);
    }
    match list.push(entry) {
        Ok(()) => Ok(()),
        Err(_) => Err(ListFault::NoMemory),
    }
}

/// Whether both are `*`, or both one ID.
pub fn is_same_who(who: &Who, other: &Who) -> bool
    ensures { result ≡ is_same_who who.now other.now }
{
    match who {
        Who::Star => matches!(other, Who::Star),
        Who::Named(id) => is_named(other, *id),
    }
}

/// Whether it is that ID.
fn is_named(who: &Who, id: Id) -> bool
    ensures { result ≡ is_same_who (Who.Named id) who.now }
{
    match who {
        Who::Star => false,
        Who::Named(other) => id == *other,
    }
}

/// Whether both name one port of one class.
pub fn is_same_port(port: &Condition, other: &Condition) -> bool
    ensures { result ≡ is_same_port port.now other.now }
{
    port.class.name() == other.class.name() && port.name == other.name
}

/// Whether a conditional entry is for an ID under a condition.
pub fn is_for_under(entry: &CondEntry, condition: &Condition, who: &Who) -> bool
    ensures { result ≡ is_for_under condition.now who.now entry.now }
{
    is_same_port(&entry.condition, condition) && is_same_who(&entry.who, who)
}

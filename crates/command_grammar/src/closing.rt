//! What is judged when the whole text was read: operands that lack, operands that exclude one another, and the defaults
//! that the canonical text writes.

ghost use Rattle.std.specs.Prelude.{◌≡◌, ◌<◌, None, length, find, position, slice_set, slice_index_or, IfSome, option_copied};
ghost use Rattle.command_grammar.specs.Table.{positions_of};
ghost use Rattle.command_values.specs.Results.{Finds};
ghost use Rattle.command_grammar.specs.Parts.{needed};
ghost use Rattle.command_grammar.specs.Reading.{has_word, slot_for as slot_of_word, stands as stands_in, with_slot, permits as permits_in, clash as clash_of, is_generic_kind as leaves_nothing, generic_place as place_of_generic, cleared as cleared_of, is_late_kind as is_judged_late, is_late as judges_late, with_class as class_filled, with_access as access_filled, completed, means_read as reads, any_stands as any_stands_in, is_asked as is_asked_in, lacks as lacks_in, lacking as lacking_in, closed as closed_of, class_in as named_class, mark_in as mark_of, late_closed as late_closed_of};

use crate::table::{Needed, Operand, Verb};
use access_levels::{Id, Level};
use command_values::{Content, Syntax, ValueKind, Word, is_same};
use generic_names::Pattern;
use racf_profiles::FixedClass;

/// Slots, one for each row of a command's operands.
type Slots = Vec<Option<Content>>;

/// The place of the operand with this word.
fn place_of(rows: &[Operand], word: Word) -> Option<usize>
    ensures { result ≡ position (has_word word) rows.now }
{
    rows.iter().position(|row| is_same(row.word, word))
}

/// The value that stands at a place.
fn slot_at(slots: &[Option<Content>], place: usize) -> Option<&Content>
    ensures { option_copied result ≡ slice_index_or slots.now place None }
{
    slots.get(place)?.as_ref()
}

/// The value of the operand with this word, if it was given.
fn slot_for(verb: Verb, slots: &[Option<Content>], word: Word) -> Option<&Content>
    ensures { option_copied result ≡ slot_of_word verb word slots.now }
{
    let place = place_of(verb.operands(), word)?;
    slot_at(slots, place)
}

/// Whether the operand with this word was given.
fn stands(verb: Verb, slots: &[Option<Content>], word: Word) -> bool
    ensures { result ≡ stands_in verb word slots.now }
{
    slot_for(verb, slots, word).is_some()
}

/// The first pair of operands that exclude one another.
fn clash(verb: Verb, slots: &[Option<Content>]) -> Option<(Word, Word)>
    ensures { result ≡ clash_of verb slots.now }
{
    verb.excluded().iter().copied().find(|pair| stands(verb, slots, pair.0)
        && stands(verb, slots, pair.1))
}

/// Whether it is the kind of GENERIC, which leaves nothing in the fields.
fn is_generic_kind(kind: ValueKind) -> bool
    ensures { result ≡ leaves_nothing kind }
{
    match kind {
        ValueKind::Generic => true,
        _ => false,
    }
}

/// The place of GENERIC among the operands.
fn generic_place(rows: &[Operand]) -> Option<usize>
    ensures value { result ≡ place_of_generic rows.now }
    ensures within { IfSome result (λ k. k < length rows.now) }
{
    rows.iter().position(|row| is_generic_kind(row.kind))
}

/// Puts a value into a slot, if there is that slot.
fn put(slots: &mut Slots, place: usize, content: Option<Content>)
    ensures { slots.new.items ≡ slice_set slots.old.items place content }
{
    if place < slots.len() {
        slots[place] = content;
    }
}

/// GENERIC leaves nothing behind.
fn clear(rows: &[Operand], slots: &mut Slots)
    ensures { slots.new.items ≡ cleared_of (place_of_generic rows.now) slots.old.items }
{
    if let Some(place) = generic_place(rows) {
        put(slots, place, None);
    }
}

/// Gives the operand with this word another value, if the command has that operand.
fn set(verb: Verb, slots: &mut Slots, word: Word, content: Option<Content>)
    ensures { slots.new.items ≡ with_slot verb word content slots.old.items }
{
    if let Some(place) = place_of(verb.operands(), word) {
        put(slots, place, content);
    }
}

/// Whether PERMIT's operand with this word was given.
fn permits(slots: &[Option<Content>], word: Word) -> bool
    ensures { result ≡ permits_in word slots.now }
{
    stands(Verb::Permit, slots, word)
}

/// Fills in the class that is meant where PERMIT names none.
fn fill_class(slots: &mut Slots)
    ensures { slots.new.items ≡ class_filled slots.old.items }
{
    if !permits(slots, Word::Class) {
        let class = Content::Id(FixedClass::Dataset.id());
        set(Verb::Permit, slots, Word::Class, Some(class));
    }
}

/// Whether ID stands without ACCESS and DELETE.
fn means_read(slots: &[Option<Content>]) -> bool
    ensures { result ≡ reads slots.now }
{
    permits(slots, Word::Id) && !(permits(slots, Word::Access) || permits(slots, Word::Delete))
}

/// Fills in the access that is meant where PERMIT names none.
fn fill_access(slots: &mut Slots)
    ensures { slots.new.items ≡ access_filled slots.old.items }
{
    if means_read(slots) {
        set(
            Verb::Permit,
            slots,
            Word::Access,
            Some(Content::Level(Level::Read)),
        );
    }
}

/// Whether values of the kind are judged behind all the others.
fn is_late_kind(kind: ValueKind) -> bool
    ensures { result ≡ is_judged_late kind }
{
    match kind {
        ValueKind::AnyProfile => true,
        _ => false,
    }
}

/// Whether the profile's name of a command is judged when the whole text was read.
pub fn is_late(verb: Verb) -> bool
    ensures { result ≡ judges_late (positions_of verb) }
{
    match verb.positions().first() {
        Some(position) => is_late_kind(position.kind),
        None => false,
    }
}

/// The operands with the defaults that are written, and without GENERIC.
fn complete(verb: Verb, slots: &mut Slots)
    ensures { slots.new.items ≡ completed verb slots.old.items }
{
    clear(verb.operands(), slots);
    if is_late(verb) {
        fill_class(slots);
        fill_access(slots);
    }
}

/// Whether one of these operands was given.
fn any_stands(verb: Verb, slots: &[Option<Content>], words: &[Word]) -> bool
    ensures { result ≡ any_stands_in verb words.now slots.now }
{
    words.iter().any(|word| stands(verb, slots, *word))
}

/// Whether operands of the row are asked for.
fn is_asked(verb: Verb, slots: &[Option<Content>], row: &Needed) -> bool
    ensures { result ≡ is_asked_in verb (needed row.now).asked_by slots.now }
{
    match row.asked_by {
        Some(words) => any_stands(verb, slots, words),
        None => true,
    }
}

/// Whether operands of the row are asked for and none of them was given.
fn lacks(verb: Verb, slots: &[Option<Content>], row: &Needed) -> bool
    ensures { result ≡ lacks_in verb slots.now (needed row.now) }
{
    is_asked(verb, slots, row) && !any_stands(verb, slots, row.one_of)
}

/// The first of these rows whose operands lack.
fn first_lacking(verb: Verb, slots: &[Option<Content>], rows: &[Needed]) -> Option<Needed>
    ensures { result ≡ find (λ row. lacks_in verb slots.now (needed row)) rows.now }
{
    rows.iter().copied().find(|row| lacks(verb, slots, row))
}

/// The word that a refusal names for the operands that lack.
#[tactic(auto, using(crate::proofs::Needs::find_mapped))]
fn lacking(verb: Verb, slots: &[Option<Content>]) -> Option<Word>
    ensures { result ≡ lacking_in verb slots.now }
{
    Some(first_lacking(verb, slots, verb.needed())?.missing)
}

/// The slots of a command whose whole text was read, with its defaults.
pub fn closed(verb: Verb, slots: Slots) -> Result<Slots, Syntax>
    ensures { Finds (λ s. s.items) result (closed_of verb slots.items) }
{
    if let Some(word) = lacking(verb, &slots) {
        return Err(Syntax::Missing(word));
    }
    let mut slots = slots;
    complete(verb, &mut slots);
    match clash(verb, &slots) {
        Some((one, other)) => Err(Syntax::Excluded(one, other)),
        None => Ok(slots),
    }
}

/// The class that PERMIT names, which is DATASET by default.
pub fn class_in(slots: &[Option<Content>]) -> Option<Id>
    ensures { result ≡ named_class slots.now }
{
    match slot_for(Verb::Permit, slots, Word::Class) {
        Some(Content::Id(class)) => Some(*class),
        Some(_) => None,
        None => Some(FixedClass::Dataset.id()),
    }
}

/// The place of GENERIC, where it was given.
fn mark_in(slots: &[Option<Content>]) -> Option<u32>
    ensures { result ≡ mark_of slots.now }
{
    match slot_for(Verb::Permit, slots, Word::Generic) {
        Some(Content::Generic(place)) => Some(*place),
        _ => None,
    }
}

/// The same with GENERIC, which is judged with the profile's name.
pub fn late_closed(name: &Pattern, verb: Verb, slots: Slots) -> Result<Slots, Syntax>
    ensures { Finds (λ s. s.items) result (late_closed_of name.now verb slots.items) }
{
    match mark_in(&slots) {
        Some(place) if !name.is_generic() => Err(Syntax::BadValue(place)),
        _ => closed(verb, slots),
    }
}

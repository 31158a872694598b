//! The fields of a record that hold an identifier.
ghost use Rattle.std.specs.Prelude.{◌≡◌, Ok};
ghost use Rattle.std.specs.List.{position, before_first};
ghost use Rattle.access_levels.specs.Spelling.{id_of};
ghost use Rattle.journal_records.specs.Spelling.{filled};
ghost use Rattle.journal_records.specs.Reading.{is_blank, id_in};

use access_levels::Id;

/// The bytes of such a field.
pub const FIELD: usize = 8;

/// The field of an identifier: its spelling, and blanks behind it.
pub fn filled(id: &Id) -> [u8; 8]
    ensures { result ≡ filled id.now }
{
    let text = id.text();
    let mut field = [b' '; FIELD];
    let front = &mut field[..text.len()];
    front.copy_from_slice(text);
    field
}

/// The identifier whose field these bytes are.
pub fn id_in(field: &[u8]) -> Option<Id>
    ensures { result ≡ id_in field.now }
{
    let Ok(id) = Id::read(front(field)) else {
        return None;
    };
    if filled(&id).as_slice() == field {
        Some(id)
    } else {
        None
    }
}

/// An identifier is spelled as one. It does nothing: its contract is what it is for.
pub fn is_spelled(id: &Id)
    ensures { id_of id.now ≡ Ok id.now }
{
    let _text = id.text();
}

/// What stands before the first blank.
fn front(field: &[u8]) -> &[u8]
    ensures { result.now ≡ before_first is_blank field.now }
{
    match first_blank(field) {
        Some(end) => &field[..end],
        None => field,
    }
}

/// The place of the first blank.
fn first_blank(field: &[u8]) -> Option<usize>
    ensures { result ≡ position is_blank field.now }
{
    field.iter().position(|byte| *byte == b' ')
}

//! Single fields, read from the bytes that they begin.
ghost use Rattle.std.specs.Prelude.{◌≡◌, ◌<◌, ◌∷◌, [], ◌≤◌, ◌==◌, ◌^◌, ◌/◌, ◌%◌, ℕ, Bool, true, false, nat_lt, length, take, drop, Option, option_map, IfOk, IfErr, OnOk};
ghost use Rattle.std.specs.List.{find, position, before_first};
ghost use Rattle.std.specs.Option.{option_copied};
ghost use Rattle.access_levels.specs.Level.{level_rank, levels, authority_rank, authorities, port_classes};
ghost use Rattle.racf_profiles.specs.NewDatabase.{sys1};
ghost use Rattle.database_image.specs.declared.faults.ReadFault.TheVariants.{At};
ghost use Rattle.database_image.specs.Reading.{Gives};
ghost use Rattle.database_image.specs.Forms.{spelled_at, number_spelling};
ghost use Rattle.database_image.specs.Fields.{filled, is_blank, front, text_in, of_text, filled_spelling, itself, id_text, group_text, text_or_none, unless_blank, who_text, who_of, rank_spelling, set_spelling, is_set};
ghost use Rattle.database_image.specs.Description.{audit_rank, audit_levels, flag_rank, port_rank, log_rank, log_options};

use crate::faults::ReadFault;
use crate::left::Left;
use access_levels::{GroupAuthority, Id, Level, PortClass, Who};
use byteorder::{BigEndian, ByteOrder};
use racf_profiles::LogOption;

/// The bytes of an identifier's field.
const FIELD: usize = 8;

/// A number of one byte.
#[tactic(auto, unfolding(crate::specs::Forms::spelled_at))]
pub fn byte_at(left: &mut Left<'_>) -> Result<u8, ReadFault>
    ensures { Gives (λ x. (x, left.new)) result (spelled_at (number_spelling 1) left.old) }
{
    let field = left.part(1)?;
    Ok(field[0])
}

/// A number of two bytes.
#[tactic(auto, unfolding(crate::specs::Forms::spelled_at))]
pub fn short_at(left: &mut Left<'_>) -> Result<u16, ReadFault>
    ensures { Gives (λ x. (x, left.new)) result (spelled_at (number_spelling 2) left.old) }
{
    let field = left.part(2)?;
    Ok(BigEndian::read_u16(field))
}

/// A number of four bytes.
#[tactic(auto, unfolding(crate::specs::Forms::spelled_at))]
pub fn word_at(left: &mut Left<'_>) -> Result<u32, ReadFault>
    ensures { Gives (λ x. (x, left.new)) result (spelled_at (number_spelling 4) left.old) }
{
    let field = left.part(4)?;
    Ok(BigEndian::read_u32(field))
}

/// The bytes of an identifier's field: its spelling, and blanks behind it.
pub fn filled(text: &[u8]) -> [u8; 8]
    requires { length text.now ≤ 8 }
    ensures { result ≡ filled text.now }
{
    let mut field = [b' '; FIELD];
    let part = &mut field[..text.len()];
    part.copy_from_slice(text);
    field
}

/// The place of the first blank.
fn first_blank(field: &[u8]) -> Option<usize>
    ensures { result ≡ position is_blank field.now }
{
    field.iter().position(|byte| *byte == b' ')
}

/// What stands before the first blank.
fn front(field: &[u8]) -> &[u8]
    ensures { result.now ≡ front field.now }
{
    match first_blank(field) {
        Some(end) => &field[..end],
        None => field,
    }
}

/// The text in a field, where nothing but blanks stands behind it.
fn text_in(field: &[u8]) -> Option<&[u8]>
    requires { length field.now ≤ 8 }
    ensures { option_copied result ≡ text_in field.now }
{
    let text = front(field);
    if filled(text).as_slice() == field {
        Some(text)
    } else {
        None
    }
}

/// Any identifier.
#[tactic(auto, unfolding(crate::specs::Forms::spelled_at))]
pub fn id_at(left: &mut Left<'_>) -> Result<Id, ReadFault>
    ensures { Gives (λ x. (x, left.new)) result (spelled_at (filled_spelling itself id_text) left.old) }
{
    let begin = left.len();
    let field = left.part(FIELD)?;
    match id_in(field) {
        Some(id) => Ok(id),
        None => Err(ReadFault::At(begin)),
    }
}

/// The identifier in a field.
fn id_in(field: &[u8]) -> Option<Id>
    requires { length field.now ≤ 8 }
    ensures { result ≡ of_text id_text (text_in field.now) }
{
    let text = text_in(field)?;
    Id::read(text).ok()
}

/// The name of a group.
#[tactic(auto, unfolding(crate::specs::Forms::spelled_at))]
pub fn group_at(left: &mut Left<'_>) -> Result<Id, ReadFault>
    ensures { Gives (λ x. (x, left.new)) result (spelled_at (filled_spelling itself group_text) left.old) }
{
    let begin = left.len();
    let field = left.part(FIELD)?;
    match group_in(field) {
        Some(id) => Ok(id),
        None => Err(ReadFault::At(begin)),
    }
}

/// The group name in a field.
fn group_in(field: &[u8]) -> Option<Id>
    requires { length field.now ≤ 8 }
    ensures { result ≡ of_text group_text (text_in field.now) }
{
    let text = text_in(field)?;
    Id::read_group(text).ok()
}

/// An identifier that may be left out.
#[tactic(auto, unfolding(crate::specs::Forms::spelled_at))]
pub fn label_at(left: &mut Left<'_>) -> Result<Option<Id>, ReadFault>
    ensures { Gives (λ x. (x, left.new)) result (spelled_at (filled_spelling text_or_none (unless_blank id_text)) left.old) }
{
    let begin = left.len();
    let field = left.part(FIELD)?;
    match label_in(field) {
        Some(label) => Ok(label),
        None => Err(ReadFault::At(begin)),
    }
}

/// What a field says that may be left out: an identifier, or none.
fn label_in(field: &[u8]) -> Option<Option<Id>>
    requires { length field.now ≤ 8 }
    ensures { result ≡ of_text (unless_blank id_text) (text_in field.now) }
{
    let text = text_in(field)?;
    if text.is_empty() {
        return Some(None);
    }
    Some(Some(Id::read(text).ok()?))
}

/// The name of a group that may be left out.
#[tactic(auto, unfolding(crate::specs::Forms::spelled_at))]
pub fn superior_at(left: &mut Left<'_>) -> Result<Option<Id>, ReadFault>
    ensures { Gives (λ x. (x, left.new)) result (spelled_at (filled_spelling text_or_none (unless_blank group_text)) left.old) }
{
    let begin = left.len();
    let field = left.part(FIELD)?;
    match superior_in(field) {
        Some(superior) => Ok(superior),
        None => Err(ReadFault::At(begin)),
    }
}

/// What a field says that may be left out: the name of a group, or none.
fn superior_in(field: &[u8]) -> Option<Option<Id>>
    requires { length field.now ≤ 8 }
    ensures { result ≡ of_text (unless_blank group_text) (text_in field.now) }
{
    let text = text_in(field)?;
    if text.is_empty() {
        return Some(None);
    }
    Some(Some(Id::read_group(text).ok()?))
}

/// Whom an entry speaks of.
#[tactic(auto, unfolding(crate::specs::Forms::spelled_at))]
pub fn who_at(left: &mut Left<'_>) -> Result<Who, ReadFault>
    ensures { Gives (λ x. (x, left.new)) result (spelled_at (filled_spelling who_text who_of) left.old) }
{
    let begin = left.len();
    let field = left.part(FIELD)?;
    match who_in(field) {
        Some(who) => Ok(who),
        None => Err(ReadFault::At(begin)),
    }
}

/// Whom a field speaks of.
fn who_in(field: &[u8]) -> Option<Who>
    requires { length field.now ≤ 8 }
    ensures { result ≡ of_text who_of (text_in field.now) }
{
    let text = text_in(field)?;
    if text == b"*".as_slice() {
        return Some(Who::Star);
    }
    Some(Who::Named(Id::read(text).ok()?))
}

/// The text that stands for these.
pub fn who_text(who: &Who) -> &[u8]
    ensures { result.now ≡ who_text who.now }
{
    match who {
        Who::Star => b"*".as_slice(),
        Who::Named(id) => id.text(),
    }
}

/// An access level, by its rank.
#[tactic(auto, unfolding(crate::specs::Forms::spelled_at))]
pub fn level_at(left: &mut Left<'_>) -> Result<Level, ReadFault>
    ensures { Gives (λ x. (x, left.new)) result (spelled_at (rank_spelling level_rank levels) left.old) }
{
    let begin = left.len();
    let field = left.part(1)?;
    match level_of_rank(field[0]) {
        Some(level) => Ok(level),
        None => Err(ReadFault::At(begin)),
    }
}

fn level_of_rank(rank: u8) -> Option<Level>
    ensures { result ≡ find (λ level. level_rank level == rank) levels }
{
    Level::ALL
        .iter()
        .copied()
        .find(|level| level.rank() == rank)
}

/// From which level on accesses are logged, if any are.
#[tactic(auto, unfolding(crate::specs::Forms::spelled_at))]
pub fn audit_at(left: &mut Left<'_>) -> Result<Option<Level>, ReadFault>
    ensures { Gives (λ x. (x, left.new)) result (spelled_at (rank_spelling audit_rank audit_levels) left.old) }
{
    let begin = left.len();
    let field = left.part(1)?;
    match audit_of_rank(field[0]) {
        Some(level) => Ok(level),
        None => Err(ReadFault::At(begin)),
    }
}

fn audit_of_rank(rank: u8) -> Option<Option<Level>>
    ensures { result ≡ find (λ level. audit_rank level == rank) audit_levels }
{
    if rank == 0 {
        return Some(None);
    }
    Some(Some(level_of_rank(rank)?))
}

/// Yes or no.
#[tactic(auto, unfolding(crate::specs::Forms::spelled_at))]
pub fn flag_at(left: &mut Left<'_>) -> Result<bool, ReadFault>
    ensures { Gives (λ x. (x, left.new)) result (spelled_at (rank_spelling flag_rank (false ∷ true ∷ [])) left.old) }
{
    let begin = left.len();
    let field = left.part(1)?;
    match field[0] {
        0 => Ok(false),
        1 => Ok(true),
        _ => Err(ReadFault::At(begin)),
    }
}

/// What a user may do in a group, by its rank.
#[tactic(auto, unfolding(crate::specs::Forms::spelled_at))]
pub fn authority_at(left: &mut Left<'_>) -> Result<GroupAuthority, ReadFault>
    ensures { Gives (λ x. (x, left.new)) result (spelled_at (rank_spelling authority_rank authorities) left.old) }
{
    let begin = left.len();
    let field = left.part(1)?;
    match authority_of_rank(field[0]) {
        Some(authority) => Ok(authority),
        None => Err(ReadFault::At(begin)),
    }
}

fn authority_of_rank(rank: u8) -> Option<GroupAuthority>
    ensures { result ≡ find (λ authority. authority_rank authority == rank) authorities }
{
    GroupAuthority::ALL
        .iter()
        .copied()
        .find(|authority| authority.rank() == rank)
}

/// A class of ports of entry, by its number.
#[tactic(auto, unfolding(crate::specs::Forms::spelled_at))]
pub fn port_at(left: &mut Left<'_>) -> Result<PortClass, ReadFault>
    ensures { Gives (λ x. (x, left.new)) result (spelled_at (rank_spelling port_rank port_classes) left.old) }
{
    let begin = left.len();
    let field = left.part(1)?;
    match port_of_rank(field[0]) {
        Some(class) => Ok(class),
        None => Err(ReadFault::At(begin)),
    }
}

fn port_of_rank(rank: u8) -> Option<PortClass>
    ensures { result ≡ find (λ class. port_rank class == rank) port_classes }
{
    PortClass::ALL
        .iter()
        .copied()
        .find(|class| port_rank(*class) == rank)
}

/// The number of a class of ports of entry.
pub fn port_rank(class: PortClass) -> u8
    ensures { result ≡ port_rank class }
{
    match class {
        PortClass::Terminal => 1,
        PortClass::Console => 2,
        PortClass::Jesinput => 3,
        PortClass::Appcport => 4,
    }
}

/// Which accesses to a class are logged whatever their profiles say, by its number.
#[tactic(auto, unfolding(crate::specs::Forms::spelled_at))]
pub fn log_at(left: &mut Left<'_>) -> Result<LogOption, ReadFault>
    ensures { Gives (λ x. (x, left.new)) result (spelled_at (rank_spelling log_rank log_options) left.old) }
{
    let begin = left.len();
    let field = left.part(1)?;
    match log_of_rank(field[0]) {
        Some(log) => Ok(log),
        None => Err(ReadFault::At(begin)),
    }
}

fn log_of_rank(rank: u8) -> Option<LogOption>
    ensures { result ≡ find (λ log. log_rank log == rank) log_options }
{
    match rank {
        0 => Some(LogOption::ByProfile),
        1 => Some(LogOption::Always),
        2 => Some(LogOption::Never),
        3 => Some(LogOption::Successes),
        4 => Some(LogOption::Failures),
        _ => None,
    }
}

/// Whether the flag of that value is set.
pub fn is_set(flags: u8, value: u8) -> bool
    requires { 0 < value }
    ensures { result ≡ is_set flags value }
{
    flags / value % 2 == 1
}

//! Laws of the definitions. The functions do nothing: their contracts are what is proved.
ghost use Rattle.std.specs.Prelude.{◌≡◌, ◌⊎◌, ◌++◌, ◌∷◌, [], ℕ, true, false, List, Option, Some, Ok};
ghost use mathlib.Core.List.{IsPrefix};
ghost use Rattle.command_parser.specs.Canonical.{canonical, IsWritten};
ghost use Rattle.journal_records.specs.declared.record.CommandRecord.{CommandRecord};
ghost use Rattle.desk_rules.specs.History.{IsLegal};
ghost use Rattle.desk_rules.specs.Made.{Made, made_of_outcome, installed};
ghost use Rattle.desk_rules.specs.Outcome.{outcome};
ghost use Rattle.desk_rules.specs.Position.{Position, position_behind};
ghost use Rattle.command_history.specs.declared.events.Accepted.{Accepted};
ghost use Rattle.command_history.specs.declared.events.Event.{Event};
ghost use Rattle.command_history.specs.declared.events.Event.TheVariants.{Added, Ended};
ghost use Rattle.command_history.specs.Events.{all_of, ends_last, entries_of, failed_of, is_ended, Extends};
ghost use Rattle.command_history.specs.Reached.{reached, record_of, records_of, AreLegal};

use desk_rules::laws::accepted_commands_are_written;
use journal_records::laws::canonical_texts_are_of_commands;

/// How lists of events extend each other: a list is extended by each event that is added, one after another, and lists
/// that extend each other are one. A list in which nothing stands behind the final mark extends each of its beginnings.
/// Who learns a list that extends what he knew, and takes one of the two so that it extends that list, takes that list.
pub fn later_lists_extend_earlier_ones()
    ensures added { (events : List Event) (event : Event) →
        is_ended events ≡ false → Extends events (events ++ event ∷ []) }
    ensures onward { (first second third : List Event) →
        Extends first second → Extends second third → Extends first third }
    ensures both { (one other : List Event) → Extends one other → Extends other one → one ≡ other }
    ensures beginning { (earlier later : List Event) →
        ends_last later ≡ true → IsPrefix earlier later → Extends earlier later }
    ensures learned { (seen note new : List Event) →
        Extends seen note → (new ≡ seen) ⊎ (new ≡ note) → Extends note new → new ≡ note }
{}

/// A list that has a final mark, with nothing behind it, is its entries and then the mark; and so written, entries and
/// a mark are those that are found in it.
pub fn a_whole_history_is_its_entries_and_its_mark()
    ensures whole { (events : List Event) →
        ends_last events ≡ true → is_ended events ≡ true → events ≡ all_of (entries_of events) (failed_of events) }
    ensures entries { (entries : List Accepted) (doubt : Option Accepted) → entries_of (all_of entries doubt) ≡ entries }
    ensures mark { (entries : List Accepted) (doubt : Option Accepted) → failed_of (all_of entries doubt) ≡ doubt }
    ensures ended { (entries : List Accepted) (doubt : Option Accepted) → is_ended (all_of entries doubt) ≡ true }
    ensures last { (entries : List Accepted) (doubt : Option Accepted) → ends_last (all_of entries doubt) ≡ true }
{}

/// Where a list of events leads: from the base, each entry to the position behind its command; the final mark leads
/// nowhere.
pub fn each_entry_leads_to_the_position_behind_it()
    ensures none { (base : Position) → reached base [] ≡ base }
    ensures added { (base : Position) (events : List Event) (entry : Accepted) (given : CommandRecord) →
        record_of entry ≡ Some given →
        reached base (events ++ Added entry ∷ []) ≡ position_behind (reached base events) given }
    ensures ended { (base : Position) (events : List Event) (doubt : Option Accepted) →
        reached base (events ++ Ended doubt ∷ []) ≡ reached base events }
{}

/// Entries are legal where each of their commands is accepted at the position behind those before it, the journal's room
/// included: then their records are a legal history. They stay so with an entry more whose command is accepted where the events lead.
pub fn accepted_commands_make_legal_entries()
    ensures added { (base : Position) (events : List Event) (entry : Accepted) (given : CommandRecord)
        (id : List ℕ) (group : Option (List ℕ)) (text : List ℕ) →
        AreLegal base (entries_of events) → record_of entry ≡ Some given →
        outcome (reached base events) id group text ≡ Ok given →
        AreLegal base (entries_of (events ++ Added entry ∷ [])) }
    ensures ended { (base : Position) (events : List Event) (doubt : Option Accepted) →
        AreLegal base (entries_of events) → AreLegal base (entries_of (events ++ Ended doubt ∷ [])) }
    ensures history { (base : Position) (entries : List Accepted) →
        AreLegal base entries → IsLegal base (records_of entries) }
{}

/// The entry of a command has the command's record: its issuer, and its canonical text. A command's canonical text
/// spells the command, as its type keeps.
pub fn an_entry_has_the_record_of_its_command()
    ensures { (entry : Accepted) (given : CommandRecord) →
        IsWritten given.command (canonical given.command) →
        entry.issuer ≡ given.issuer → entry.text ≡ canonical given.command → record_of entry ≡ Some given }
{
    canonical_texts_are_of_commands();
}

/// What a desk makes of a command goes on from where the events lead: an entry with its issuer and its text is legal
/// behind them, and leads to where the command is installed.
pub fn what_a_desk_makes_goes_on()
    ensures { (base : Position) (events : List Event) (entry : Accepted) (made : Made)
        (id : List ℕ) (group : Option (List ℕ)) (text : List ℕ) →
        AreLegal base (entries_of events) →
        made_of_outcome (reached base events).image (outcome (reached base events) id group text) ≡ Ok made →
        entry.issuer ≡ made.issuer → entry.text ≡ made.text →
        AreLegal base (entries_of (events ++ Added entry ∷ []))
        × (reached base (events ++ Added entry ∷ []) ≡ installed (reached base events) made) }
{
    an_entry_has_the_record_of_its_command();
    accepted_commands_are_written();
}

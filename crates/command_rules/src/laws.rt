//! Laws of the definitions. The functions do nothing: their contracts are what is proved.
ghost use Rattle.std.specs.Prelude.{◌≡◌, ◌↔◌, ℕ, true, not, List, None, Some, IsTrue, IsFalse, option_and_then, if◌then◌else◌};
ghost use Rattle.std.specs.List.{list_all};
ghost use Rattle.racf_profiles.specs.declared.groups.Group.{Group};
ghost use Rattle.racf_profiles.specs.declared.rows.Rows.{Rows};
ghost use Rattle.racf_profiles.specs.declared.edits.Edit.{Edit};
ghost use Rattle.racf_profiles.specs.Edits.{changed};
ghost use Rattle.racf_profiles.specs.State.{is_of_copies};
ghost use Rattle.racf_profiles.specs.Scope.{IsWithin};
ghost use Rattle.racf_profiles.specs.Tree.{IsTree};
ghost use Rattle.racf_profiles.specs.LawfulProfiles.{AreClasses};
ghost use Rattle.racf_profiles.specs.Lawful.{LeaveLawfulClasses};
ghost use Rattle.command_fields.specs.declared.issuer.Issuer.{Issuer};
ghost use Rattle.command_fields.specs.declared.fields.CommandFields.{CommandFields};
ghost use Rattle.command_fields.specs.declared.option_fields.SetRopts.{SetRopts};
ghost use Rattle.command_rules.specs.OptionEffects.{after_set_ropts};
ghost use Rattle.command_rules.specs.Edits.{edits_of, edits_of_set_ropts, edits_copies, refreshes_listed};
ghost use Rattle.command_rules.specs.Numbers.{met, is_ascending, is_early};
ghost use Rattle.command_rules.specs.Conflicts.{conflicts, conflict_of, first_conflict_of, meets};

/// No command but SETROPTS lists a class or unlists one, and none but RDELETE drops one. Where the classes are lawful
/// before a command and behind it, they are so behind each of its edits.
pub fn commands_edit_rows_alone()
    ensures listed { (issuer : Issuer) (command : CommandFields) (rows : Rows) → IsFalse (edits_copies command) → IsTrue (list_all (λ (edit : Edit). not (is_of_copies edit)) (edits_of issuer command rows)) }
    ensures classes { (issuer : Issuer) (command : CommandFields) (rows : Rows) → AreClasses rows.classes → AreClasses (changed (edits_of issuer command rows) rows).classes → LeaveLawfulClasses (edits_of issuer command rows) rows }
{
    generic_names::laws::order_is_total();
}

/// The edits of SETROPTS make its rows, where REFRESH is given for listed classes alone.
pub fn set_ropts_edits_make_its_rows()
    ensures { (command : SetRopts) (rows : Rows) → AreClasses rows.classes → IsTrue (refreshes_listed command rows.classes) → changed (edits_of_set_ropts command rows) rows ≡ after_set_ropts command rows }
{}

/// Each command's conflicts are asked in the order of their numbers.
pub fn conflicts_are_asked_in_order()
    ensures { (issuer : Issuer) (command : CommandFields) (rows : Rows) → is_ascending (met (conflicts issuer command rows)) ≡ true }
{}

/// What is told before the issuer's authority is judged is the first conflict, where that comes before Root, and else
/// nothing.
pub fn first_conflicts()
    ensures { (issuer : Issuer) (command : CommandFields) (rows : Rows) → first_conflict_of issuer command rows ≡ option_and_then (λ conflict. if is_early conflict then Some conflict else None) (conflict_of issuer command rows) }
{}

/// In a tree a walk up meets a group exactly where superior groups lead to it.
pub fn walks_meet_what_is_above()
    ensures { (groups : List Group) (group from : List ℕ) → IsTree groups → IsTrue (meets group from groups) ↔ IsWithin groups group from }
{}

//! Laws of the definitions that other crates' contracts cite: of the class table, of edits, and of states.
ghost use Rattle.std.specs.Prelude.{◌≡◌, ◌↔◌, ℕ, Bool, false, not, List, Some, None, option_map, IsTrue, IsSome};
ghost use Rattle.std.specs.List.{list_all};
ghost use Rattle.std.specs.Str.{bytes_eq};
ghost use Rattle.generic_names.specs.Spelled.{Spelled};
ghost use Rattle.generic_names.specs.Laws.{IsPattern};
ghost use Rattle.generic_names.specs.declared.kind.NameKind.{NameKind};
ghost use Rattle.racf_profiles.specs.ClassTable.{class_name, facts_of_class, facts_of, is_consistent};
ghost use Rattle.racf_profiles.specs.Lookup.{user_of, group_of, class_of, profile_of};
ghost use Rattle.racf_profiles.specs.Edits.{edited, changed, put_profile, is_in_order, AreNamed};
ghost use Rattle.racf_profiles.specs.State.{State, HaveCopies, restart, effective, edited_state, changed_state, is_listed, is_none_listed, is_of_copies};
ghost use Rattle.racf_profiles.specs.declared.fixed_classes.FixedClass.{FixedClass};
ghost use Rattle.racf_profiles.specs.declared.users.User.{User};
ghost use Rattle.racf_profiles.specs.declared.groups.Group.{Group};
ghost use Rattle.racf_profiles.specs.declared.profiles.Profile.{Profile};
ghost use Rattle.racf_profiles.specs.declared.class_rows.ClassRow.{ClassRow};
ghost use Rattle.racf_profiles.specs.declared.class_rows.LogOption.{LogOption};
ghost use Rattle.racf_profiles.specs.declared.rows.Rows.{Rows};
ghost use Rattle.racf_profiles.specs.declared.edits.Edit.{Edit};
ghost use Rattle.racf_profiles.specs.declared.edits.Edit.TheVariants as edit;

/// Each class of the table is found by its name, and has what holds of each class.
pub fn class_table_rules()
    ensures each { (class : FixedClass) → facts_of (class_name class) ≡ Some (facts_of_class class) }
    ensures consistent { (class : FixedClass) → IsTrue (is_consistent class) }
{}

/// An edit that names an absent class, or drops an absent row, changes nothing.
pub fn absent_changes_nothing()
    ensures user { (id : List ℕ) (rows : Rows) → user_of id rows ≡ None → edited (edit.DropUser id) rows ≡ rows }
    ensures group { (id : List ℕ) (rows : Rows) → group_of id rows ≡ None → edited (edit.DropGroup id) rows ≡ rows }
    ensures profile { (class : List ℕ) (name : Spelled) (rows : Rows) → profile_of class name rows ≡ None → edited (edit.DropProfile class name) rows ≡ rows }
    ensures put_profile { (class : List ℕ) (profile : Profile) (rows : Rows) → class_of class rows ≡ None → edited (edit.PutProfile class profile) rows ≡ rows }
    ensures put_class { (class : List ℕ) (active global : Bool) (log : LogOption) (rows : Rows) → class_of class rows ≡ None → edited (edit.PutClass class active global log) rows ≡ rows }
    ensures list { (class : List ℕ) (state : State) → class_of class state.rows ≡ None → edited_state (edit.List class) state ≡ state }
    ensures unlist { (class : List ℕ) (state : State) → class_of class state.rows ≡ None → edited_state (edit.Unlist class) state ≡ state }
    ensures drop_class { (class : List ℕ) (state : State) → class_of class state.rows ≡ None → edited_state (edit.DropClass class) state ≡ state }
{}

/// What is put is found, and every other row stays as it was.
pub fn what_is_put_is_found()
    ensures user { (user : User) (rows : Rows) → user_of user.id (edited (edit.PutUser user) rows) ≡ Some user }
    ensures other_user { (user : User) (id : List ℕ) (rows : Rows) → bytes_eq user.id id ≡ false → user_of id (edited (edit.PutUser user) rows) ≡ user_of id rows }
    ensures group { (group : Group) (rows : Rows) → group_of group.id (edited (edit.PutGroup group) rows) ≡ Some group }
    ensures profile { (class : List ℕ) (row : ClassRow) (profile : Profile) (rows : Rows) → class_of class rows ≡ Some row → profile_of class profile.name (edited (edit.PutProfile class profile) rows) ≡ Some profile }
    ensures other_group { (group : Group) (id : List ℕ) (rows : Rows) → bytes_eq group.id id ≡ false → group_of id (edited (edit.PutGroup group) rows) ≡ group_of id rows }
{}

/// A profile that is put into a class's list goes to its place in the order of specificity.
pub fn puts_keep_the_order()
    ensures { (kind : NameKind) (profile : Profile) (profiles : List Profile) → IsPattern profile.name → profile.name.kind ≡ kind → AreNamed kind profiles → IsTrue (is_in_order profiles) → IsTrue (is_in_order (put_profile profile profiles)) }
{
    generic_names::laws::order_is_total();
}

/// A class that is listed has its live profiles as its effective ones.
pub fn listed_is_live()
    ensures { (name : List ℕ) (row : ClassRow) (state : State) → class_of name state.rows ≡ Some row → effective name (edited_state (edit.List name) state) ≡ Some row.profiles }
{}

/// After a restart the effective profiles of each class are its live ones.
pub fn restart_is_live()
    ensures { (name : List ℕ) (rows : Rows) → effective name (restart rows) ≡ option_map (λ (class : ClassRow). class.profiles) (class_of name rows) }
{}

/// Edits other than listing, unlisting and dropping a class leave the effective profiles of a listed class as they were, also where
/// they change its live profiles.
pub fn other_edits_leave_listed_copies()
    ensures { (name : List ℕ) (edits : List Edit) (state : State) → IsTrue (is_listed name state.rows) → IsTrue (list_all (λ (edit : Edit). not (is_of_copies edit)) edits) → effective name (changed_state edits state) ≡ effective name state }
{}

/// A class that is there has effective profiles, in every state.
pub fn known_classes_have_effective_profiles()
    ensures { (name : List ℕ) (state : State) → IsSome (effective name state) ↔ IsSome (class_of name state.rows) }
{}

/// A class that is RACLISTed has its listed copy, behind a restart and behind every edit.
pub fn listed_classes_have_copies()
    ensures restart { (rows : Rows) → HaveCopies (restart rows) }
    ensures edit { (edit : Edit) (state : State) → HaveCopies state → HaveCopies (edited_state edit state) }
{}

/// Where no class is RACLISTed, edits that list none leave the state that a restart makes.
pub fn unlisted_classes_need_no_copies()
    ensures state { (edits : List Edit) (rows : Rows) → IsTrue (is_none_listed rows) → IsTrue (list_all (λ (edit : Edit). not (is_of_copies edit)) edits) → changed_state edits (restart rows) ≡ restart (changed edits rows) }
    ensures none_listed { (edits : List Edit) (rows : Rows) → IsTrue (is_none_listed rows) → IsTrue (list_all (λ (edit : Edit). not (is_of_copies edit)) edits) → IsTrue (is_none_listed (changed edits rows)) }
{}

/// The rows of a state behind edits are the rows behind them.
pub fn rows_are_changed()
    ensures { (edits : List Edit) (state : State) → (changed_state edits state).rows ≡ changed edits state.rows }
{}

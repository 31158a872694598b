//! Laws of the definitions. The functions do nothing: their contracts are what is proved.
ghost use Rattle.std.specs.Prelude.{ℕ, ◌↔◌, List, IsTrue};
ghost use Rattle.racf_profiles.specs.declared.groups.Group.{Group};
ghost use Rattle.racf_profiles.specs.declared.rows.Rows.{Rows};
ghost use Rattle.racf_profiles.specs.Scope.{InScopeGroup, InScopeProfile};
ghost use Rattle.group_tree.specs.ScopeTest.{is_group_in_scope, is_profile_in_scope};
ghost use Rattle.racf_profiles.specs.Tree.{IsTree};

/// In a tree the test that tries the way up step by step tells what is in scope.
pub fn scope_is_tested()
    ensures group { (groups : List Group) (top id : List ℕ) → IsTree groups → IsTrue (is_group_in_scope groups top id) ↔ InScopeGroup groups top id }
    ensures profile { (rows : Rows) (top owner : List ℕ) → IsTree rows.groups → IsTrue (is_profile_in_scope rows top owner) ↔ InScopeProfile rows top owner }
{}

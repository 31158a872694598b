//! Laws of the definitions. The functions do nothing: their contracts are what is proved.
ghost use Rattle.std.specs.Prelude.{◌≡◌, ℕ, ◌+◌, ◌≤◌, List, length, None, Some};
ghost use Rattle.std.specs.List.{find};
ghost use Rattle.std.specs.Option.{option_map_or};
ghost use Rattle.generic_names.specs.Spelled.{Spelled};
ghost use Rattle.generic_names.specs.declared.kind.NameKind.{NameKind};
ghost use Rattle.racf_profiles.specs.declared.profiles.Profile.{Profile};
ghost use Rattle.racf_profiles.specs.declared.class_rows.ClassRow.{ClassRow};
ghost use Rattle.racf_profiles.specs.Lookup.{is_class, is_profile};
ghost use Rattle.racf_profiles.specs.Edits.{put_profile, at_class, with_profile, without_profile};
ghost use Rattle.racf_profiles.specs.LawfulProfiles.{AreProfiles, AreClasses, kind_in};
ghost use Rattle.racf_profiles.specs.Limits.{most_profiles, most_entries_in_all};
ghost use Rattle.class_profiles.specs.Classes.{ClassList, profile_in, IsRoomFor, CanPutIn};
ghost use Rattle.racf_profiles.specs.Counts.{profile_count, entry_count, entries_in};

/// A profile that is put counts in place of the one of its name, if there was one.
pub fn puts_are_counted()
    ensures length { (kind : NameKind) (profile : Profile) (profiles : List Profile) → AreProfiles kind profiles → profile.name.kind ≡ kind → length (put_profile profile profiles) + option_map_or (λ _. 1) (find (is_profile profile.name) profiles) 0 ≡ length profiles + 1 }
    ensures profiles { (class : List ℕ) (row : ClassRow) (profile : Profile) (classes : List ClassRow) → AreClasses classes → find (is_class class) classes ≡ Some row → profile.name.kind ≡ kind_in class → profile_count (at_class class (with_profile profile) classes) + option_map_or (λ _. 1) (profile_in class profile.name classes) 0 ≡ profile_count classes + 1 }
    ensures entries { (class : List ℕ) (row : ClassRow) (profile : Profile) (classes : List ClassRow) → AreClasses classes → find (is_class class) classes ≡ Some row → profile.name.kind ≡ kind_in class → entry_count (at_class class (with_profile profile) classes) + option_map_or entries_in (profile_in class profile.name classes) 0 ≡ entry_count classes + entries_in profile }
{
    generic_names::laws::order_is_total();
}

/// A profile that is taken away counts no more.
pub fn drops_are_counted()
    ensures profiles { (class : List ℕ) (name : Spelled) (classes : List ClassRow) → profile_count (at_class class (without_profile name) classes) + option_map_or (λ _. 1) (profile_in class name classes) 0 ≡ profile_count classes }
    ensures entries { (class : List ℕ) (name : Spelled) (classes : List ClassRow) → entry_count (at_class class (without_profile name) classes) + option_map_or entries_in (profile_in class name classes) 0 ≡ entry_count classes }
{}

/// The profiles of each class that is found are lawful.
pub fn found_is_lawful()
    ensures { (class : List ℕ) (row : ClassRow) (classes : List ClassRow) → AreClasses classes → find (is_class class) classes ≡ Some row → AreProfiles (kind_in class) row.profiles }
{}

/// A profile can be put where its class is known and has room for it, and the limits aren't reached: a profile that
/// replaces another is no more than that one, and the entries of that one count no more.
pub fn counts_are_enough()
    ensures { (list : ClassList) (class : List ℕ) (row : ClassRow) (profile : Profile) → AreClasses list.classes → profile_count list.classes ≤ most_profiles → find (is_class class) list.classes ≡ Some row → profile.name.kind ≡ kind_in class → (profile_in class profile.name list.classes ≡ None → IsRoomFor list class row) → entry_count list.classes + entries_in profile ≤ most_entries_in_all + option_map_or entries_in (profile_in class profile.name list.classes) 0 → CanPutIn list class profile }
{
    generic_names::laws::order_is_total();
}

//! The fixed classes and what each of them allows. What holds of dynamic classes too stands in `dynamic_classes`.
ghost use Rattle.std.specs.Prelude.{◌≡◌, Ok, option_copied};
ghost use Rattle.access_levels.specs.Spelling.{id_of};
ghost use Rattle.racf_profiles.specs.LawfulProfiles.{kind_in};
ghost use Rattle.racf_profiles.specs.ClassTable.{class_name, fixed_class, facts_of_class, class_table, facts_of};

use access_levels::Id;
use generic_names::NameKind;

/// The fixed classes, in the order of the table (this product's own).
#[derive(Clone, Copy, Debug, PartialEq, Eq)]
pub enum FixedClass {
    Dataset,
    Facility,
    Terminal,
    Console,
    Jesinput,
    Appcport,
    Appl,
    Opercmds,
    Surrogat,
    Tapevol,
    Dasdvol,
    Secdata,
    Seclabel,
    Global,
    Cdt,
}

/// Which names the profiles of a class have.
#[derive(Clone, Copy, Debug, PartialEq, Eq)]
pub enum NameForm {
    /// Names of data sets.
    DataSet,
    /// General resource names.
    General,
    /// Names of at most eight bytes, spelled as user IDs are.
    Identifier,
    /// SECLEVEL and CATEGORY alone.
    LevelOrCategory,
    /// The names of classes.
    Class,
}

/// What a class allows.
#[derive(Clone, Copy, Debug, PartialEq, Eq)]
pub struct ClassFacts {
    pub names: NameForm,
    /// The most bytes that a name may have, where the class sets a length of its own.
    pub longest: Option<u8>,
    /// The attribute OPERATIONS gives access.
    pub operations: bool,
    /// Profiles may be generic.
    pub generic: bool,
    /// SETROPTS RACLIST may be given for it.
    pub raclist: bool,
}

impl FixedClass {
    /// All fixed classes, in the order of the table.
    pub const ALL: [FixedClass; 15] = [
        FixedClass::Dataset,
        FixedClass::Facility,
        FixedClass::Terminal,
        FixedClass::Console,
        FixedClass::Jesinput,
        FixedClass::Appcport,
        FixedClass::Appl,
        FixedClass::Opercmds,
        FixedClass::Surrogat,
        FixedClass::Tapevol,
        FixedClass::Dasdvol,
        FixedClass::Secdata,
        FixedClass::Seclabel,
        FixedClass::Global,
        FixedClass::Cdt,
    ];

    /// The name of the class.
    pub fn name(self) -> &'static [u8]
        ensures name { result.now ≡ class_name self }
        ensures spelled { id_of result.now ≡ Ok result.now }
    {
        match self {
            FixedClass::Dataset => b"DATASET".as_slice(),
            FixedClass::Facility => b"FACILITY".as_slice(),
            FixedClass::Terminal => b"TERMINAL".as_slice(),
            FixedClass::Console => b"CONSOLE".as_slice(),
            FixedClass::Jesinput => b"JESINPUT".as_slice(),
            FixedClass::Appcport => b"APPCPORT".as_slice(),
            FixedClass::Appl => b"APPL".as_slice(),
            FixedClass::Opercmds => b"OPERCMDS".as_slice(),
            FixedClass::Surrogat => b"SURROGAT".as_slice(),
            FixedClass::Tapevol => b"TAPEVOL".as_slice(),
            FixedClass::Dasdvol => b"DASDVOL".as_slice(),
            FixedClass::Secdata => b"SECDATA".as_slice(),
            FixedClass::Seclabel => b"SECLABEL".as_slice(),
            FixedClass::Global => b"GLOBAL".as_slice(),
            FixedClass::Cdt => b"CDT".as_slice(),
        }
    }

    /// The name of the class, as an identifier.
    pub fn id(self) -> Id
        ensures { result ≡ class_name self }
    {
        Id::known(self.name())
    }

    /// What the class allows.
    pub fn facts(self) -> &'static ClassFacts
        ensures { result.now ≡ facts_of_class self }
    {
        &CLASS_TABLE[self as usize]
    }

    /// The fixed class of that name.
    pub fn of(name: Id) -> Option<FixedClass>
        ensures { result ≡ fixed_class name }
    {
        FixedClass::ALL
            .iter()
            .copied()
            .find(|class| class.name() == name.text())
    }
}

/// The table of the fixed classes.
pub const CLASS_TABLE: [ClassFacts; 15] = [
    ClassFacts {
        names: NameForm::DataSet,
        longest: None,
        operations: true,
        generic: true,
        raclist: false,
    },
    ClassFacts {
        names: NameForm::General,
        longest: None,
        operations: false,
        generic: true,
        raclist: true,
    },
    ClassFacts {
        names: NameForm::General,
        longest: None,
        operations: false,
        generic: true,
        raclist: true,
    },
    ClassFacts {
        names: NameForm::General,
        longest: None,
        operations: false,
        generic: true,
        raclist: true,
    },
    ClassFacts {
        names: NameForm::General,
        longest: None,
        operations: false,
        generic: true,
        raclist: true,
    },
    ClassFacts {
        names: NameForm::General,
        longest: None,
        operations: false,
        generic: true,
        raclist: true,
    },
    ClassFacts {
        names: NameForm::General,
        longest: None,
        operations: false,
        generic: true,
        raclist: true,
    },
    ClassFacts {
        names: NameForm::General,
        longest: None,
        operations: false,
        generic: true,
        raclist: true,
    },
    ClassFacts {
        names: NameForm::General,
        longest: None,
        operations: false,
        generic: true,
        raclist: true,
    },
    ClassFacts {
        names: NameForm::General,
        longest: None,
        operations: true,
        generic: true,
        raclist: true,
    },
    ClassFacts {
        names: NameForm::General,
        longest: None,
        operations: true,
        generic: true,
        raclist: true,
    },
    ClassFacts {
        names: NameForm::LevelOrCategory,
        longest: None,
        operations: false,
        generic: false,
        raclist: false,
    },
    ClassFacts {
        names: NameForm::Identifier,
        longest: None,
        operations: false,
        generic: false,
        raclist: true,
    },
    ClassFacts {
        names: NameForm::Class,
        longest: None,
        operations: false,
        generic: false,
        raclist: false,
    },
    ClassFacts {
        names: NameForm::Identifier,
        longest: None,
        operations: false,
        generic: false,
        raclist: false,
    },
];

/// The table of the fixed classes, in its order.
pub fn class_table() -> &'static [ClassFacts]
    ensures { result.now ≡ class_table }
{
    &CLASS_TABLE
}

/// What the class of that name allows; none where it is no fixed class.
pub fn class_facts(name: Id) -> Option<&'static ClassFacts>
    ensures { option_copied result ≡ facts_of name }
{
    match FixedClass::of(name) {
        Some(class) => Some(class.facts()),
        None => None,
    }
}

/// The kind of the names of a class's profiles.
pub fn kind_in(class: Id) -> NameKind
    ensures { result ≡ kind_in class }
{
    kind_of_class(class.text())
}

/// The kind of the names of the profiles of a class that has this name.
pub fn kind_of_class(name: &[u8]) -> NameKind
    ensures { result ≡ kind_in name.now }
{
    if name == b"DATASET".as_slice() {
        NameKind::DataSet
    } else {
        NameKind::General
    }
}

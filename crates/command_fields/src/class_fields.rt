//! The commands on the classes that an installation defines, each with a field for its positional word and one for each
//! of its operands: RDEFINE and RALTER in class CDT, whose profiles have the names of those classes.

ghost use Rattle.std.specs.Prelude.{◌≡◌, bytes_eq};
ghost use Rattle.command_fields.specs.Classes.{cdt as cdt_name};

use access_levels::Id;
use generic_names::Pattern;

/// The class CDT.
pub fn cdt() -> Id
    ensures { result ≡ cdt_name }
{
    Id::known(b"CDT")
}

/// Whether a class is CDT.
pub fn is_cdt(class: Id) -> bool
    ensures { result ≡ bytes_eq class cdt_name }
{
    class.text() == b"CDT".as_slice()
}

/// RDEFINE in class CDT defines a class (z/OS Security Server RACF Command Language Reference, RDEFINE, has it under
/// CDTINFO; the operands are this product's own).
#[derive(Drop)]
pub struct DefineClass {
    /// The class's name, which is its profile's in CDT.
    pub profile: Pattern,
    pub owner: Option<Id>,
    /// How many bytes a profile's name has at most: 1 to 246.
    pub maxlength: Option<u8>,
    /// Whether the attribute OPERATIONS gives access.
    pub operations: Option<bool>,
    pub names: Option<ClassNames>,
}

/// RALTER in class CDT changes the owner of a class's profile.
#[derive(Drop)]
pub struct AlterClass {
    /// The class's name, which is its profile's in CDT.
    pub profile: Pattern,
    pub owner: Option<Id>,
}

/// Which names the profiles of such a class have.
#[derive(Clone, Copy, Debug, PartialEq, Eq)]
pub enum ClassNames {
    /// General resource names, generic ones too.
    Full,
    /// Names with an ID's spelling.
    Id,
}

impl ClassNames {
    ghost use Rattle.command_fields.specs.Classes.{class_names_name};

    /// The word that spells it.
    pub fn name(self) -> &'static [u8]
        ensures { result.now ≡ class_names_name self }
    {
        match self {
            ClassNames::Full => b"FULL".as_slice(),
            ClassNames::Id => b"ID".as_slice(),
        }
    }
}

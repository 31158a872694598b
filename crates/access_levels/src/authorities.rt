//! Group authorities.
ghost use Rattle.std.specs.Prelude.{◌≡◌, Some};
ghost use Rattle.access_levels.specs.Level.{authority_rank, authority_name};
ghost use Rattle.access_levels.specs.Spelling.{authority_of};

/// What a user may do in a group that he is connected to. The authorities rise, and each includes all
/// before it (z/OS Security Server RACF Command Language Reference, CONNECT, AUTHORITY).
#[derive(Clone, Copy, Debug, PartialEq, Eq, PartialOrd, Ord, Hash)]
pub enum GroupAuthority {
    MayUse,
    MayCreate,
    MayConnect,
    MayJoin,
}

impl GroupAuthority {
    /// All authorities, the lowest first.
    pub const ALL: [GroupAuthority; 4] = [
        GroupAuthority::MayUse,
        GroupAuthority::MayCreate,
        GroupAuthority::MayConnect,
        GroupAuthority::MayJoin,
    ];

    /// The authority that a word spells, in upper case: `USE`, `CREATE`, `CONNECT` or `JOIN`.
    pub fn read(bytes: &[u8]) -> Option<GroupAuthority>
        ensures { result ≡ authority_of bytes.now }
    {
        GroupAuthority::ALL
            .iter()
            .copied()
            .find(|authority| authority.name() == bytes)
    }

    /// Its place among the authorities, from 0.
    pub fn rank(self) -> u8
        ensures { result ≡ authority_rank self }
    {
        self as u8
    }

    /// The word that spells it.
    pub fn name(self) -> &'static [u8]
        ensures word { result.now ≡ authority_name self }
        ensures read_back { authority_of result.now ≡ Some self }
    {
        match self {
            GroupAuthority::MayUse => b"USE".as_slice(),
            GroupAuthority::MayCreate => b"CREATE".as_slice(),
            GroupAuthority::MayConnect => b"CONNECT".as_slice(),
            GroupAuthority::MayJoin => b"JOIN".as_slice(),
        }
    }
}

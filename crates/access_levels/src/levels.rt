//! Access levels.
ghost use Rattle.std.specs.Prelude.{◌≡◌, Some};
ghost use Rattle.access_levels.specs.Level.{level_rank, level_name, suffices};
ghost use Rattle.access_levels.specs.Spelling.{level_of};

/// How much access to a resource an entry gives or a request asks for. The levels rise, and each
/// includes all before it (z/OS Security Server RACF Security Administrator's Guide, access authorities).
#[derive(Clone, Copy, Debug, PartialEq, Eq, PartialOrd, Ord, Hash)]
pub enum Level {
    NoAccess,
    Execute,
    Read,
    Update,
    Control,
    Alter,
}

impl Level {
    /// All levels, the lowest first.
    pub const ALL: [Level; 6] = [
        Level::NoAccess,
        Level::Execute,
        Level::Read,
        Level::Update,
        Level::Control,
        Level::Alter,
    ];

    /// The level that a word spells, in upper case: `NONE`, `EXECUTE`, `READ`, `UPDATE`, `CONTROL` or `ALTER`.
    pub fn read(bytes: &[u8]) -> Option<Level>
        ensures { result ≡ level_of bytes.now }
    {
        Level::ALL
            .iter()
            .copied()
            .find(|level| level.name() == bytes)
    }

    /// Its place among the levels, from 0.
    pub fn rank(self) -> u8
        ensures { result ≡ level_rank self }
    {
        self as u8
    }

    /// The word that spells it.
    pub fn name(self) -> &'static [u8]
        ensures word { result.now ≡ level_name self }
        ensures read_back { level_of result.now ≡ Some self }
    {
        match self {
            Level::NoAccess => b"NONE".as_slice(),
            Level::Execute => b"EXECUTE".as_slice(),
            Level::Read => b"READ".as_slice(),
            Level::Update => b"UPDATE".as_slice(),
            Level::Control => b"CONTROL".as_slice(),
            Level::Alter => b"ALTER".as_slice(),
        }
    }

    /// Whether access at this level covers a request for the level `asked`.
    pub fn suffices(self, asked: Level) -> bool
        ensures { result ≡ suffices self asked }
    {
        self.rank() >= asked.rank()
    }
}

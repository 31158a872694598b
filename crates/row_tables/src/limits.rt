//! How much a database holds (this product's own limits).

/// The most users.
pub const MOST_USERS: usize = 20_000;

/// The most groups.
pub const MOST_GROUPS: usize = 8_000;

/// The most connections of one user.
pub const MOST_CONNECTIONS: usize = 300;

/// The most connections of all users.
pub const MOST_CONNECTIONS_IN_ALL: usize = 200_000;

/// The most members of one profile.
pub const MOST_MEMBERS: usize = 1_000;

/// The most categories ever defined.
pub const MOST_CATEGORIES: usize = 256;

/// The most classes that RDEFINE in class CDT defines.
pub const MOST_DYNAMIC_CLASSES: usize = 32;

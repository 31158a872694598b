ghost use Rattle.std.specs.Prelude.{◌≡◌, ℕ, List};
ghost use Rattle.sorted_rows.specs.Found.{is_from};

use pages::Test;

/// A row that has a key, by which it stands in a table.
pub trait Keyed: Drop {
    ghost key: { Self → List ℕ };

    fn key(&self) -> &[u8]
        ensures { result.now ≡ key self.now };
}

/// Whether a row has a key, or stands behind it.
#[derive(Drop)]
pub(crate) struct IsFrom<'a> {
    pub key: &'a [u8],
}

impl<R: Keyed> Test<R> for IsFrom<'_> {
    ghost passes = { λ test. is_from R.key test.key.now };

    fn passes(&self, row: &R) -> bool {
        !row.key().cmp(&self.key).is_lt()
    }
}

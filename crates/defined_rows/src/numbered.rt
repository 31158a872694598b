ghost use Rattle.std.specs.Prelude.{nat_le};

use pages::Test;
use sorted_rows::Keyed;

/// A row with its number, by which it stands in the order of definition.
#[derive(Drop)]
pub(crate) struct Defined<R> {
    /// Its number: rows that were defined later have greater ones.
    pub number: u64,
    /// The row.
    pub row: R,
}

impl<R: Keyed> Keyed for Defined<R> {
    ghost key = { λ defined. R.key defined.row };

    fn key(&self) -> &[u8] {
        self.row.key()
    }
}

/// Whether a row has a number, or stands behind it.
#[derive(Drop)]
pub(crate) struct IsFrom {
    /// The number.
    pub number: u64,
}

impl<R> Test<Defined<R>> for IsFrom {
    ghost passes = { λ test defined. nat_le test.number defined.number };

    fn passes(&self, defined: &Defined<R>) -> bool {
        self.number <= defined.number
    }
}

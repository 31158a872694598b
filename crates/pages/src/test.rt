ghost use Rattle.std.specs.Prelude.{◌≡◌, Bool};

/// A question about an item.
pub trait Test<T> {
    ghost passes: { Self → T → Bool };

    fn passes(&self, item: &T) -> bool
        ensures { result ≡ passes self.now item.now };
}

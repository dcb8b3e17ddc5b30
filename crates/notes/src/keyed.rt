// What an entry of a table is for.
ghost use Rattle.std.specs.Prelude.{◌≡◌};

use reader::ids::Eui64;

/// An entry of a table, which is for some key.
pub trait Keyed {
    type Key: Copy + PartialEq;

    ghost key: { Self → Self.Key };

    /// The key that it is for.
    fn key(&self) -> Self::Key
        ensures { result ≡ key self.now };

    /// Whether it is for a key. Where a key has more than one field, an entry may compare them where they lie.
    fn is_for(&self, wanted: &Self::Key) -> bool
        ensures { result ≡ Self.Key.eq (key self.now) wanted.now }
    {
        self.key() == *wanted
    }
}

impl Keyed for Eui64 {
    type Key = Eui64;

    ghost key = { λ e. e };

    fn key(&self) -> Eui64 {
        *self
    }
}

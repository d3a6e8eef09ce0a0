//! Tests of keys.

ghost use Rattle.std.specs.Prelude.{◌≡◌, Bool};

/// A test that a key passes or fails, whatever tree and node it is in.
pub trait KeyTest<K> {
    ghost passes: { Self → K → Bool };

    /// Whether the key passes.
    fn passes(&self, key: &K) -> bool
        ensures { result ≡ passes self.now key.now };
}

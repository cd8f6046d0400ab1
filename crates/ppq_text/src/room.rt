//! Memory for bytes that are gathered.
ghost use Rattle.std.specs.Prelude.{◌≡◌, ◌≤◌, ◌<◌, ◌+◌, ◌^◌, ◌++◌, [], List, ℕ, length};

/// Memory for so many bytes, of which the first ones are gathered.
pub trait Room: Drop {
    /// How many bytes it has room for.
    const CAPACITY: usize;

    ghost CAPACITY: { ℕ };

    /// The bytes that are gathered in it.
    ghost held: { Self → List ℕ };

    /// The bytes that are gathered in it.
    fn bytes(&self) -> &[u8]
        ensures { result.now ≡ held self.now };

    /// Gathers these bytes behind the others.
    fn append(&mut self, text: &[u8])
        requires { length (held self.old) + length text.now ≤ CAPACITY }
        ensures { held self.new ≡ held self.old ++ text.now };

    /// Forgets the bytes that were gathered.
    fn clear(&mut self)
        ensures { held self.new ≡ [] };
}

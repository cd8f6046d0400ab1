//! The shape of an item.
ghost use Rattle.std.specs.Prelude.{◌≡◌, ℕ};

/// An item with a shape, as a buffer that has room for so many records. The items of a pool are all
/// of one shape.
pub trait Shaped {
    ghost shape_of: { Self → ℕ };

    /// The shape.
    fn shape(&self) -> u32
        ensures { result ≡ shape_of self.now };
}

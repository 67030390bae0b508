//! Names of components.

ghost use Rattle.std.specs.Prelude.{◌≡◌, ℕ, List};

/// The names of components, by their numbers.
///
/// Its ghost member is that same function, as the contracts of texts cite it.
pub trait Names {
    ghost name_of: { Self → ℕ → List ℕ };

    /// The name of a component. Of a number that no component has, any text.
    fn name(&self, component: usize) -> &str
        ensures { result.now ≡ name_of self.now component };
}

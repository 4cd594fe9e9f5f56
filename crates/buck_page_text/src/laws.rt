//! Laws of what is written.
ghost use Rattle.std.specs.Prelude.{◌≡◌, ◌∷◌, ◌++◌, Some};
ghost use Rattle.buck_page_text.specs.Names.{field_of, quoted};

/// A name that stands as a field at the end of a line is read back as it was, and so is what follows it.
pub fn fields_are_read_again(name: &[u8], rest: &[u8])
    ensures { field_of (quoted name.now ++ (10 ∷ rest.now)) ≡ Some (name.now, 10 ∷ rest.now) }
{}

//! Laws of what is written and read.
ghost use Rattle.std.specs.Prelude.{◌≡◌, ◌≤◌, Ok};
ghost use Rattle.std.specs.List.{All};
ghost use Rattle.buck_record.specs.bytes.Record.{numbers_of};
ghost use Rattle.buck_record.specs.writing.Written.{spelled};

/// Numbers that are written in decimal, a space before each, are read again as they were.
pub fn numbers_are_read_again(numbers: &[u32])
    ensures { All (λ n. n ≤ 4294967295) numbers.now → numbers_of (spelled numbers.now) ≡ Ok numbers.now }
{}

// The names that a line of a script lends to the texts after it.
ghost use Rattle.std.specs.Prelude.{◌≤◌, length};
ghost use Rattle.common.specs.Limits.{max_bytes};

/// The bytes behind the word of the line, not more than a program takes; none before the first such line.
#[derive(Clone, Copy)]
pub struct LentNames<'a> {
    pub bytes: &'a [u8],
    ghost few: { length bytes.now ≤ max_bytes },
}

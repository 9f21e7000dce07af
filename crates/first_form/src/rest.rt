ghost use Rattle.std.specs.Prelude.{◌+◌, ◌^◌, ◌<◌, length};

/// What is left of a source to read.
#[derive(Clone, Copy)]
pub struct Rest<'a> {
    /// The bytes that are left.
    pub bytes: &'a [u8],
    /// The line of the first of them, from 1.
    pub line: u32,
    ghost lines_fit: { line + length bytes.now < 2 ^ 32 },
}

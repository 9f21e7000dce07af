ghost use Rattle.std.specs.Prelude.{◌≡◌};
ghost use Rattle.c_known.specs.Views.{line_in as told_line};

use c_entities::File;

/// A line of a file as it is told: one of the binary file is 2,000,000 more.
pub fn line_in(file: File, line: u32) -> u32
    ensures { result ≡ told_line file line }
{
    match file {
        File::Main => line,
        File::Binary => line.saturating_add(2_000_000),
    }
}

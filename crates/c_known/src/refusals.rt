ghost use Rattle.std.specs.Prelude.{◌≡◌};
ghost use Rattle.c_known.specs.Refusals.{ruled_as, needed_as, given_as};

use typing_rules::TypeRefusal;

/// What a rule on types allows, or its number as a mismatch at a line.
pub fn ruled<T>(line: u32, found: Result<T, u8>) -> Result<T, TypeRefusal>
    ensures { result ≡ ruled_as line found }
{
    match found {
        Ok(value) => Ok(value),
        Err(rule) => Err(TypeRefusal::Mismatch(line, rule)),
    }
}

/// Goes on only where a test holds.
pub fn needs(test: bool, refusal: TypeRefusal) -> Result<(), TypeRefusal>
    ensures { result ≡ needed_as test refusal }
{
    if test { Ok(()) } else { Err(refusal) }
}

/// What is there, or a refusal.
pub fn given<T>(found: Option<T>, refusal: TypeRefusal) -> Result<T, TypeRefusal>
    ensures { result ≡ given_as found refusal }
{
    match found {
        Some(value) => Ok(value),
        None => Err(refusal),
    }
}

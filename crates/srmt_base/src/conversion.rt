ghost use Rattle.std.specs.Prelude.{◌≡◌, ◌<◌, ◌^◌};
ghost use Rattle.srmt_base.specs.Types.{kept_width_of};
ghost use Rattle.srmt_base.specs.Convert.{convert_of};

use crate::ty::{Ty, keep};

/// Converts a number from a type to another (C11 6.3.1.2, 6.3.1.3).
pub fn convert(from: Ty, to: Ty, a: u64) -> u64
    ensures exact { result ≡ convert_of from to a }
    ensures small { result < 2 ^ kept_width_of to }
{
    let value = from.read(a);
    if to == Ty::Bool {
        u64::from(value != 0)
    } else {
        keep(to.wrap(value))
    }
}

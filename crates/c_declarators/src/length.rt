ghost use Rattle.std.specs.Prelude.{◌≡◌};
ghost use Rattle.typing_rules.specs.Terms as terms;
ghost use Rattle.typing_rules.specs.DeclaratorRules as rule;
ghost use Rattle.typing_rules.specs.Checking.{ruled_by};
ghost use Rattle.c_values.specs.Stand.{MeansWritten};
ghost use Rattle.c_values.specs.Answers.{Answers};
ghost use Rattle.c_known.specs.Gives.{IsSame};

use crate::derivation::Lines;
use c_typed::Constant;
use c_types::Types;
use c_values::Written;
use typing_rules::TypeRefusal;

/// The greatest length of an array.
const MOST_CELLS: u64 = 65535;

/// The length that a constant gives, or the number of the rule that is broken.
fn constant_length(constant: Constant) -> Result<u32, u8>
    ensures { result ≡ rule.constant_length constant }
{
    match constant {
        Constant::NoForm => Err(15),
        Constant::Traps => Err(15),
        Constant::Value(n) => {
            if n > 0 && n <= MOST_CELLS {
                Ok(n as u32)
            } else {
                Err(15)
            }
        }
    }
}

/// The length that a value gives, or the number of the rule that is broken.
fn length_rule(types: &Types, value: &Written) -> Result<u32, u8>
    ensures { (w : terms.Written) → MeansWritten types.now value.now w → result ≡ rule.length_of w.value }
{
    let ty = value.typed.value.get().ty;
    if types.is_void(ty) {
        Err(14)
    } else if types.is_integer(ty) {
        constant_length(value.typed.constant)
    } else {
        Err(15)
    }
}

/// The length of an array (C11 6.7.6.2p1), whose line is that of the lengths of its declarator.
pub fn length_of(types: &Types, at: Lines, value: &Written) -> Result<u32, TypeRefusal>
    ensures { (w : terms.Written) → MeansWritten types.now value.now w
        → Answers (IsSame types.now) result (ruled_by at.lengths (rule.length_of w.value)) }
{
    match length_rule(types, value) {
        Ok(length) => Ok(length),
        Err(rule) => Err(TypeRefusal::Mismatch(at.lengths, rule)),
    }
}

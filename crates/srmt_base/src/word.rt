ghost use Rattle.std.specs.Prelude.{◌≡◌, ℕ, ◌+◌, ◌*◌, ◌^◌, ◌<◌, ◌≤◌, ◌↔◌, IsSome, IfSome};
ghost use Rattle.srmt_base.specs.Word.{kind_code, word_of, kind_part, site_part, value_part, IsWord};

use std::marker::Model;

/// What a word of the exchange is, in the order of its code, from 1.
#[derive(Clone, Copy, Debug, PartialEq, Eq)]
pub enum Kind {
    /// An operand that the trailing thread compares with its own.
    Check = 1,
    /// A result of the outside.
    Value,
    /// A trap of the outside: its code times 2^32, and its line.
    Trap,
    /// A call of a protected function by the binary file: its number.
    Callback,
    /// The echo of an operand by the trailing thread.
    Ack,
    /// The end by `exit` in the binary file: its status.
    Exit,
}

/// The number of an instruction that reaches the outside, from 1.
#[derive(Clone, Copy, Debug, PartialEq, Eq)]
pub struct Site(pub u16);

/// A word of the exchange: kind times 2^60, site times 2^44, and a value below 2^44.
#[derive(Clone, Copy, Debug, PartialEq, Eq)]
pub struct Word {
    bits: u64,
}

impl Model for Word {
    ghost use Rattle.std.specs.Prelude.{ℕ};
    ghost use Rattle.srmt_base.specs.Word.{IsWord};

    ghost Value = { ℕ };

    ghost view = { λ w. w.bits };

    ghost invariant = { λ w. IsWord w.bits };

    ghost inverse = { λ n. record { bits = n } };
}

/// What one site is worth in a word: the values below it are 44 bits.
const SITE_UNIT: u64 = 1 << 44;

/// What one kind is worth in a word: the sites below it are 16 bits.
const KIND_UNIT: u64 = 1 << 60;

/// The word of a kind, a site and a value.
pub fn pack(kind: Kind, site: Site, value: u64) -> Word
    requires { value < 2 ^ 44 }
    ensures { result ≡ word_of kind site.0 value }
{
    Word {
        bits: kind as u64 * KIND_UNIT + u64::from(site.0) * SITE_UNIT + value,
    }
}

impl Word {
    pub fn kind(self) -> Kind
        ensures { kind_code result ≡ kind_part self }
    {
        match self.bits / KIND_UNIT {
            1 => Kind::Check,
            2 => Kind::Value,
            3 => Kind::Trap,
            4 => Kind::Callback,
            5 => Kind::Ack,
            _ => Kind::Exit,
        }
    }

    pub fn site(self) -> Site
        ensures { result.0 ≡ site_part self }
    {
        Site((self.bits / SITE_UNIT % (1 << 16)) as u16)
    }

    /// The value, below 2^44.
    pub fn value(self) -> u64
        ensures exact { result ≡ value_part self }
        ensures small { result < 2 ^ 44 }
    {
        self.bits % SITE_UNIT
    }

    /// The word as a number of 64 bits.
    pub fn bits(self) -> u64
        ensures same { result ≡ self }
        ensures a_word { IsWord result }
    {
        self.bits
    }

    /// The word that a number of 64 bits is, or `None` where its kind is none of the six.
    pub fn of_bits(bits: u64) -> Option<Self>
        ensures a_word { IsSome result ↔ IsWord bits }
        ensures same { IfSome result (λ w. w ≡ bits) }
    {
        match bits / KIND_UNIT {
            1..=6 => Some(Word { bits }),
            _ => None,
        }
    }
}

ghost use Rattle.std.specs.Prelude.{◌≡◌, ◌<◌, ◌-◌, ℕ, ◌^◌, ◌↔◌, pos, neg_ℤ, ◌≤ℤ◌, ◌<ℤ◌, IsTrue, IsSome, IfSome};
ghost use Rattle.srmt_base.specs.Types.{ty_code, width_of, is_signed, least_of, greatest_of, can_hold, IsPromoted, kept_width_of, value_at, wrapped, kept};

use crate::codes::in_order;

/// An integer type of the accepted subset of C (C11 6.2.5), in the order of its code, from 0.
#[derive(Clone, Copy, Debug, PartialEq, Eq)]
pub enum Ty {
    /// `_Bool`: 0 or 1.
    Bool,
    /// `char`: 8 bits, signed here.
    Char,
    /// `signed char`: 8 bits.
    SChar,
    /// `unsigned char`: 8 bits.
    UChar,
    /// `short`: 16 bits.
    Short,
    /// `unsigned short`: 16 bits.
    UShort,
    /// `int`: 32 bits.
    Int,
    /// `unsigned int`: 32 bits.
    UInt,
}

/// A type, its width in bits, and whether it has a sign.
#[derive(Clone, Copy)]
struct Row {
    ty: Ty,
    width: u32,
    signed: bool,
}

macro_rules! rows {
    ($(($ty:ident $width:literal $signed:literal))*) => {
        [$(Row { ty: Ty::$ty, width: $width, signed: $signed }),*]
    };
}

/// The types in the order of their codes.
const TYPES: [Row; 8] = rows! {
    (Bool 1 false)
    (Char 8 true)
    (SChar 8 true)
    (UChar 8 false)
    (Short 16 true)
    (UShort 16 false)
    (Int 32 true)
    (UInt 32 false)
};

const _: () = in_order!(TYPES.ty; 0 1 2 3 4 5 6 7);

/// A value of a type of at most 32 bits is kept modulo this number.
pub(crate) const KEPT: u64 = 1 << 32;

impl Ty {
    /// The code, 0 to 7.
    pub fn code(self) -> u8
        ensures { result ≡ ty_code self }
    {
        self as u8
    }

    /// The type of a code, or `None` where the code is above 7.
    pub fn of_code(code: u8) -> Option<Self>
        ensures a_code { IsSome result ↔ (code < 8) }
        ensures same { IfSome result (λ ty. ty_code ty ≡ code) }
    {
        TYPES.get(usize::from(code)).map(|row| row.ty)
    }

    /// The width in bits, the sign included.
    pub fn width(self) -> u32
        ensures { result ≡ width_of self }
    {
        TYPES[self as usize].width
    }

    /// Whether the type has a sign.
    pub fn is_signed(self) -> bool
        ensures { result ≡ is_signed self }
    {
        TYPES[self as usize].signed
    }

    /// Whether arithmetic is made at the type: `int` or `unsigned int`.
    pub fn is_promoted(self) -> bool
        ensures { IsTrue result ↔ IsPromoted self }
    {
        matches!(self, Ty::Int | Ty::UInt)
    }

    /// The least value of the type.
    pub fn least(self) -> i128
        ensures { result ≡ least_of self }
    {
        if self.is_signed() {
            -(1 << (self.width() - 1))
        } else {
            0
        }
    }

    /// The greatest value of the type.
    pub fn greatest(self) -> i128
        ensures { result ≡ greatest_of self }
    {
        if self.is_signed() {
            (1 << (self.width() - 1)) - 1
        } else {
            (1 << self.width()) - 1
        }
    }

    /// Whether the type can represent a value.
    pub fn can_hold(self, value: i128) -> bool
        ensures { result ≡ can_hold self value }
    {
        self.least() <= value && value <= self.greatest()
    }

    /// What a number stands for when it is read at the type.
    pub(crate) fn read(self, number: u64) -> i64
        ensures value { result ≡ value_at self number }
        ensures least { neg_ℤ (pos (2 ^ (kept_width_of self - 1))) ≤ℤ result }
        ensures greatest { result <ℤ pos (2 ^ kept_width_of self) }
    {
        let low = (number % KEPT) as u32;
        if self.is_signed() {
            i64::from(low.cast_signed())
        } else {
            i64::from(low)
        }
    }

    /// The value of the type that is congruent to a value modulo 2 to the type's width.
    pub(crate) fn wrap(self, value: i64) -> i64
        ensures { result ≡ wrapped self value }
    {
        let bits = value.cast_unsigned();
        match self {
            Ty::Bool => (bits % (1 << 1)) as i64,
            Ty::Char | Ty::SChar => i64::from(((bits % (1 << 8)) as u8).cast_signed()),
            Ty::UChar => (bits % (1 << 8)) as i64,
            Ty::Short => i64::from(((bits % (1 << 16)) as u16).cast_signed()),
            Ty::UShort => (bits % (1 << 16)) as i64,
            Ty::Int => i64::from(((bits % (1 << 32)) as u32).cast_signed()),
            Ty::UInt => (bits % (1 << 32)) as i64,
        }
    }
}

/// The number as which a value of a type of at most 32 bits is kept.
pub(crate) fn keep(value: i64) -> u64
    ensures exact { result ≡ kept value }
    ensures small { result < 2 ^ 32 }
{
    value.cast_unsigned() % KEPT
}

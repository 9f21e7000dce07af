/// Tests, as the crate is checked, that each row of a table stands at its code.
macro_rules! in_order {
    ($table:ident; $($code:literal)*) => {
        prove!($($table[$code] as usize == $code)&&*)
    };
    ($table:ident.$field:ident; $($code:literal)*) => {
        prove!($($table[$code].$field as usize == $code)&&*)
    };
}

pub(crate) use in_order;

/// What an instruction wants of memory, of the input or of the outlet. Each value and each pointer
/// is below 2^44.
#[derive(Clone, Copy, Debug, PartialEq, Eq)]
pub enum Access {
    /// The cell at the pointer is to be read into the register.
    Loads { target: u16, pointer: u64 },
    /// The value is to be written to the cell at the pointer.
    Stores { pointer: u64, value: u64 },
    /// The same as `Loads`, and an event (C11 5.1.2.3p6).
    VolatileLoads { target: u16, pointer: u64 },
    /// The same as `Stores`, and an event.
    VolatileStores { pointer: u64, value: u64 },
    /// An object of so many cells, all 0, is to begin, and its address to go into the register.
    Opens { target: u16, cells: u16 },
    /// The object of the number is to end.
    Closes { number: u32 },
    /// The value modulo 256 is to be written as a byte.
    Puts(u64),
    /// The next byte of the input is to be read into the register.
    Gets { target: u16 },
    /// The run is to end with the value modulo 256 as its status.
    Exits(u64),
}

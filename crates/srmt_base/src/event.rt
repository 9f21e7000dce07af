/// What a run does to the outside.
#[derive(Clone, Copy, Debug, PartialEq, Eq)]
pub enum Event {
    /// A byte that `putchar` writes.
    Byte(u8),
    /// A read through a volatile lvalue: object and offset.
    PortRead(u32, u16),
    /// A write through a volatile lvalue: object, offset and value.
    PortWrite(u32, u16, u64),
    /// The end by `exit` or by leaving `main`: the status modulo 256.
    Exit(u8),
}

use crate::registers::Registers;
use srmt_base::{Op, Ty};

/// An instruction of middle code.
///
/// A register is named by its number, from 0, in its activation; `target` is the register that
/// the instruction sets. A place is counted from 0 in the code that holds the instruction. A
/// scale is the number of cells of an element, from 1.
#[derive(Clone, Copy, Debug, PartialEq, Eq)]
pub enum Mid {
    /// Sets the target to a value below 2^44.
    Const {
        target: u16,
        value: u64,
    },
    /// Copies a register to another of its kind.
    Move {
        target: u16,
        source: u16,
    },
    /// Applies an operator at `int` or `unsigned int` (C11 6.5.3 to 6.5.14).
    Arith {
        op: Op,
        ty: Ty,
        target: u16,
        left: u16,
        right: u16,
    },
    /// Converts the source, read at the type `from`, to the type `to` (C11 6.3.1.2, 6.3.1.3).
    Conv {
        from: Ty,
        to: Ty,
        target: u16,
        source: u16,
    },
    /// Moves a pointer by an index, read at the type `ty`, times the scale, or back by it where
    /// it is negated (C11 6.5.6p8).
    PtrAdd {
        target: u16,
        pointer: u16,
        index: u16,
        ty: Ty,
        negated: bool,
        scale: u16,
    },
    /// The difference of two pointers, divided by the scale (C11 6.5.6p9).
    PtrDiff {
        target: u16,
        left: u16,
        right: u16,
        scale: u16,
    },
    /// Compares two pointers (C11 6.5.8p5, 6.5.9p6).
    PtrCmp {
        op: Op,
        target: u16,
        left: u16,
        right: u16,
    },
    /// The address of a static object, by its number.
    GlobAddr {
        target: u16,
        object: u32,
    },
    /// The number of a function, as a value.
    FunAddr {
        target: u16,
        function: u16,
    },
    /// Reads the cell to which a pointer points.
    Load {
        target: u16,
        pointer: u16,
    },
    /// Writes it.
    Store {
        pointer: u16,
        source: u16,
    },
    /// Reads a volatile cell, which is an event (C11 5.1.2.3p6).
    VLoad {
        target: u16,
        pointer: u16,
    },
    /// Writes it.
    VStore {
        pointer: u16,
        source: u16,
    },
    /// Begins an object of so many cells, all 0, and gives its address (C11 6.2.4p6).
    Open {
        target: u16,
        cells: u16,
    },
    /// Ends the newest live object of the activation, which the `Open` at the place began.
    Close {
        place: u32,
    },
    /// Goes on at the place.
    Jump {
        place: u32,
    },
    /// Goes on at the place where the source is 0.
    JumpZ {
        source: u16,
        place: u32,
    },
    /// Goes on at the place where the source is not 0.
    JumpN {
        source: u16,
        place: u32,
    },
    /// Counts one turn: the entry of a loop, or its next round.
    Turn,
    /// Calls a function by its number (C11 6.5.2.2).
    Call {
        target: u16,
        function: u16,
        args: Registers,
    },
    /// Calls the function of this type whose number the register `callee` holds.
    CallPtr {
        target: u16,
        callee: u16,
        ty: u16,
        args: Registers,
    },
    /// Leaves the function with the source as its result (C11 6.8.6.4).
    Return {
        source: u16,
    },
    /// Writes the source modulo 256 as a byte: `putchar` (C11 7.21.7.8).
    Put {
        source: u16,
    },
    /// Reads the next byte of the input: `getchar` (C11 7.21.7.6).
    Get {
        target: u16,
    },
    /// Ends the run with the source modulo 256 as its status: `exit` (C11 7.22.4.4).
    Exit {
        source: u16,
    },
}

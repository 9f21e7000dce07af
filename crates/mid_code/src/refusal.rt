/// Why a program is not valid: the first place, by function and then by place, that breaks a
/// rule, and the least rule that is broken there.
///
/// 1: a number is outside its limit. 3: what an operand names is not there. 4: a register has
/// another kind than its operand wants. 5: a place is past the code, or a jump leads back to other
/// than a `Turn`. 6: the last instruction is followed by another. 7: arguments or a result do not
/// have the kinds of the type. 8: objects do not open and close in order. Rule 2, that an
/// instruction has a code, cannot be broken by a `MidProgram`.
#[derive(Clone, Copy, Debug, PartialEq, Eq)]
pub struct MidRefusal {
    /// The number of the function, from 1, or 0 where what is wrong concerns none.
    pub function: u16,
    /// The place of the instruction, or 0 where what is wrong concerns none.
    pub place: u32,
    /// The rule, from 1 to 8.
    pub rule: u8,
}

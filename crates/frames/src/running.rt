ghost use Rattle.std.specs.Prelude.{◌≡◌, ◌+◌, ◌^◌, ◌<◌, [], OnOk, IfSome, IfOk, OnErr};
ghost use Rattle.std.specs.Option.{option_copied};
ghost use Rattle.mid_code.specs.Program.{line_at};

use crate::frames::Frames;
use crate::input::Input;
use crate::memory::Memory;
use mid_code::{MidLine, MidProgram};

/// For how many open objects there is room in a run: each has a cell, and each part has at most
/// 1,048,576.
pub const OPEN_OBJECTS: u32 = 2_097_152;

/// A run at some moment: its live activations, the memory of both parts, and the rest of the input.
#[derive(Debug, Drop)]
pub struct Running {
    pub frames: Frames,
    pub memory: Memory,
    pub input: Input,
}

/// The instruction at which the newest activation stands.
pub fn next_line<'a>(program: &'a MidProgram, frames: &Frames) -> Option<&'a MidLine>
    ensures { let a = frames.now.machine.top in option_copied result ≡ line_at program.now a.function a.place }
{
    let function = program.function(frames.function())?;
    function.code.get(frames.place() as usize)
}

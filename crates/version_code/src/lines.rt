ghost use Rattle.std.specs.Prelude.{◌≡◌, ◌≤◌, [], length, IfOk};
ghost use Rattle.version_code.specs.Lines.{Gathered, gained};

use mid_code::{Version, VersionLine, VersionOp};
use sqlite_items::Items;
use std::alloc::{AllocError, Global};
use std::marker::Model;

/// The instructions of a version so far, and room for those that are to come.
#[derive(Debug, Drop)]
pub struct Lines {
    code: Vec<VersionLine>,
}

impl Model for Lines {
    ghost use Rattle.std.specs.Prelude.{◌-◌, vec_len, vec_capacity};
    ghost use Rattle.version_code.specs.Lines.{Gathered};

    ghost Value = { Gathered };

    ghost view = { λ l. record { code = l.code.items; room = vec_capacity l.code - vec_len l.code } };
}

impl Lines {
    ghost use Rattle.std.specs.Prelude.{◌≡◌, ◌≤◌, [], length, IfOk};
    ghost use Rattle.version_code.specs.Lines.{gained};

    /// No instructions, and room for so many.
    pub fn with_room(alloc: Global, room: usize) -> Result<Lines, AllocError>
        ensures { IfOk result (λ lines. lines ≡ record { code = []; room = room }) }
    {
        Ok(Lines {
            code: Vec::with_capacity(alloc, room)?,
        })
    }

    /// Appends instructions, all of one line of the source.
    pub fn add(&mut self, line: u32, ops: &[VersionOp])
        requires { length ops.now ≤ self.old.room }
        ensures { self.new ≡ gained self.old line ops.now }
    {
        for op in ops {
            self.code.push_reserved(VersionLine { line, op: *op });
        }
    }

    /// The version that has these instructions.
    pub fn into_version(self) -> Version
        ensures { result ≡ record { code = self.code } }
    {
        Version {
            code: Items::from_vec(self.code),
        }
    }
}

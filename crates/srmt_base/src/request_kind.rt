ghost use Rattle.std.specs.Prelude.{◌≡◌, ◌≤◌, ◌↔◌, IsSome, IfSome};
ghost use Rattle.srmt_base.specs.RequestKind.{request_code};

/// What the leading thread asks of the world, in the order of its code, from 1.
#[derive(Clone, Copy, Debug, PartialEq, Eq)]
pub enum RequestKind {
    /// A cell is to be read.
    Load = 1,
    /// A cell is to be written.
    Store,
    /// A volatile cell is to be read, with its event.
    VLoad,
    /// A volatile cell is to be written, with its event.
    VStore,
    /// A byte is to be written.
    Put,
    /// The next byte of the input is to be read.
    Get,
    /// The run is to end.
    Exit,
    /// An object is to begin.
    Open,
    /// An object is to end.
    Close,
    /// A function of the binary file is to run.
    Call,
    /// A function of the main file that the binary file called has returned.
    CallbackReturn,
}

impl RequestKind {
    /// The code of the kind, 1 to 11.
    pub fn code(self) -> u8
        ensures { result ≡ request_code self }
    {
        self as u8
    }

    /// The kind of a code, or `None` where the code is not 1 to 11.
    pub fn of_code(code: u64) -> Option<Self>
        ensures a_code { IsSome result ↔ ((1 ≤ code) × (code ≤ 11)) }
        ensures same { IfSome result (λ kind. request_code kind ≡ code) }
    {
        match code {
            1 => Some(RequestKind::Load),
            2 => Some(RequestKind::Store),
            3 => Some(RequestKind::VLoad),
            4 => Some(RequestKind::VStore),
            5 => Some(RequestKind::Put),
            6 => Some(RequestKind::Get),
            7 => Some(RequestKind::Exit),
            8 => Some(RequestKind::Open),
            9 => Some(RequestKind::Close),
            10 => Some(RequestKind::Call),
            11 => Some(RequestKind::CallbackReturn),
            _ => None,
        }
    }
}

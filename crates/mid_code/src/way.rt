ghost use Rattle.std.specs.Prelude.{◌≡◌};
ghost use Rattle.mid_code.specs.Ways.{way_of, is_final_way, is_counting, is_beginning};

use crate::mid::Mid;

/// Where an instruction leads in its function, and what it does to the function's open objects.
#[derive(Clone, Copy, Debug, PartialEq, Eq)]
pub enum Way {
    /// On to the next place.
    Next,
    /// The same, and a turn is counted.
    Counts,
    /// The same, with one more open object.
    Begins,
    /// The same, without the object begun at the place.
    Ends(u32),
    /// To the place alone.
    Jumps(u32),
    /// To the next place, or to this one.
    Branches(u32),
    /// Out of the function.
    Returns,
    /// Nowhere: the run ends.
    Stops,
}

impl Way {
    /// Whether nothing follows in the function.
    pub fn is_final(self) -> bool
        ensures { result ≡ is_final_way self }
    {
        match self {
            Way::Jumps(_) | Way::Returns | Way::Stops => true,
            Way::Next | Way::Counts | Way::Begins | Way::Ends(_) | Way::Branches(_) => false,
        }
    }

    /// Whether an object begins.
    pub fn is_beginning(self) -> bool
        ensures { result ≡ is_beginning self }
    {
        match self {
            Way::Begins => true,
            Way::Next
            | Way::Counts
            | Way::Ends(_)
            | Way::Jumps(_)
            | Way::Branches(_)
            | Way::Returns
            | Way::Stops => false,
        }
    }

    /// Whether a turn is counted.
    pub fn is_counting(self) -> bool
        ensures { result ≡ is_counting self }
    {
        match self {
            Way::Counts => true,
            Way::Next
            | Way::Begins
            | Way::Ends(_)
            | Way::Jumps(_)
            | Way::Branches(_)
            | Way::Returns
            | Way::Stops => false,
        }
    }
}

/// Where an instruction leads.
pub fn way_of(mid: &Mid) -> Way
    ensures { result ≡ way_of mid.now }
{
    match mid {
        Mid::Const { .. }
        | Mid::Move { .. }
        | Mid::Arith { .. }
        | Mid::Conv { .. }
        | Mid::PtrAdd { .. }
        | Mid::PtrDiff { .. }
        | Mid::PtrCmp { .. }
        | Mid::GlobAddr { .. }
        | Mid::FunAddr { .. }
        | Mid::Load { .. }
        | Mid::Store { .. }
        | Mid::VLoad { .. }
        | Mid::VStore { .. }
        | Mid::Call { .. }
        | Mid::CallPtr { .. }
        | Mid::Put { .. }
        | Mid::Get { .. } => Way::Next,
        Mid::Turn => Way::Counts,
        Mid::Open { .. } => Way::Begins,
        Mid::Close { place } => Way::Ends(*place),
        Mid::Jump { place } => Way::Jumps(*place),
        Mid::JumpZ { place, .. } | Mid::JumpN { place, .. } => Way::Branches(*place),
        Mid::Return { .. } => Way::Returns,
        Mid::Exit { .. } => Way::Stops,
    }
}

use srmt_base::Site;

/// What the protected program asks of the outside, at the site of the instruction that asks. A
/// value is below 2^44.
#[derive(Clone, Copy, Debug, PartialEq, Eq)]
pub enum Request {
    /// Writes the value modulo 256 as a byte: `putchar` (C11 7.21.7.8).
    Put { site: Site, value: u64 },
    /// Ends the run with the value modulo 256 as its status: `exit` (C11 7.22.4.4).
    Exit { site: Site, value: u64 },
}

/// What the outside answers.
#[derive(Clone, Copy, Debug, PartialEq, Eq)]
pub enum Response {
    /// It is done, and there is no result.
    Done,
}

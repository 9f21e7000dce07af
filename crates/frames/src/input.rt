ghost use Rattle.std.specs.Prelude.{◌≡◌, ◌<◌, ◌≤◌, All, drop, length};
ghost use Rattle.srmt_base.specs.Input.{next_byte as next_of};
ghost use Rattle.mid_code.specs.Fits.{IsValue};

use std::marker::Model;

/// The input of a run, as far as it is still to be read.
#[derive(Debug, Drop)]
pub struct Input {
    bytes: Vec<u8>,
    /// The place of the next byte.
    at: usize,
}

impl Model for Input {
    ghost use Rattle.std.specs.Prelude.{ℕ, ◌≤◌, List, drop, length};

    ghost Value = { List ℕ };

    ghost view = { λ s. drop s.at s.bytes.items };

    ghost invariant = { λ s. s.at ≤ length s.bytes.items };
}

impl Input {
    /// Nothing was read.
    pub fn new(bytes: Vec<u8>) -> Self
        ensures input { result ≡ bytes.items }
        ensures bytes { All (λ byte. byte < 256) bytes.items }
    {
        Input { bytes, at: 0 }
    }

    /// The next byte, or the number of EOF at the end.
    pub fn next(&mut self) -> u64
        ensures value { result ≡ (next_of self.old).value }
        ensures small { IsValue result }
        ensures rest { self.new ≡ (next_of self.old).rest }
    {
        next_byte(&self.bytes, &mut self.at)
    }
}

/// The next byte at a place of some bytes, or the number of EOF at their end.
pub fn next_byte(bytes: &[u8], at: &mut usize) -> u64
    requires { at.old ≤ length bytes.now }
    ensures value { result ≡ (next_of (drop at.old bytes.now)).value }
    ensures small { IsValue result }
    ensures rest { drop at.new bytes.now ≡ (next_of (drop at.old bytes.now)).rest }
    ensures within { at.new ≤ length bytes.now }
{
    match bytes.get(*at) {
        Some(byte) => {
            *at += 1;
            u64::from(*byte)
        }
        None => 4_294_967_295,
    }
}

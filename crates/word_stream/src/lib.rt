//! What the protected program asks of the outside, what it answers, and both as words.
//!
//! An exchange is a request with its response: the operands as words that the trailing thread
//! checks, and the response as words that it takes. The crate gives requests and responses as
//! types of their own, writes an exchange as words, and reads one back. It stands on the words of
//! `srmt_base`, and takes no memory.
#![tactic(auto)]

mod laws;
mod request;
mod spelling;
mod table;
#[cfg(test)]
mod tests;

pub use laws::exchanges_read_back;
pub use request::{Request, Response};
pub use spelling::{Out, words_of};
pub use table::{SiteRow, SiteTable, read_words, request_of};

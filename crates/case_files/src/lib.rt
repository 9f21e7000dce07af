//! Files of cases, each a line, that the small programs read which show what a layer answers.
//!
//! In a source a backquote stands for a line feed. A source with `@` is one too: how many times, a front, a part that
//! comes so many times, in which a `#` stands for the number of the turn, and a back.
#![tactic(auto)]

mod argument;
mod text;

pub use argument::asked;
pub use text::source;

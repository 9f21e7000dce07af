use srmt_base::Word;

/// What a link answers where a word is to be taken.
#[derive(Clone, Copy, Debug, PartialEq, Eq)]
pub enum Taken {
    /// The next word.
    Word(Word),
    /// None is there yet.
    NotYet,
    /// None will come: the other side has ended, and all that it sent was taken.
    Closed,
}

/// The latest call of `room` or `take` of a link, with its answer.
#[derive(Clone, Copy, Debug, PartialEq, Eq)]
pub enum LastCall {
    /// There was none.
    Nothing,
    /// Room for so many words was asked for.
    Room(u8, bool),
    /// A word was to be taken.
    Take(Taken),
}

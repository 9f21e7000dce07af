ghost use Rattle.std.specs.Prelude.{◌≡◌, ◌<◌, ◌^◌, ◌∷◌, [], ℕ, List, Option, option_map, IfSome, IfNone, IsTrue, decimal, nat_eq, nat_le, ◌&&◌};
ghost use Rattle.std.specs.Cmp.Lexicographic.{pointwise};
ghost use Rattle.srmtrun.specs.declared.words.Flag.{Flag as Flag'};
ghost use Rattle.srmtrun.specs.declared.words.Question.{Question};
ghost use Rattle.srmtrun.specs.Words.{texts, Command as Command', Part as Part', takes_form, IsTurns, names_file, names_source, Takes, Asks};
ghost use Rattle.srmtrun.specs.Reading.{text_of, command_of, part_of, said_of, Begins, added, SaysBefore, IsCommand};

use itoa::Buffer;

/// The most turns that a program can be given.
const MOST_TURNS: u64 = 1_000_000_000_000;

/// How a program is served.
#[derive(Clone, Copy, Debug, PartialEq, Eq)]
pub enum Mode {
    /// By the machine of one thread: `--single`.
    Single,
    /// By both sides in turn: `--alternate`.
    Alternate,
    /// By its meaning, on the typed tree: `--reference`.
    Reference,
    /// Not at all: it is only checked, `--check`.
    Check,
}

impl Mode {
    /// Whether the program is to be of the first form, without a binary file, an input or limits of its own.
    pub(crate) fn takes_form(self) -> bool
        ensures { result ≡ takes_form self }
    {
        match self {
            Mode::Single | Mode::Alternate => true,
            Mode::Reference | Mode::Check => false,
        }
    }
}

/// What a word that stands alone asks of the program itself.
#[derive(Clone, Copy, Debug, PartialEq, Eq)]
pub enum Question {
    /// How it is used: `--help`.
    Help,
    /// Which version it is: `--version`.
    Version,
}

/// The words of a command: a mode, the name of the main file and, where they are given, the names of the binary file and
/// of the input, and how many turns the program may take.
#[derive(Clone, Copy, Debug)]
pub struct Command<'w> {
    pub mode: Mode,
    pub program: &'w str,
    /// `--binary`
    pub binary: Option<&'w str>,
    /// `--input`
    pub input: Option<&'w str>,
    /// `--turns`
    pub turns: Option<u64>,
}

/// A word that begins with `--`.
#[derive(Clone, Copy, Debug)]
enum Flag {
    Mode(Mode),
    Binary,
    Input,
    Turns,
}

/// A part of a command: one word, or an option with its value.
#[derive(Clone, Copy, Debug)]
enum Part<'w> {
    Mode(Mode),
    Program(&'w str),
    Binary(&'w str),
    Input(&'w str),
    Turns(u64),
}

/// What the parts of a command have said so far, each thing at most once.
#[derive(Clone, Copy, Debug)]
struct Said<'w> {
    mode: Option<Mode>,
    program: Option<&'w str>,
    binary: Option<&'w str>,
    input: Option<&'w str>,
    turns: Option<u64>,
}

/// What the words ask, where they are one question.
pub fn read_question(words: &[String]) -> Option<Question>
    ensures some { IfSome result (Asks (texts words.now)) }
    ensures none { IfNone result ((question : Question) → Asks (texts words.now) question → ⊥) }
{
    let [word] = words else {
        return None;
    };
    match word.as_str() {
        "--help" => Some(Question::Help),
        "--version" => Some(Question::Version),
        _ => None,
    }
}

/// The command of the words, where they are taken.
pub fn read_command(words: &[String]) -> Option<Command<'_>>
    ensures some { IfSome result (λ command. Takes (texts words.now) (command_of command)) }
    ensures none { IfNone result ((command : Command') → Takes (texts words.now) command → ⊥) }
{
    match read_parts(words) {
        Some(said) => said.command(),
        None => None,
    }
}

/// What the words say, part by part.
fn read_parts(words: &[String]) -> Option<Said<'_>>
    ensures some { IfSome result (λ said. SaysBefore (texts words.now) [] (said_of said)) }
    ensures none { IfNone result ((command : Command') → Takes (texts words.now) command → ⊥) }
{
    let mut said = Said {
        mode: None,
        program: None,
        binary: None,
        input: None,
        turns: None,
    };
    let mut left = words;
    while !left.is_empty() {
        let (part, behind) = first_part(left)?;
        said = said.and(part)?;
        left = behind;
    }
    Some(said)
}

/// The part with which some words begin, and the words behind it.
fn first_part(words: &[String]) -> Option<(Part<'_>, &[String])>
    ensures some { IfSome result (λ found. Begins (texts words.now) (part_of found.0) (texts found.1.now)) }
    ensures none { IfNone result ((part : Part') (behind : List (List ℕ)) → Begins (texts words.now) part behind → ⊥) }
{
    let [word, behind @ ..] = words else {
        return None;
    };
    let word = word.as_str();
    match flag_of(word) {
        Some(Flag::Mode(mode)) => Some((Part::Mode(mode), behind)),
        Some(Flag::Binary) => match first_file(behind) {
            Some((name, behind)) => Some((Part::Binary(name), behind)),
            None => None,
        },
        Some(Flag::Input) => match first_file(behind) {
            Some((name, behind)) => Some((Part::Input(name), behind)),
            None => None,
        },
        Some(Flag::Turns) => match first_turns(behind) {
            Some((turns, behind)) => Some((Part::Turns(turns), behind)),
            None => None,
        },
        None if names_source(word) => Some((Part::Program(word), behind)),
        None => None,
    }
}

/// The name of a file with which some words begin, and the words behind it.
fn first_file(words: &[String]) -> Option<(&str, &[String])>
    ensures some { IfSome result (λ found. (texts words.now ≡ found.0.now ∷ texts found.1.now) × IsTrue (names_file found.0.now)) }
    ensures none { IfNone result ((name : List ℕ) (behind : List (List ℕ)) → texts words.now ≡ name ∷ behind → IsTrue (names_file name) → ⊥) }
{
    let [word, behind @ ..] = words else {
        return None;
    };
    let word = word.as_str();
    names_file(word).then_some((word, behind))
}

/// The number of turns with which some words begin, and the words behind it.
fn first_turns(words: &[String]) -> Option<(u64, &[String])>
    ensures some { IfSome result (λ found. (texts words.now ≡ decimal found.0 ∷ texts found.1.now) × IsTurns found.0) }
    ensures none { IfNone result ((turns : ℕ) (behind : List (List ℕ)) → texts words.now ≡ decimal turns ∷ behind → IsTurns turns → ⊥) }
{
    let [word, behind @ ..] = words else {
        return None;
    };
    match turns_of(word.as_str()) {
        Some(turns) => Some((turns, behind)),
        None => None,
    }
}

/// The number of turns that a word gives.
fn turns_of(word: &str) -> Option<u64>
    ensures some { IfSome result (λ turns. (word.now ≡ decimal turns) × IsTurns turns) }
    ensures none { IfNone result ((turns : ℕ) → word.now ≡ decimal turns → IsTurns turns → ⊥) }
{
    match number_of(word) {
        Some(number) => is_turns(number).then_some(number),
        None => None,
    }
}

/// Whether a program can be given so many turns.
fn is_turns(number: u64) -> bool
    ensures { result ≡ nat_le 1 number && nat_le number 1000000000000 }
{
    1 <= number && number <= MOST_TURNS
}

/// The number that a word gives, with neither a sign nor a 0 before other digits.
fn number_of(word: &str) -> Option<u64>
    ensures some { IfSome result (λ number. word.now ≡ decimal number) }
    ensures none { IfNone result ((number : ℕ) → word.now ≡ decimal number → number < 2 ^ 64 → ⊥) }
{
    match word.parse() {
        Ok(number) => is_decimal(word, number).then_some(number),
        Err(_) => None,
    }
}

/// Whether a word is what is written for a number.
fn is_decimal(word: &str, number: u64) -> bool
    ensures { result ≡ pointwise nat_eq word.now (decimal number) }
{
    let mut digits = Buffer::new();
    word == digits.format(number)
}

/// The flag that a word is.
fn flag_of(word: &str) -> Option<Flag>
    ensures some { IfSome result (λ flag. word.now ≡ text_of flag) }
    ensures none { IfNone result ((flag : Flag') → word.now ≡ text_of flag → ⊥) }
{
    match word {
        "--single" => Some(Flag::Mode(Mode::Single)),
        "--alternate" => Some(Flag::Mode(Mode::Alternate)),
        "--reference" => Some(Flag::Mode(Mode::Reference)),
        "--check" => Some(Flag::Mode(Mode::Check)),
        "--binary" => Some(Flag::Binary),
        "--input" => Some(Flag::Input),
        "--turns" => Some(Flag::Turns),
        _ => None,
    }
}

/// Whether a word names a file.
fn names_file(word: &str) -> bool
    ensures { result ≡ names_file word.now }
{
    !word.as_bytes().starts_with(b"-")
}

/// Whether a word names a source.
fn names_source(word: &str) -> bool
    ensures { result ≡ names_source word.now }
{
    names_file(word) && !word.as_bytes().ends_with(b".srm")
}

impl<'w> Said<'w> {
    /// What is said with one part more, where this is not said yet.
    fn and(self, part: Part<'w>) -> Option<Said<'w>>
        ensures { option_map said_of result ≡ added (said_of self.entry) (part_of part.entry) }
    {
        match part {
            Part::Mode(mode) if self.mode.is_none() => Some(Said {
                mode: Some(mode),
                ..self
            }),
            Part::Program(name) if self.program.is_none() => Some(Said {
                program: Some(name),
                ..self
            }),
            Part::Binary(name) if self.binary.is_none() => Some(Said {
                binary: Some(name),
                ..self
            }),
            Part::Input(name) if self.input.is_none() => Some(Said {
                input: Some(name),
                ..self
            }),
            Part::Turns(turns) if self.turns.is_none() => Some(Said {
                turns: Some(turns),
                ..self
            }),
            _ => None,
        }
    }

    /// The command that is said. It has options only where its mode takes every source.
    fn command(self) -> Option<Command<'w>>
        ensures some { IfSome result (λ command. IsCommand (said_of self.entry) (command_of command)) }
        ensures none { IfNone result ((command : Command') → IsCommand (said_of self.entry) command → ⊥) }
    {
        let (Some(mode), Some(program)) = (self.mode, self.program) else {
            return None;
        };
        let plain = self.binary.is_none() && self.input.is_none() && self.turns.is_none();
        (plain || !mode.takes_form()).then_some(Command {
            mode,
            program,
            binary: self.binary,
            input: self.input,
            turns: self.turns,
        })
    }
}

// Why a program is refused, written by a pen as the table of specs/Refusals has it.
ghost use Rattle.std.specs.Prelude.{◌≡◌};
ghost use Rattle.answers.specs.Pens.{Wrote};
ghost use Rattle.answers.specs.Refusals as texts;

use crate::answer::{CompileRefusal, Which};
use crate::pen::Pen;
use c_lexer::LexRefusal;
use c_parser::ParseRefusal;
use srmt_outside::Sink;
use typing_rules::{Size, TypeRefusal};

/// The name of a file, as a line has it.
fn file_name(file: Which) -> &'static str
    ensures { result.now ≡ texts.file_name file }
{
    match file {
        Which::Main => "main",
        Which::Binary => "binary",
    }
}

/// What the lexer refuses, as a line has it, and the place of its first byte.
fn lex_fault(cause: LexRefusal) -> (&'static str, u32)
    ensures name { result.0.now ≡ texts.lex_name cause }
    ensures place { result.1 ≡ texts.lex_place cause }
{
    match cause {
        LexRefusal::BadByte(at) => ("BadByte", at),
        LexRefusal::OpenComment(at) => ("OpenComment", at),
        LexRefusal::OpenText(at) => ("OpenText", at),
        LexRefusal::BadText(at) => ("BadText", at),
        LexRefusal::BadNumber(at) => ("BadNumber", at),
        LexRefusal::LiteralTooWide(at) => ("LiteralTooWide", at),
        LexRefusal::Directive(at) => ("Directive", at),
        LexRefusal::Memory => ("Memory", 0),
    }
}

/// What the parser refuses, as a line has it, and the place of its first byte.
fn parse_fault(cause: ParseRefusal) -> (&'static str, u32)
    ensures name { result.0.now ≡ texts.parse_name cause }
    ensures place { result.1 ≡ texts.parse_place cause }
{
    match cause {
        ParseRefusal::Expected(at) => ("Expected", at),
        ParseRefusal::LeftOut(at, _) => ("LeftOut", at),
        ParseRefusal::TooDeep(at) => ("TooDeep", at),
        ParseRefusal::Memory => ("Memory", 0),
    }
}

/// The name of what is too large, as a line has it.
fn size_name(size: Size) -> &'static str
    ensures { result.now ≡ texts.size_name size }
{
    match size {
        Size::Params => "Params",
        Size::Cells => "Cells",
        Size::Statics => "Statics",
        Size::Functions => "Functions",
        Size::Types => "Types",
    }
}

impl<N: Sink> Pen<'_, N> {
    /// Writes why a program is refused.
    pub fn refusal(&mut self, refusal: &CompileRefusal)
        ensures same_sink { self.new.sink.ghost_name ≡ self.old.sink.ghost_name }
        ensures wrote { Wrote N.bytes N.faults self.old.sink.now self.old.going
            self.new.sink.now self.new.going (texts.refusal_text refusal.now) }
    {
        match *refusal {
            CompileRefusal::Form => self.text("form"),
            CompileRefusal::Lex(file, cause) => {
                let (name, place) = lex_fault(cause);
                self.fault("lex ", file, name, place);
            }
            CompileRefusal::Parse(file, cause) => {
                let (name, place) = parse_fault(cause);
                self.fault("parse ", file, name, place);
            }
            CompileRefusal::Typing(cause) => {
                self.text("type ");
                self.typing(cause);
            }
        }
    }

    /// Writes a fault at a place of a file, in bytes from its beginning.
    fn fault(&mut self, layer: &str, file: Which, name: &str, place: u32)
        ensures same_sink { self.new.sink.ghost_name ≡ self.old.sink.ghost_name }
        ensures wrote { Wrote N.bytes N.faults self.old.sink.now self.old.going
            self.new.sink.now self.new.going (texts.fault_text layer.now file name.now place) }
    {
        self.text(layer);
        self.text(file_name(file));
        self.text(" ");
        self.text(name);
        self.text(" at ");
        self.number(u64::from(place));
    }

    /// Writes why a program has no typing.
    fn typing(&mut self, cause: TypeRefusal)
        ensures same_sink { self.new.sink.ghost_name ≡ self.old.sink.ghost_name }
        ensures wrote { Wrote N.bytes N.faults self.old.sink.now self.old.going
            self.new.sink.now self.new.going (texts.type_text cause) }
    {
        match cause {
            TypeRefusal::Unknown(line) => self.located("Unknown", line),
            TypeRefusal::Twice(line) => self.located("Twice", line),
            TypeRefusal::Mismatch(line, rule) => self.broken(line, rule),
            TypeRefusal::NoMain => self.text("NoMain"),
            TypeRefusal::Unresolved(line) => self.located("Unresolved", line),
            TypeRefusal::TooLarge(line, size) => self.too_large(line, size),
            TypeRefusal::Memory => self.text("Memory"),
        }
    }

    /// Writes a name and a place in the sources.
    fn located(&mut self, name: &str, line: u32)
        ensures same_sink { self.new.sink.ghost_name ≡ self.old.sink.ghost_name }
        ensures wrote { Wrote N.bytes N.faults self.old.sink.now self.old.going
            self.new.sink.now self.new.going (texts.located name.now line) }
    {
        self.text(name);
        self.text(" at ");
        self.place(line);
    }

    /// Writes which rule is broken.
    fn broken(&mut self, line: u32, rule: u8)
        ensures same_sink { self.new.sink.ghost_name ≡ self.old.sink.ghost_name }
        ensures wrote { Wrote N.bytes N.faults self.old.sink.now self.old.going
            self.new.sink.now self.new.going (texts.rule_text line rule) }
    {
        self.text("Mismatch ");
        self.number(u64::from(rule));
        self.text(" at ");
        self.place(line);
    }

    /// Writes what is too large.
    fn too_large(&mut self, line: u32, size: Size)
        ensures same_sink { self.new.sink.ghost_name ≡ self.old.sink.ghost_name }
        ensures wrote { Wrote N.bytes N.faults self.old.sink.now self.old.going
            self.new.sink.now self.new.going (texts.size_text line size) }
    {
        self.text("TooLarge ");
        self.text(size_name(size));
        self.text(" at ");
        self.place(line);
    }
}

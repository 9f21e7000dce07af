// The parts of lines, written by a pen as the tables of specs/Texts and specs/Notes have them.
ghost use Rattle.std.specs.Prelude.{◌≡◌, ◌++◌, codes};
ghost use Rattle.answers.specs.Pens.{Wrote};
ghost use Rattle.answers.specs.Texts.{word_text, words_text, place_text, trap_text, end_text};
ghost use Rattle.answers.specs.Notes.{report_text};

use crate::pen::Pen;
use crate::texts::{kind_name, trap_name};
use srmt_base::{Trap, Word};
use srmt_outside::Sink;
use verdicts::{Report, ThreadEnd};

/// The first line that is kept for the binary file, less one.
const BINARY_LINES: u32 = 2_000_000;

impl<N: Sink> Pen<'_, N> {
    /// Writes a word: its kind, its site and its value.
    fn word(&mut self, word: Word)
        ensures same_sink { self.new.sink.ghost_name ≡ self.old.sink.ghost_name }
        ensures wrote { Wrote N.bytes N.faults self.old.sink.now self.old.going
            self.new.sink.now self.new.going (word_text word) }
    {
        self.text(kind_name(word.kind()));
        self.text(" ");
        self.number(u64::from(word.site().0));
        self.text(" ");
        self.number(word.value());
    }

    /// Writes the words that a side took and had.
    fn words(&mut self, taken: Word, own: Word)
        ensures same_sink { self.new.sink.ghost_name ≡ self.old.sink.ghost_name }
        ensures wrote { Wrote N.bytes N.faults self.old.sink.now self.old.going
            self.new.sink.now self.new.going (words_text taken own) }
    {
        self.text("took ");
        self.word(taken);
        self.text(", own ");
        self.word(own);
    }

    /// Writes a place in the sources.
    pub fn place(&mut self, line: u32)
        ensures same_sink { self.new.sink.ghost_name ≡ self.old.sink.ghost_name }
        ensures wrote { Wrote N.bytes N.faults self.old.sink.now self.old.going
            self.new.sink.now self.new.going (place_text line) }
    {
        if line <= BINARY_LINES {
            self.text("line ");
            self.number(u64::from(line));
        } else {
            self.text("binary line ");
            self.number(u64::from(line - BINARY_LINES));
        }
    }

    /// Writes a trap with its place.
    pub fn trap(&mut self, trap: Trap, line: u32)
        ensures same_sink { self.new.sink.ghost_name ≡ self.old.sink.ghost_name }
        ensures wrote { Wrote N.bytes N.faults self.old.sink.now self.old.going
            self.new.sink.now self.new.going (trap_text trap line) }
    {
        self.text(trap_name(trap));
        self.text(" at ");
        self.place(line);
    }

    /// Writes how one side has ended.
    fn end(&mut self, end: &ThreadEnd)
        ensures same_sink { self.new.sink.ghost_name ≡ self.old.sink.ghost_name }
        ensures wrote { Wrote N.bytes N.faults self.old.sink.now self.old.going
            self.new.sink.now self.new.going (end_text end.now) }
    {
        match *end {
            ThreadEnd::Exit(status) => {
                self.text("exit ");
                self.number(u64::from(status));
            }
            ThreadEnd::Trap(trap, line) => {
                self.text("trap ");
                self.trap(trap, line);
            }
            ThreadEnd::PeerEnded => self.text("peer ended"),
            ThreadEnd::Mismatch(taken, own) => {
                self.text("mismatch: ");
                self.words(taken, own);
            }
            ThreadEnd::Echo(taken, own) => {
                self.text("echo: ");
                self.words(taken, own);
            }
            ThreadEnd::WriteFault => self.text("output"),
        }
    }

    /// Writes how the sides differ.
    pub fn report(&mut self, report: &Report)
        ensures same_sink { self.new.sink.ghost_name ≡ self.old.sink.ghost_name }
        ensures wrote { Wrote N.bytes N.faults self.old.sink.now self.old.going
            self.new.sink.now self.new.going (report_text report.now) }
    {
        match *report {
            Report::Mismatch(taken, own) => {
                self.text("mismatch: ");
                self.words(taken, own);
            }
            Report::Echo(taken, own) => {
                self.text("echo: ");
                self.words(taken, own);
            }
            Report::Parted(ref lead, ref trail) => {
                self.text("parted: lead ");
                self.end(lead);
                self.text(", trail ");
                self.end(trail);
            }
        }
    }
}

// The lines of the answers, written by a pen as the table of specs/Notes has them.
ghost use Rattle.std.specs.Prelude.{◌≡◌, ◌∷◌, [], map};
ghost use Rattle.answers.specs.Pens.{Wrote, WroteLines};
ghost use Rattle.answers.specs.Notes.{undefined_line, exhausted_line, stopped_line, report_line, refusal_line, end_lines, verdict_lines, lines_of};

use crate::about::{HELP, VERSION};
use crate::answer::{CompileRefusal, RunAnswer};
use crate::pen::Pen;
use srmt_base::{SourceEnd, Trap};
use srmt_outside::Sink;
use verdicts::{Report, Verdict};

impl<N: Sink> Pen<'_, N> {
    /// Writes the lines of an answer.
    pub fn answer(&mut self, answer: &RunAnswer)
        ensures same_sink { self.new.sink.ghost_name ≡ self.old.sink.ghost_name }
        ensures wrote { WroteLines N.bytes N.faults self.old.sink.now self.old.going
            self.new.sink.now self.new.going (lines_of answer.now) }
    {
        match *answer {
            RunAnswer::Alone(ref end) => self.source_end(end),
            RunAnswer::Ran(ref ran) => self.verdict(&ran.verdict),
            RunAnswer::Checked => {}
            RunAnswer::WriteFault => self.line("srmtrun: fault: output"),
            RunAnswer::ReadFault => self.line("srmtrun: fault: reading"),
            RunAnswer::TooLong => self.line("srmtrun: fault: too long"),
            RunAnswer::OutOfMemory => self.line("srmtrun: fault: memory"),
            RunAnswer::Refused(ref cause) => self.refused(cause),
            RunAnswer::Usage => self.line("srmtrun: usage: srmtrun PROGRAM [options]"),
            RunAnswer::Help => self.lines(&HELP),
            RunAnswer::Version => self.lines(&VERSION),
        }
    }

    /// Writes the lines of an end on one thread.
    fn source_end(&mut self, end: &SourceEnd)
        ensures same_sink { self.new.sink.ghost_name ≡ self.old.sink.ghost_name }
        ensures wrote { WroteLines N.bytes N.faults self.old.sink.now self.old.going
            self.new.sink.now self.new.going (end_lines end.now) }
    {
        match *end {
            SourceEnd::Exit(_) => {}
            SourceEnd::Trap(trap, line) => self.stopped(trap, line),
        }
    }

    /// Writes the line of a trap.
    fn stopped(&mut self, trap: Trap, line: u32)
        ensures same_sink { self.new.sink.ghost_name ≡ self.old.sink.ghost_name }
        ensures wrote { WroteLines N.bytes N.faults self.old.sink.now self.old.going
            self.new.sink.now self.new.going (stopped_line trap line ∷ []) }
    {
        if trap.is_budget() {
            self.exhausted(trap, line);
        } else {
            self.undefined(trap, line);
        }
    }

    /// Writes the lines of a verdict.
    fn verdict(&mut self, verdict: &Verdict)
        ensures same_sink { self.new.sink.ghost_name ≡ self.old.sink.ghost_name }
        ensures wrote { WroteLines N.bytes N.faults self.old.sink.now self.old.going
            self.new.sink.now self.new.going (verdict_lines verdict.now) }
    {
        match *verdict {
            Verdict::Exit(_) => {}
            Verdict::Undefined(trap, line) => self.undefined(trap, line),
            Verdict::Exhausted(trap, line) => self.exhausted(trap, line),
            Verdict::Reported(ref report) => self.reported(report),
            Verdict::WriteFault => self.line("srmtrun: fault: output"),
        }
    }

    /// Writes the line of undefined behaviour.
    fn undefined(&mut self, trap: Trap, line: u32)
        ensures same_sink { self.new.sink.ghost_name ≡ self.old.sink.ghost_name }
        ensures wrote { WroteLines N.bytes N.faults self.old.sink.now self.old.going
            self.new.sink.now self.new.going (undefined_line trap line ∷ []) }
    {
        self.text("srmtrun: undefined: ");
        self.trap(trap, line);
        self.text("\n");
    }

    /// Writes the line of a budget that is used up.
    fn exhausted(&mut self, trap: Trap, line: u32)
        ensures same_sink { self.new.sink.ghost_name ≡ self.old.sink.ghost_name }
        ensures wrote { WroteLines N.bytes N.faults self.old.sink.now self.old.going
            self.new.sink.now self.new.going (exhausted_line trap line ∷ []) }
    {
        self.text("srmtrun: exhausted: ");
        self.trap(trap, line);
        self.text("\n");
    }

    /// Writes the line of a report.
    fn reported(&mut self, report: &Report)
        ensures same_sink { self.new.sink.ghost_name ≡ self.old.sink.ghost_name }
        ensures wrote { WroteLines N.bytes N.faults self.old.sink.now self.old.going
            self.new.sink.now self.new.going (report_line report.now ∷ []) }
    {
        self.text("srmtrun: report: ");
        self.report(report);
        self.text("\n");
    }

    /// Writes the line of a refusal.
    fn refused(&mut self, refusal: &CompileRefusal)
        ensures same_sink { self.new.sink.ghost_name ≡ self.old.sink.ghost_name }
        ensures wrote { WroteLines N.bytes N.faults self.old.sink.now self.old.going
            self.new.sink.now self.new.going (refusal_line refusal.now ∷ []) }
    {
        self.text("srmtrun: refused: ");
        self.refusal(refusal);
        self.text("\n");
    }

    /// Writes a line.
    fn line(&mut self, line: &str)
        ensures same_sink { self.new.sink.ghost_name ≡ self.old.sink.ghost_name }
        ensures wrote { WroteLines N.bytes N.faults self.old.sink.now self.old.going
            self.new.sink.now self.new.going (line.now ∷ []) }
    {
        self.text(line);
        self.text("\n");
    }

    /// Writes lines.
    fn lines(&mut self, lines: &[&str])
        ensures same_sink { self.new.sink.ghost_name ≡ self.old.sink.ghost_name }
        ensures wrote { WroteLines N.bytes N.faults self.old.sink.now self.old.going
            self.new.sink.now self.new.going (map (λ line. line.now) lines.now) }
    {
        for line in lines {
            self.line(line);
        }
    }
}

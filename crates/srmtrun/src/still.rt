ghost use Rattle.std.specs.Prelude.{◌≡◌, ◌≢◌, ℕ, ◌+◌, ◌^◌, ◌<◌, ◌≤◌, ◌↔◌, List, [], ◌∷◌, Some, true, false, length, Option, option_map, option_copied, IfOk, IfErr, IfSome, OnOk, OnErr};
ghost use Rattle.srmt_base.specs.declared.event.Event.{Event};
ghost use Rattle.srmt_base.specs.declared.trap.SourceEnd.{SourceEnd};
ghost use Rattle.srmt_outside.specs.Count.{Rose};
ghost use Rattle.srmt_outside.specs.Told.{Appends, AppendsPrefix};
ghost use Rattle.mid_code.specs.Valid.{IsValid};
ghost use Rattle.mid_code.specs.Meaning.{Middle};
ghost use Rattle.mid_code.specs.Closed.{everything_shared};
ghost use Rattle.mid_code.specs.Pairs.{HasSites};
ghost use Rattle.verdicts.specs.declared.verdict.Ran.{Ran};
ghost use Rattle.pair_core.specs.Faults.{faults_told};
ghost use Rattle.answers.specs.declared.answer.CompileRefusal.{CompileRefusal as CompileRefusal'};
ghost use Rattle.c_typed.specs.Statements.{Program};
ghost use Rattle.c_front.specs.Front.{TypesFiles, RefusesFiles, IsRefusal};
ghost use Rattle.source_meaning.specs.Start.{means};
ghost use Rattle.answers.specs.Answer.{final_status, NeverRan};
ghost use Rattle.answers.specs.Notes.{lines_of, written};
ghost use Rattle.first_form.specs.declared.source.FirstForm.{FirstForm};
ghost use Rattle.first_form.specs.FirstForm.{IsFirstForm};
ghost use Rattle.first_form.specs.Lowered.{Implements};
ghost use Rattle.srmtrun.specs.declared.words.Mode.{Mode};
ghost use Rattle.srmtrun.specs.Answer.{answer_from, both_from, check_from, IsOfWords, write_faults_after};
ghost use Rattle.srmtrun.specs.Reads.{file_named, files_of, PassesLimit, StopsAt, AreTold, IsToldInput};
ghost use Rattle.srmtrun.specs.Still.{Names, HasTyping, RefusedAs, AnswersCheck, EndsAlone, FailsWriting, LacksMemory, RanOnSource, AsksFor, AnswersForm, AnswersMeaning, limits_of};
ghost use Rattle.srmtrun.specs.Parts.{Serves, Runs, StopsCompiling, StopsRun, RanBySides};
ghost use Rattle.srmtrun.specs.Words.{texts, Command as Command', takes_form, IsTurns, MayHaveOptions, Takes, Asks, IsUsage};
ghost use Rattle.srmtrun.specs.Reading.{command_of};

use crate::reference::serve_reference;
use crate::sources::{SOURCE_LIMIT, load, load_sources};
use crate::words::{Command, Mode, Question, read_command, read_question};
use answers::{CompileRefusal, Finished, RunAnswer, finish};
use c_front::check_files;
use first_form::{FormRefusal, compile_first_form, pair_of};
use mid_code::MidProgram;
use mid_run::MidRun;
use pair_core::{Duo, Ran, alternate};
use srmt_base::{Limits, SourceEnd};
use srmt_outside::{Files, Outlet, Sink};
use std::alloc::{AllocError, Global};

/// The budgets of a run of the first form.
const LIMITS: Limits = Limits {
    turns: 100_000_000,
    depth: 1_000,
    cells: 1_048_576,
};

/// Runs or checks the program that the words name, in one thread, or answers what they ask. It always returns.
pub fn srmtrun_still<F: Files, O: Outlet + Send, N: Sink>(
    alloc: Global,
    words: &[String],
    files: &mut F,
    outlet: &mut O,
    notes: &mut N,
) -> Finished
    // A program whose file is told and is of the first form runs to its end, with all its events,
    // on one thread or by both sides in turn. Each other answer has its cause.
    ensures told { (command : Command') (bytes : List ℕ) (form : FirstForm)
        → Takes (texts words.now) command
        → takes_form command.mode ≡ true
        → F.contents files.old command.program ≡ Some bytes
        → length bytes ≤ 1048576
        → IsFirstForm bytes form
        → AnswersForm command.mode form (O.events outlet.old) (O.events outlet.new)
        (Rose (F.faults files.old) (F.faults files.new))
        (Rose (O.faults outlet.old) (O.faults outlet.new)) result.answer }

    // A program that is run by its meaning, whose files are told and which has a typed program, runs to its end, with
    // all events that the program means. Each other answer has its cause.
    ensures meant { (command : Command') (main input : List ℕ) (binary : Option (List ℕ)) (program : Program)
        → Takes (texts words.now) command → command.mode ≡ Mode.Reference
        → AreTold (F.contents files.old) command main binary → IsToldInput (F.contents files.old) command.input input
        → TypesFiles main binary program
        → AnswersMeaning (means program input (limits_of command))
        (O.events outlet.old) (O.events outlet.new)
        (Rose (F.faults files.old) (F.faults files.new))
        (Rose (O.faults outlet.old) (O.faults outlet.new)) result.answer }

    // A program that is only checked, whose files are told, is answered Checked where it has a typed program. One that
    // is checked or run by its meaning is answered its first refusal where it has that.
    ensures typed { (command : Command') (main : List ℕ) (binary : Option (List ℕ)) (program : Program)
        → Takes (texts words.now) command → command.mode ≡ Mode.Check
        → AreTold (F.contents files.old) command main binary → TypesFiles main binary program
        → AnswersCheck RunAnswer.Checked (Rose (F.faults files.old) (F.faults files.new)) result.answer }
    ensures untyped { (command : Command') (main : List ℕ) (binary : Option (List ℕ)) (cause : CompileRefusal')
        → Takes (texts words.now) command → takes_form command.mode ≡ false
        → AreTold (F.contents files.old) command main binary → RefusesFiles main binary cause
        → AnswersCheck (RunAnswer.Refused cause) (Rose (F.faults files.old) (F.faults files.new)) result.answer }

    // When each answer comes.
    ensures usage { (result.answer ≡ RunAnswer.Usage) ↔ IsUsage (texts words.now) }
    ensures help { (result.answer ≡ RunAnswer.Help) ↔ Asks (texts words.now) Question.Help }
    ensures version { (result.answer ≡ RunAnswer.Version) ↔ Asks (texts words.now) Question.Version }
    ensures alone { (end : SourceEnd) → result.answer ≡ RunAnswer.Alone end
        → Names (texts words.now) (λ command. EndsAlone command.mode (F.contents files.old) command
        (O.events outlet.old) (O.events outlet.new) end) }
    ensures ran { (ran : Ran) → result.answer ≡ RunAnswer.Ran ran
        → Names (texts words.now) (λ command. (command.mode ≡ Mode.Alternate)
        × RanOnSource (F.contents files.old command.program)
        (O.events outlet.old) (O.events outlet.new)
        (Rose (O.faults outlet.old) (O.faults outlet.new)) ran) }
    ensures checked { result.answer ≡ RunAnswer.Checked → Names (texts words.now)
        (λ command. (command.mode ≡ Mode.Check) × HasTyping (F.contents files.old) command) }
    ensures refused { (cause : CompileRefusal') → result.answer ≡ RunAnswer.Refused cause → Names (texts words.now)
        (λ command. RefusedAs command.mode (F.contents files.old) command cause) }
    ensures write_fault { result.answer ≡ RunAnswer.WriteFault → Names (texts words.now)
        (λ command. FailsWriting command.mode (F.contents files.old) command
        (O.events outlet.old) (O.events outlet.new)) }
    ensures out_of_memory { result.answer ≡ RunAnswer.OutOfMemory → Names (texts words.now)
        (λ command. LacksMemory command.mode (F.contents files.old) command
        (O.events outlet.old) (O.events outlet.new)) }
    ensures read_failed { result.answer ≡ RunAnswer.ReadFault
        → Rose (F.faults files.old) (F.faults files.new) }
    ensures too_long { result.answer ≡ RunAnswer.TooLong → Names (texts words.now)
        (λ command. StopsAt (F.contents files.old) (F.asked files.old) (F.asked files.new)
        (files_of command) (PassesLimit (F.contents files.old))) }
    ensures no_event { NeverRan result.answer → O.events outlet.new ≡ O.events outlet.old }

    // What it asks of the files, and what it leaves.
    ensures asks { (IsOfWords result.answer → ⊥) → Names (texts words.now)
        (λ command. AsksFor (F.contents files.old) (F.asked files.old) (F.asked files.new)
        (files_of command) result.answer) }
    ensures asks_nothing { IsOfWords result.answer → F.asked files.new ≡ F.asked files.old }
    ensures contents { F.contents files.new ≡ F.contents files.old }
    ensures read_faults { F.faults files.old ≤ F.faults files.new }

    // The outlet counts one fault more exactly where the answer tells that an event failed.
    ensures write_faults { O.faults outlet.new
        ≡ write_faults_after result.answer (O.faults outlet.old) }

    // The status of the answer, and its lines, or a first part of them where the notes failed.
    ensures status { result.status ≡ final_status result.noted result.answer }
    ensures noted { result.noted ≡ true
        → Appends (N.bytes notes.old) (N.bytes notes.new) (written (lines_of result.answer)) }
    ensures unnoted { result.noted ≡ false
        → AppendsPrefix (N.bytes notes.old) (N.bytes notes.new) (written (lines_of result.answer)) }
    ensures note_failed { result.noted ≡ false
        → (lines_of result.answer ≢ []) × Rose (N.faults notes.old) (N.faults notes.new) }
    ensures note_faults { N.faults notes.old ≤ N.faults notes.new }
{
    let answer = answer(alloc, words, files, outlet);
    finish(answer, notes)
}

/// The answer to the words.
fn answer<F: Files, O: Outlet>(
    alloc: Global,
    words: &[String],
    files: &mut F,
    outlet: &mut O,
) -> RunAnswer
    ensures usage { (result ≡ RunAnswer.Usage) ↔ IsUsage (texts words.now) }
    ensures help { (result ≡ RunAnswer.Help) ↔ Asks (texts words.now) Question.Help }
    ensures version { (result ≡ RunAnswer.Version) ↔ Asks (texts words.now) Question.Version }
    ensures unread { IsOfWords result → F.asked files.new ≡ F.asked files.old }
    ensures unwritten { IsOfWords result → O.events outlet.new ≡ O.events outlet.old }
    ensures serves { (IsOfWords result → ⊥) → Names (texts words.now)
        (λ command. Serves command (F.contents files.old)
        (O.events outlet.old) (O.events outlet.new)
        (Rose (F.faults files.old) (F.faults files.new))
        (Rose (O.faults outlet.old) (O.faults outlet.new)) result
        × AsksFor (F.contents files.old) (F.asked files.old) (F.asked files.new) (files_of command) result) }
    ensures contents { F.contents files.new ≡ F.contents files.old }
    ensures read_faults { F.faults files.old ≤ F.faults files.new }
    ensures write_faults { O.faults outlet.new ≡ write_faults_after result (O.faults outlet.old) }
{
    match read_question(words) {
        Some(Question::Help) => return RunAnswer::Help,
        Some(Question::Version) => return RunAnswer::Version,
        None => {}
    }
    match read_command(words) {
        Some(command) => serve(alloc, command, files, outlet),
        None => RunAnswer::Usage,
    }
}

/// The answer to a command.
fn serve<F: Files, O: Outlet>(
    alloc: Global,
    command: Command<'_>,
    files: &mut F,
    outlet: &mut O,
) -> RunAnswer
    requires options { MayHaveOptions (command_of command) }
    requires turns { IfSome command.turns IsTurns }
    ensures serves { Serves (command_of command.entry) (F.contents files.old)
        (O.events outlet.old) (O.events outlet.new)
        (Rose (F.faults files.old) (F.faults files.new))
        (Rose (O.faults outlet.old) (O.faults outlet.new)) result }
    ensures asks { AsksFor (F.contents files.old) (F.asked files.old) (F.asked files.new)
        (files_of (command_of command.entry)) result }
    ensures contents { F.contents files.new ≡ F.contents files.old }
    ensures read_faults { F.faults files.old ≤ F.faults files.new }
    ensures write_faults { O.faults outlet.new ≡ write_faults_after result (O.faults outlet.old) }
{
    match command.mode {
        Mode::Single => serve_single(alloc, command.program, files, outlet),
        Mode::Alternate => serve_both(alloc, command.program, files, outlet),
        Mode::Reference => serve_reference(alloc, command, files, outlet),
        Mode::Check => serve_check(alloc, command, files),
    }
}

/// The answer to a source that runs on one thread.
fn serve_single<F: Files, O: Outlet>(
    alloc: Global,
    name: &str,
    files: &mut F,
    outlet: &mut O,
) -> RunAnswer
    ensures serves { Runs Mode.Single name.now (F.contents files.old)
        (O.events outlet.old) (O.events outlet.new)
        (Rose (F.faults files.old) (F.faults files.new))
        (Rose (O.faults outlet.old) (O.faults outlet.new)) result }
    ensures asks { AsksFor (F.contents files.old) (F.asked files.old) (F.asked files.new)
        (file_named 1048576 name.now ∷ []) result }
    ensures contents { F.contents files.new ≡ F.contents files.old }
    ensures read_faults { F.faults files.old ≤ F.faults files.new }
    ensures write_faults { O.faults outlet.new ≡ write_faults_after result (O.faults outlet.old) }
{
    match single(alloc, name, files, outlet) {
        Ok(end) => RunAnswer::Alone(end),
        Err(answer) => answer,
    }
}

/// The answer to a source that runs on both sides in turn.
fn serve_both<F: Files, O: Outlet>(
    alloc: Global,
    name: &str,
    files: &mut F,
    outlet: &mut O,
) -> RunAnswer
    ensures serves { Runs Mode.Alternate name.now (F.contents files.old)
        (O.events outlet.old) (O.events outlet.new)
        (Rose (F.faults files.old) (F.faults files.new))
        (Rose (O.faults outlet.old) (O.faults outlet.new)) result }
    ensures asks { AsksFor (F.contents files.old) (F.asked files.old) (F.asked files.new)
        (file_named 1048576 name.now ∷ []) result }
    ensures contents { F.contents files.new ≡ F.contents files.old }
    ensures read_faults { F.faults files.old ≤ F.faults files.new }
    ensures write_faults { O.faults outlet.new ≡ write_faults_after result (O.faults outlet.old) }
{
    match both(alloc, name, files, outlet) {
        Ok(ran) => RunAnswer::Ran(ran),
        Err(answer) => answer,
    }
}

/// The answer to a program that is checked.
fn serve_check<F: Files>(alloc: Global, command: Command<'_>, files: &mut F) -> RunAnswer
    requires { command.mode ≡ Mode.Check }
    ensures serves { (events : Option (List Event)) (before after : ℕ)
        → Serves (command_of command.entry) (F.contents files.old) events events
        (Rose (F.faults files.old) (F.faults files.new)) (Rose before after) result }
    ensures asks { AsksFor (F.contents files.old) (F.asked files.old) (F.asked files.new)
        (files_of (command_of command.entry)) result }
    ensures contents { F.contents files.new ≡ F.contents files.old }
    ensures read_faults { F.faults files.old ≤ F.faults files.new }
    ensures write_faults { (faults : ℕ) → write_faults_after result faults ≡ faults }
{
    match checked(alloc, command, files) {
        Ok(()) => RunAnswer::Checked,
        Err(answer) => answer,
    }
}

/// Runs a source on one thread, to its end or to the answer that stopped it.
fn single<F: Files, O: Outlet>(
    alloc: Global,
    name: &str,
    files: &mut F,
    outlet: &mut O,
) -> Result<SourceEnd, RunAnswer>
    ensures serves { Runs Mode.Single name.now (F.contents files.old)
        (O.events outlet.old) (O.events outlet.new)
        (Rose (F.faults files.old) (F.faults files.new))
        (Rose (O.faults outlet.old) (O.faults outlet.new)) (answer_from result) }
    ensures asks { AsksFor (F.contents files.old) (F.asked files.old) (F.asked files.new)
        (file_named 1048576 name.now ∷ []) (answer_from result) }
    ensures contents { F.contents files.new ≡ F.contents files.old }
    ensures read_faults { F.faults files.old ≤ F.faults files.new }
    ensures write_faults { O.faults outlet.new ≡ write_faults_after (answer_from result) (O.faults outlet.old) }
{
    let source = load(alloc, name, SOURCE_LIMIT, files)?;
    let program = compile(alloc, &source)?;
    run(alloc, &program, outlet)
}

/// Runs both sides of a source in turn, to their ends, or gives the answer that stopped it.
fn both<F: Files, O: Outlet>(
    alloc: Global,
    name: &str,
    files: &mut F,
    outlet: &mut O,
) -> Result<Ran, RunAnswer>
    ensures serves { Runs Mode.Alternate name.now (F.contents files.old)
        (O.events outlet.old) (O.events outlet.new)
        (Rose (F.faults files.old) (F.faults files.new))
        (Rose (O.faults outlet.old) (O.faults outlet.new)) (both_from result) }
    ensures asks { AsksFor (F.contents files.old) (F.asked files.old) (F.asked files.new)
        (file_named 1048576 name.now ∷ []) (both_from result) }
    ensures contents { F.contents files.new ≡ F.contents files.old }
    ensures read_faults { F.faults files.old ≤ F.faults files.new }
    ensures write_faults { O.faults outlet.new ≡ write_faults_after (both_from result) (O.faults outlet.old) }
{
    let source = load(alloc, name, SOURCE_LIMIT, files)?;
    let program = compile(alloc, &source)?;
    Ok(run_sides(alloc, program, outlet)?)
}

/// Checks a program, or gives the answer that stopped it. Its input is read and not looked at.
fn checked<F: Files>(alloc: Global, command: Command<'_>, files: &mut F) -> Result<(), RunAnswer>
    requires { command.mode ≡ Mode.Check }
    ensures serves { (events : Option (List Event)) (before after : ℕ)
        → Serves (command_of command.entry) (F.contents files.old) events events
        (Rose (F.faults files.old) (F.faults files.new)) (Rose before after) (check_from result) }
    ensures asks { AsksFor (F.contents files.old) (F.asked files.old) (F.asked files.new)
        (files_of (command_of command.entry)) (check_from result) }
    ensures contents { F.contents files.new ≡ F.contents files.old }
    ensures read_faults { F.faults files.old ≤ F.faults files.new }
    ensures write_faults { (faults : ℕ) → write_faults_after (check_from result) faults ≡ faults }
{
    let sources = load_sources(alloc, command, files)?;
    check_read(alloc, &sources.main, &sources.binary)
}

/// Whether the bytes that were read are a program, or the answer that tells why not.
fn check_read(alloc: Global, main: &[u8], binary: &Option<Vec<u8>>) -> Result<(), RunAnswer>
    requires main { length main.now ≤ 1048576 }
    requires binary { IfSome (option_map (λ bytes. bytes.items) binary.now) (λ src. length src ≤ 1048576) }
    ensures ok { OnOk result ((program : Program) × TypesFiles main.now (option_map (λ bytes. bytes.items) binary.now) program) }
    ensures err { IfErr result (IsRefusal (RefusesFiles main.now (option_map (λ bytes. bytes.items) binary.now))) }
{
    match binary {
        Some(binary) => check_sources(alloc, main, Some(binary.as_slice())),
        None => check_sources(alloc, main, None),
    }
}

/// Whether the bytes of sources are a program, or the answer that tells why not.
fn check_sources(alloc: Global, main: &[u8], binary: Option<&[u8]>) -> Result<(), RunAnswer>
    requires main { length main.now ≤ 1048576 }
    requires binary { IfSome (option_copied binary) (λ src. length src ≤ 1048576) }
    ensures ok { OnOk result ((program : Program) × TypesFiles main.now (option_copied binary.entry) program) }
    ensures err { IfErr result (IsRefusal (RefusesFiles main.now (option_copied binary.entry))) }
{
    match check_files(alloc, main, binary) {
        Ok(_program) => Ok(()),
        Err(answer) => Err(answer),
    }
}

/// The middle code of a source, or the answer that stopped it.
fn compile(alloc: Global, source: &[u8]) -> Result<MidProgram, RunAnswer>
    requires { length source.now + 1 < 2 ^ 32 }
    ensures ok { IfOk result
        (λ program. (form : FirstForm) × IsFirstForm source.now form × Implements program form) }
    ensures err { IfErr result (StopsCompiling source.now) }
{
    match compile_first_form(alloc, source) {
        Ok(program) => Ok(program),
        Err(FormRefusal::Form) => Err(RunAnswer::Refused(CompileRefusal::Form)),
        Err(FormRefusal::Memory) => Err(RunAnswer::OutOfMemory),
    }
}

/// Runs both sides of a program in turn, to their ends.
fn run_sides<O: Outlet>(
    alloc: Global,
    program: MidProgram,
    outlet: &mut O,
) -> Result<Ran, AllocError>
    requires { HasSites (everything_shared program) }
    ensures ok { IfOk result (RanBySides program LIMITS
        (O.events outlet.old) (O.events outlet.new)
        (Rose (O.faults outlet.old) (O.faults outlet.new))) }
    ensures err { OnErr result (O.events outlet.new ≡ O.events outlet.old) }
    ensures counted { IfOk result (λ ran. O.faults outlet.new ≡ faults_told ran.verdict (O.faults outlet.old)) }
    ensures uncounted { OnErr result (O.faults outlet.new ≡ O.faults outlet.old) }
{
    let pair = pair_of(alloc, program)?;
    let mut duo = Duo::start(alloc, &pair, Vec::new(alloc), LIMITS)?;
    Ok(alternate(&mut duo, &pair, outlet))
}

/// Runs a program on one thread, to its end or to the answer that stopped it.
fn run<O: Outlet>(
    alloc: Global,
    program: &MidProgram,
    outlet: &mut O,
) -> Result<SourceEnd, RunAnswer>
    requires { IsValid program.now }
    ensures ok { IfOk result (λ end. (events : List Event) × Middle program.now [] LIMITS events end
        × Appends (O.events outlet.old) (O.events outlet.new) events) }
    ensures err { IfErr result (StopsRun program.now LIMITS
        (O.events outlet.old) (O.events outlet.new)
        (Rose (O.faults outlet.old) (O.faults outlet.new))) }
    ensures write_faults { O.faults outlet.new ≡ write_faults_after (answer_from result) (O.faults outlet.old) }
{
    let mut run = MidRun::start(alloc, program, Vec::new(alloc), LIMITS)?;
    Ok(run.run(program, outlet)?)
}

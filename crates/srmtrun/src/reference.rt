ghost use Rattle.std.specs.Prelude.{◌≡◌, ◌≤◌, length, Some, IfSome, option_map, option_copied};
ghost use Rattle.srmt_outside.specs.Count.{Rose};
ghost use Rattle.c_typed.specs.StatementViews.{program_view};
ghost use Rattle.source_meaning.specs.Sound.{CanRun};
ghost use Rattle.source_meaning.specs.Start.{means};
ghost use Rattle.typing_laws.specs.LanguagePrograms.{IfThere};
ghost use Rattle.parsed_laws.specs.Parsed.{AreBytes};
ghost use Rattle.c_meaning.specs.Limits.{FitLimits};
ghost use Rattle.srmtrun.specs.declared.words.Mode.{Mode};
ghost use Rattle.srmtrun.specs.Answer.{answer_from, write_faults_after};
ghost use Rattle.srmtrun.specs.Reading.{command_of};
ghost use Rattle.srmtrun.specs.Reads.{files_of};
ghost use Rattle.srmtrun.specs.Words.{IsTurns};
ghost use Rattle.srmtrun.specs.Still.{limits_with, AnswersMeaning, AsksFor};
ghost use Rattle.srmtrun.specs.Parts.{Serves, AreLimits, AnswersSources};

use crate::sources::{Sources, load_sources};
use crate::words::Command;
use answers::RunAnswer;
use c_front::check_files;
use c_meaning::{MeaningFault, evaluate};
use c_typed::TypedProgram;
use parsed_laws::parsed_programs_can_run;
use room_laws::typed_programs_have_room;
use srmt_base::{Limits, SourceEnd};
use srmt_outside::{Files, Outlet};
use std::alloc::Global;

/// The answer to a program that is run by its meaning.
pub(crate) fn serve_reference<F: Files, O: Outlet>(
    alloc: Global,
    command: Command<'_>,
    files: &mut F,
    outlet: &mut O,
) -> RunAnswer
    requires mode { command.mode ≡ Mode.Reference }
    requires turns { IfSome command.turns IsTurns }
    ensures serves { Serves (command_of command.entry) (F.contents files.old)
        (O.events outlet.old) (O.events outlet.new)
        (Rose (F.faults files.old) (F.faults files.new))
        (Rose (O.faults outlet.old) (O.faults outlet.new)) result }
    ensures asks { AsksFor (F.contents files.old) (F.asked files.old) (F.asked files.new)
        (files_of (command_of command.entry)) result }
    ensures contents { F.contents files.new ≡ F.contents files.old }
    ensures read_faults { F.faults files.old ≤ F.faults files.new }
    ensures write_faults { O.faults outlet.new ≡ write_faults_after result (O.faults outlet.old) }
{
    match reference(alloc, command, files, outlet) {
        Ok(end) => RunAnswer::Alone(end),
        Err(answer) => answer,
    }
}

/// Runs a program by its meaning, to its end or to the answer that stopped it.
fn reference<F: Files, O: Outlet>(
    alloc: Global,
    command: Command<'_>,
    files: &mut F,
    outlet: &mut O,
) -> Result<SourceEnd, RunAnswer>
    requires mode { command.mode ≡ Mode.Reference }
    requires turns { IfSome command.turns IsTurns }
    ensures serves { Serves (command_of command.entry) (F.contents files.old)
        (O.events outlet.old) (O.events outlet.new)
        (Rose (F.faults files.old) (F.faults files.new))
        (Rose (O.faults outlet.old) (O.faults outlet.new)) (answer_from result) }
    ensures asks { AsksFor (F.contents files.old) (F.asked files.old) (F.asked files.new)
        (files_of (command_of command.entry)) (answer_from result) }
    ensures contents { F.contents files.new ≡ F.contents files.old }
    ensures read_faults { F.faults files.old ≤ F.faults files.new }
    ensures write_faults { O.faults outlet.new ≡ write_faults_after (answer_from result) (O.faults outlet.old) }
{
    let sources = load_sources(alloc, command, files)?;
    run_sources(alloc, sources, limits_with(command.turns), outlet)
}

/// The limits of a run, with so many turns where they are given.
fn limits_with(turns: Option<u64>) -> Limits
    ensures { result ≡ limits_with turns }
{
    Limits {
        turns: turns.unwrap_or(100_000_000),
        depth: 1_000,
        cells: 1_048_576,
    }
}

/// Runs the program of the files that were read by its meaning.
fn run_sources<O: Outlet>(
    alloc: Global,
    sources: Sources,
    limits: Limits,
    outlet: &mut O,
) -> Result<SourceEnd, RunAnswer>
    requires main { length sources.main.items ≤ 1048576 }
    requires binary { IfSome (option_map (λ bytes. bytes.items) sources.binary) (λ src. length src ≤ 1048576) }
    requires limits { AreLimits limits }
    ensures answers { AnswersSources sources.main.items (option_map (λ bytes. bytes.items) sources.binary) sources.input.items limits
        (O.events outlet.old) (O.events outlet.new)
        (Rose (O.faults outlet.old) (O.faults outlet.new)) (answer_from result) }
    ensures write_faults { O.faults outlet.new ≡ write_faults_after (answer_from result) (O.faults outlet.old) }
{
    let Sources {
        main,
        binary,
        input,
    } = sources;
    match binary {
        Some(binary) => run_with_binary(alloc, &main, &binary, input, limits, outlet),
        None => run_bytes(alloc, &main, None, input, limits, outlet),
    }
}

/// Runs the program of the bytes of two files by its meaning.
fn run_with_binary<O: Outlet>(
    alloc: Global,
    main: &[u8],
    binary: &[u8],
    input: Vec<u8>,
    limits: Limits,
    outlet: &mut O,
) -> Result<SourceEnd, RunAnswer>
    requires main { length main.now ≤ 1048576 }
    requires binary { length binary.now ≤ 1048576 }
    requires limits { AreLimits limits }
    ensures answers { AnswersSources main.now (Some binary.now) input.items limits
        (O.events outlet.old) (O.events outlet.new)
        (Rose (O.faults outlet.old) (O.faults outlet.new)) (answer_from result) }
    ensures write_faults { O.faults outlet.new ≡ write_faults_after (answer_from result) (O.faults outlet.old) }
{
    run_bytes(alloc, main, Some(binary), input, limits, outlet)
}

/// Runs the program of some bytes by its meaning.
fn run_bytes<O: Outlet>(
    alloc: Global,
    main: &[u8],
    binary: Option<&[u8]>,
    input: Vec<u8>,
    limits: Limits,
    outlet: &mut O,
) -> Result<SourceEnd, RunAnswer>
    requires main { length main.now ≤ 1048576 }
    requires binary { IfSome (option_copied binary) (λ src. length src ≤ 1048576) }
    requires bytes { IfThere AreBytes (option_copied binary) }
    requires limits { AreLimits limits }
    ensures answers { AnswersSources main.now (option_copied binary.entry) input.items limits
        (O.events outlet.old) (O.events outlet.new)
        (Rose (O.faults outlet.old) (O.faults outlet.new)) (answer_from result) }
    ensures write_faults { O.faults outlet.new ≡ write_faults_after (answer_from result) (O.faults outlet.old) }
{
    // By these laws the evaluator takes every typed program.
    parsed_programs_can_run();
    typed_programs_have_room();
    match check_files(alloc, main, binary) {
        Ok(program) => run_program(alloc, &program, input, limits, outlet),
        Err(answer) => Err(answer),
    }
}

/// Runs a typed program by its meaning.
fn run_program<O: Outlet>(
    alloc: Global,
    program: &TypedProgram,
    input: Vec<u8>,
    limits: Limits,
    outlet: &mut O,
) -> Result<SourceEnd, RunAnswer>
    requires can { CanRun (program_view program.now) }
    requires limits { FitLimits (program_view program.now) limits }
    ensures answers { AnswersMeaning (means (program_view program.now) input.items limits)
        (O.events outlet.old) (O.events outlet.new) ⊥
        (Rose (O.faults outlet.old) (O.faults outlet.new)) (answer_from result) }
    ensures write_faults { O.faults outlet.new ≡ write_faults_after (answer_from result) (O.faults outlet.old) }
{
    match evaluate(alloc, program, input, limits, outlet) {
        Ok(end) => Ok(end),
        Err(MeaningFault::Write) => Err(RunAnswer::WriteFault),
        Err(MeaningFault::Memory) => Err(RunAnswer::OutOfMemory),
    }
}

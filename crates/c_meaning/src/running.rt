ghost use Rattle.std.specs.Prelude.{◌≡◌, ℕ, ◌+◌, ◌*◌, ◌<◌, ◌≤◌, ◌∷◌, [], Some, IfOk, IfErr, OnOk, OnErr, IsErrOf};
ghost use Rattle.srmt_outside.specs.Count.{next_count};
ghost use Rattle.srmt_outside.specs.Told.{Appends, AppendsPrefix};
ghost use Rattle.c_typed.specs.StatementViews.{program_view};
ghost use Rattle.source_meaning.specs.Sound.{CanRun};
ghost use Rattle.source_meaning.specs.Start.{means};
ghost use Rattle.c_meaning.specs.Ending.{events_of, next_of, Faulted, rest_from, call_of_main, Came, Reached, Ended, Stopped};
ghost use Rattle.c_meaning.specs.Limits.{FitLimits};
ghost use Rattle.c_meaning.specs.Runs.{types_of, IsSound, turns_of, work_left};
ghost use Rattle.c_meaning.specs.Sound.{IsReady};
ghost use Rattle.c_meaning.specs.Starting.{IsStarted};
ghost use Rattle.c_meaning.specs.TaskViews.{current_view};

use crate::calls::function_at;
use crate::fault::MeaningFault;
use crate::locals::Locals;
use crate::run::{Did, Run};
use crate::setting::{At, value_of_entity};
use crate::stack::Tasks;
use crate::statics::start_of;
use crate::store::Stored;
use crate::task::Current;
use crate::values::Values;
use c_typed::TypedProgram;
use frames::{Input, Memory};
use srmt_base::{Budgets, Event, Limits, Part, SourceEnd, Trap};
use srmt_outside::Outlet;
use std::alloc::{AllocError, Global};

/// How a run goes on.
#[derive(Clone, Copy)]
pub(crate) enum Next {
    Goes,
    /// A turn was taken.
    Turns,
    Ends(SourceEnd),
}

/// Tells the outlet an event.
fn tell<O: Outlet>(outlet: &mut O, event: Event) -> Result<(), MeaningFault>
    ensures told { OnOk result (Appends (O.events outlet.old) (O.events outlet.new) (event ∷ [])) }
    ensures unwritten { OnErr result (O.events outlet.new ≡ O.events outlet.old) }
    ensures faults { Faulted result (O.faults outlet.old) (O.faults outlet.new) }
{
    match outlet.event(event) {
        Ok(()) => Ok(()),
        Err(_) => Err(MeaningFault::Write),
    }
}

/// Tells the outlet what a step did.
fn settle<O: Outlet>(did: Did, outlet: &mut O) -> Result<Next, MeaningFault>
    ensures next { IfOk result (λ next. next ≡ next_of did) }
    ensures told { OnOk result (Appends (O.events outlet.old) (O.events outlet.new) (events_of did)) }
    ensures unwritten { OnErr result (O.events outlet.new ≡ O.events outlet.old) }
    ensures faults { Faulted result (O.faults outlet.old) (O.faults outlet.new) }
{
    match did {
        Did::Went => Ok(Next::Goes),
        Did::Turned => Ok(Next::Turns),
        Did::Told(event) => {
            tell(outlet, event)?;
            Ok(Next::Goes)
        }
        Did::Trapped(trapped) => Ok(Next::Ends(SourceEnd::Trap(trapped.trap, trapped.line))),
        Did::Exited(value) => {
            let status = (value % 256) as u8;
            tell(outlet, Event::Exit(status))?;
            Ok(Next::Ends(SourceEnd::Exit(status)))
        }
    }
}

/// Does the next piece of work.
fn advance<'p, O: Outlet>(
    run: &mut Run<'p>,
    alloc: Global,
    program: &'p TypedProgram,
    outlet: &mut O,
) -> Result<Next, MeaningFault>
    requires can { CanRun (program_view program.now) }
    requires sound { IsSound program.now run.old }
    ensures came { let p = program.now in
        IfOk result (Came p (rest_from p run.old) (work_left p run.old) (turns_of run.old.world.budgets) run.new (O.events outlet.old) (O.events outlet.new)) }
    ensures sound { OnOk result (IsSound program.now run.new) }
    ensures unwritten { OnErr result (O.events outlet.new ≡ O.events outlet.old) }
    ensures faults { Faulted result (O.faults outlet.old) (O.faults outlet.new) }
{
    let did = run.step(alloc, program)?;
    settle(did, outlet)
}

/// Goes on until a turn was taken, or to the end.
fn until_turn<'p, O: Outlet>(
    run: &mut Run<'p>,
    alloc: Global,
    program: &'p TypedProgram,
    outlet: &mut O,
) -> Result<Option<SourceEnd>, MeaningFault>
    requires can { CanRun (program_view program.now) }
    requires sound { IsSound program.now run.old }
    ensures reached { let p = program.now in
        IfOk result (Reached p (rest_from p run.old) (turns_of run.old.world.budgets) run.new (O.events outlet.old) (O.events outlet.new)) }
    ensures sound { OnOk result (IsSound program.now run.new) }
    ensures stopped { OnErr result (Stopped (rest_from program.now run.old) (turns_of run.old.world.budgets) (O.events outlet.old) (O.events outlet.new)) }
    ensures faults { Faulted result (O.faults outlet.old) (O.faults outlet.new) }
{
    loop {
        match advance(run, alloc, program, outlet)? {
            Next::Goes => {}
            Next::Turns => return Ok(None),
            Next::Ends(end) => return Ok(Some(end)),
        }
    }
}

/// Goes on to the end, where fewer than so many turns are left.
fn to_end<'p, O: Outlet>(
    run: &mut Run<'p>,
    alloc: Global,
    program: &'p TypedProgram,
    turns: u64,
    outlet: &mut O,
) -> Result<SourceEnd, MeaningFault>
    requires can { CanRun (program_view program.now) }
    requires sound { IsSound program.now run.old }
    requires turns { turns_of run.old.world.budgets < turns }
    ensures ended { IfOk result (Ended (rest_from program.now run.old) (turns_of run.old.world.budgets) (O.events outlet.old) (O.events outlet.new)) }
    ensures stopped { OnErr result (Stopped (rest_from program.now run.old) (turns_of run.old.world.budgets) (O.events outlet.old) (O.events outlet.new)) }
    ensures faults { Faulted result (O.faults outlet.old) (O.faults outlet.new) }
{
    for _ in 0..turns {
        if let Some(end) = until_turn(run, alloc, program, outlet)? {
            return Ok(end);
        }
    }
    unreachable!();
}

/// Calls `main`.
fn enter_main<'p, O: Outlet>(
    run: &mut Run<'p>,
    alloc: Global,
    program: &'p TypedProgram,
    number: u64,
    outlet: &mut O,
) -> Result<Next, MeaningFault>
    requires can { CanRun (program_view program.now) }
    requires sound { IsSound program.now run.old }
    ensures came { let p = program.now in
        IfOk result (Came p (call_of_main p number run.old) 0 (turns_of run.old.world.budgets) run.new (O.events outlet.old) (O.events outlet.new)) }
    ensures sound { OnOk result (IsSound program.now run.new) }
    ensures unwritten { OnErr result (O.events outlet.new ≡ O.events outlet.old) }
    ensures faults { Faulted result (O.faults outlet.old) (O.faults outlet.new) }
{
    let at = run.at(program);
    let arguments = Locals::zeros(alloc, 0)?;
    let did = run.enter(alloc, at, 0, number, arguments)?;
    settle(did, outlet)
}

/// A run at its start, where `main` is not yet entered.
fn started<'p>(
    alloc: Global,
    program: &'p TypedProgram,
    main: Current<'p>,
    input: Vec<u8>,
    limits: Limits,
) -> Result<Run<'p>, AllocError>
    requires can { CanRun (program_view program.now) }
    requires ready { IsReady (current_view (types_of program.now) main) }
    requires limits { FitLimits (program_view program.now) limits }
    ensures started { IfOk result (IsStarted program.now input.items limits) }
    ensures sound { IfOk result (IsSound program.now) }
    ensures turns { IfOk result (λ run. turns_of run.world.budgets ≡ limits.turns + limits.turns) }
{
    let protected = start_of(alloc, program, Part::Protected, limits.cells)?;
    let binary = start_of(alloc, program, Part::Binary, limits.cells)?;
    let world = Stored {
        memory: Memory::new(protected, binary),
        budgets: Budgets::full(limits),
        input: Input::new(input),
        locals: Locals::zeros(alloc, 0)?,
    };
    Ok(Run {
        current: main,
        world,
        tasks: Tasks::new(alloc),
        values: Values::new(alloc),
    })
}

/// Calls `main`, and goes on to the end.
fn run_main<'p, O: Outlet>(
    run: &mut Run<'p>,
    alloc: Global,
    program: &'p TypedProgram,
    number: u64,
    turns: u64,
    outlet: &mut O,
) -> Result<SourceEnd, MeaningFault>
    requires can { CanRun (program_view program.now) }
    requires sound { IsSound program.now run.old }
    requires turns { turns_of run.old.world.budgets ≡ turns }
    ensures ended { IfOk result (Ended (call_of_main program.now number run.old) turns (O.events outlet.old) (O.events outlet.new)) }
    ensures stopped { OnErr result (Stopped (call_of_main program.now number run.old) turns (O.events outlet.old) (O.events outlet.new)) }
    ensures faults { Faulted result (O.faults outlet.old) (O.faults outlet.new) }
{
    match enter_main(run, alloc, program, number, outlet)? {
        Next::Ends(end) => Ok(end),
        Next::Turns => to_end(run, alloc, program, turns, outlet),
        Next::Goes => unreachable!(),
    }
}

/// Runs a program on one thread, by its meaning: it writes the events, and answers the end. The input is in bytes; the
/// limits are the turns, the activations and the cells that each part may use. After a fault the events so far stand.
pub fn evaluate<O: Outlet>(
    alloc: Global,
    program: &TypedProgram,
    input: Vec<u8>,
    limits: Limits,
    outlet: &mut O,
) -> Result<SourceEnd, MeaningFault>
    requires can { CanRun (program_view program.now) }
    requires limits { FitLimits (program_view program.now) limits }

    // All events of the meaning are written, and its end is answered.
    ensures end { IfOk result (λ end. end ≡ (means (program_view program.now) input.items limits).end) }
    ensures events { OnOk result (Appends (O.events outlet.old) (O.events outlet.new) (means (program_view program.now) input.items limits).events) }

    // After a fault the events so far are the first of them.
    ensures prefix { OnErr result (AppendsPrefix (O.events outlet.old) (O.events outlet.new) (means (program_view program.now) input.items limits).events) }

    // With a write fault the outlet has counted one fault more, and else none.
    ensures write { IsErrOf result MeaningFault.Write → O.faults outlet.new ≡ next_count (O.faults outlet.old) }
    ensures memory { IsErrOf result MeaningFault.Memory → O.faults outlet.new ≡ O.faults outlet.old }
    ensures still { OnOk result (O.faults outlet.new ≡ O.faults outlet.old) }
{
    let number = value_of_entity(program, program.main);
    let Some(main) = function_at(program, number) else {
        return Ok(SourceEnd::Trap(Trap::NotAFunction, 0));
    };
    let mut run = started(alloc, program, main, input, limits)?;
    run_main(&mut run, alloc, program, number, 2 * limits.turns, outlet)
}

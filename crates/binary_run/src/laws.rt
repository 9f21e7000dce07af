ghost use Rattle.mid_code.specs.declared.program.MidProgram.{MidProgram};
ghost use Rattle.binary_run.specs.Laws.{RunsAsMeant};

/// A law: a binary function that is entered and calls nothing outside does what the meaning gives
/// for the same call: the same events, memory, input and budget, and the same result or end.
pub fn runs_as_meant()
    ensures { (program : MidProgram) → RunsAsMeant program }
{}

// What the rules make of a cabinet. A function here has nothing to run: its contract is the law.
ghost use Rattle.replay.specs.Cabinets.{answer, after};
ghost use Rattle.replay.specs.Steps.{StepsTold};

/// A cabinet's data tell every step of the rules: its answer, and the data after it.
pub fn data_tell_every_step()
    ensures { StepsTold answer after }
{}

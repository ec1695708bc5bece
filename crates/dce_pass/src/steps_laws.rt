//! Laws of rounds as steps, each the contract of a function with an empty body.

ghost use Rattle.pass_trait.specs.Code.{HasOneResult, SeesCodeAlone};
ghost use Rattle.pass_trait.specs.Steps.{EachCode};
ghost use Rattle.dce_pass.specs.Steps.{RoundsKeepSteps, StepsThinOut, dead_steps};

/// Of a sound function with fewer than 2^31 instructions complete rounds are a run of the pass's steps, and the code
/// rule of each step is functional and doesn't depend on debug items.
pub fn rounds_keep_steps()
    ensures steps { RoundsKeepSteps }
    ensures one { EachCode HasOneResult dead_steps }
    ensures same { EachCode SeesCodeAlone dead_steps }
{}

/// Whatever takes the pass's steps makes the code that rounds leave until one removes nothing, of a function with fewer
/// than 2^31 instructions.
pub fn steps_thin_out()
    ensures { StepsThinOut }
{}

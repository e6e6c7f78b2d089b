//! That no stage refuses the demo.
ghost use Rattle.demo_program.specs.Accepted.{DemoIsAccepted};
ghost use Rattle.demo_program.specs.Admitted.{DemosMayRun};

/// The demo's texts are a program and a script within their limits: the program is typed, each step
/// is made, and the last term is a legal nest within the limits, which asks for one row.
pub fn demo_is_accepted()
    ensures { DemoIsAccepted }
{}

/// The demo's launch is admissible for its program, whatever the seed.
pub fn demos_may_run()
    ensures { DemosMayRun }
{}

//! How far a machine is.

ghost use Rattle.std.specs.Prelude.{◌≡◌};
ghost use Rattle.ir_meaning.specs.State.{is_running};
ghost use Rattle.ir_machine.specs.Phases.{phase_of};

use ir_meaning::Value;

/// How far the run of a machine is.
#[derive(Clone, Copy, Debug, PartialEq, Eq)]
pub enum Phase {
    /// It goes on.
    Running,
    /// It has returned: the value, or none from a function of type `void`.
    Returned(Option<Value>),
    /// Its behaviour is undefined from here on (LLVM Language Reference, "Undefined Behavior").
    Undefined,
    /// A call didn't return.
    Stopped,
}

impl Phase {
    /// Whether the run goes on.
    pub fn is_running(&self) -> bool
        ensures { result ≡ is_running (phase_of self.now) }
    {
        matches!(self, Phase::Running)
    }
}

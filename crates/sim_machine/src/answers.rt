//! Answers to calls.

ghost use Rattle.std.specs.Prelude.{◌≡◌, ℕ, false};
ghost use Rattle.rv64_instr.specs.declared.start.CallEvent.{CallEvent};
ghost use Rattle.sem_mir.specs.State.{Reply, writes_frame};
ghost use Rattle.sem_interpreter.specs.Acts.{reply_of};

use rv64_instr::start::{CallEvent, CallResult};

/// Determines the results and the memory writes of every call of a run.
pub trait CallAnswers {
    /// The answers that it may give to a call.
    ghost gives: { Self → CallEvent → Reply → Type 0 };

    /// Its answers write no byte of the frame, which is determined by the content of x2 at entry and the size in bytes
    /// of the stack objects right below it.
    ghost spares: { Self → (entry area : ℕ) → Type 0 };

    /// The answer to a call.
    fn answer(&self, call: &CallEvent) -> CallResult
        ensures given { gives self.now call.now (reply_of result) }
        ensures spared { (entry area : ℕ) → spares self.now entry area
            → writes_frame entry area (reply_of result).writes ≡ false };
}

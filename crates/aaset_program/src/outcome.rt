//! The exit status of a run's outcome.
ghost use Rattle.std.specs.Prelude.{◌≡◌, ◌<◌, IfOk, OnErr};

use aa_set::{RunFault, Summary};

/// The exit status of a run's outcome: 0 where no command was refused, 1 where some was, and 3 where a fault ended the run.
pub fn status(outcome: &Result<Summary, RunFault>) -> u8
    ensures accepted { IfOk outcome.now (λ summary. summary.refused ≡ 0 → result ≡ 0) }
    ensures refused { IfOk outcome.now (λ summary. 0 < summary.refused → result ≡ 1) }
    ensures fault { OnErr outcome.now (result ≡ 3) }
{
    match outcome {
        Ok(summary) if summary.refused == 0 => 0,
        Ok(_) => 1,
        Err(_) => 3,
    }
}

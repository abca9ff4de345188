ghost use Rattle.std.specs.Prelude.{◌≡◌};
ghost use Rattle.enc_run.specs.Statuses as spec;
ghost use Rattle.enc_run.specs.Stop.{status_of};

use crate::Text;
use enc_pipeline::Fault;

/// How a run ends early, with what its note needs.
#[derive(Debug, Drop)]
pub enum Stop {
    /// The words give no job.
    NotBuilt,
    /// The named file could not be read.
    Unread(Text),
    /// The problem or the table is refused. The reason is neither want of memory nor a failed
    /// write.
    Refused(Fault),
    /// The output could not be written.
    Unwritten,
    /// Want of memory.
    Memory,
}

impl From<Fault> for Stop {
    ghost use Rattle.std.specs.Prelude.{◌≡◌};
    ghost use Rattle.enc_run.specs.Stop.{stop_of};

    ghost from_gives = { λ fault stop. stop ≡ stop_of fault };

    fn from(fault: Fault) -> Stop {
        match fault {
            Fault::Write => Stop::Unwritten,
            Fault::Memory => Stop::Memory,
            reason => Stop::Refused(reason),
        }
    }
}

impl Stop {
    /// The exit status.
    pub fn status(&self) -> u8
        ensures { result ≡ status_of self.now }
    {
        match self {
            Stop::NotBuilt => 9,
            Stop::Unread(_) => 6,
            Stop::Refused(reason) => status_of_refusal(reason),
            Stop::Unwritten => 7,
            Stop::Memory => 8,
        }
    }
}

// the exit status of a refusal
fn status_of_refusal(reason: &Fault) -> u8
    ensures { result ≡ spec.status_of_refusal reason.now }
{
    match reason.number() {
        Some(number) => status_of_number(number),
        None => 8,
    }
}

// The exit status of the refusal with this number: 5 where a limit is passed, 4 where the table is
// none of a model, 3 where the scheme doesn't apply, and 1 where there is no problem.
fn status_of_number(number: u8) -> u8
    ensures { result ≡ spec.status_of_number number }
{
    match number {
        4 | 10 | 21 | 22 | 33 | 35 | 36 => 5,
        41..=47 => 4,
        31 | 32 | 34 => 3,
        _ => 1,
    }
}

// Why a job is not done to its end.
ghost use Rattle.std.specs.Prelude.{◌≡◌};
ghost use Rattle.bench.specs.declared.stop.Stop.TheVariants.{Refused};

use model::Refusal;
use std::alloc::AllocError;
use std::io;

// What stops a job: a refusal, or what the program stands on.
#[derive(Debug, Drop)]
pub(crate) enum Stop {
    // a call refused it
    Refused(Refusal),
    // the arguments, the printing, the clock or the memory failed
    Failed(io::Error),
}

impl From<Refusal> for Stop {
    ghost from_gives = { λ why stop. stop ≡ Refused why };

    fn from(why: Refusal) -> Stop {
        Stop::Refused(why)
    }
}

impl From<io::Error> for Stop {
    fn from(error: io::Error) -> Stop {
        Stop::Failed(error)
    }
}

impl From<AllocError> for Stop {
    fn from(error: AllocError) -> Stop {
        Stop::Failed(io::Error::from(error))
    }
}

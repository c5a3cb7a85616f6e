//! How the program ends.
use std::alloc::{AllocError, AllocFailed};

/// What the program ends with; its number is the exit status of the process.
#[derive(Clone, Copy, PartialEq, Eq)]
pub enum Status {
    /// 0: accepted, or the run returned.
    Done,
    /// 1: a fault of the files, found before anything runs.
    Refused,
    /// 2: the words are no command.
    Usage,
    /// 3: the run ended in an uncaught exception.
    Uncaught,
    /// 4: the run ended in a fault.
    Dynamic,
    /// 5: a call on the files failed.
    ReadFault,
    /// 6: a call on the sink failed.
    WriteFault,
    /// 7: want of memory.
    NoMemory,
}

impl Status {
    ghost use Rattle.std.specs.Prelude.{◌≡◌};
    ghost use Rattle.asl_answer.specs.Statuses.{code_of};

    /// The exit status, 0 to 7.
    pub fn code(self) -> u8
        ensures { result ≡ code_of self }
    {
        match self {
            Status::Done => 0,
            Status::Refused => 1,
            Status::Usage => 2,
            Status::Uncaught => 3,
            Status::Dynamic => 4,
            Status::ReadFault => 5,
            Status::WriteFault => 6,
            Status::NoMemory => 7,
        }
    }
}

/// Why a part of the work stopped: a call on the files or on the sink failed, or want of memory.
#[derive(Clone, Copy, PartialEq, Eq)]
pub enum Stop {
    Fault,
    NoMemory,
}

impl From<AllocError> for Stop {
    ghost use Rattle.std.specs.Prelude.{◌≡◌};
    ghost use Rattle.asl_answer.specs.declared.status.Stop.TheVariants.{NoMemory};

    ghost from_gives = { λ _ e. e ≡ NoMemory };

    fn from(_error: AllocError) -> Stop {
        Stop::NoMemory
    }
}

impl<T: Drop> From<AllocFailed<T>> for Stop {
    ghost use Rattle.std.specs.Prelude.{◌≡◌};
    ghost use Rattle.asl_answer.specs.declared.status.Stop.TheVariants.{NoMemory};

    ghost from_gives = { λ _ e. e ≡ NoMemory };

    fn from(_error: AllocFailed<T>) -> Stop {
        Stop::NoMemory
    }
}

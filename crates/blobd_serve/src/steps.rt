//! What a worker does after an accept that failed.
ghost use Rattle.std.specs.Prelude.{◌≡◌};
ghost use Rattle.blobd_serve.specs.Steps.{step_behind};

// What Linux calls these errors, on x86-64 and aarch64.
const EPERM: u32 = 1;

const EINTR: u32 = 4;

const EBADF: u32 = 9;

const EFAULT: u32 = 14;

const EINVAL: u32 = 22;

const ENONET: u32 = 64;

const EPROTO: u32 = 71;

const ENOTSOCK: u32 = 88;

const ENOPROTOOPT: u32 = 92;

const EOPNOTSUPP: u32 = 95;

const ENETDOWN: u32 = 100;

const ENETUNREACH: u32 = 101;

const ECONNABORTED: u32 = 103;

const ECONNRESET: u32 = 104;

const EHOSTDOWN: u32 = 112;

const EHOSTUNREACH: u32 = 113;

/// What a worker does after an accept that failed.
#[derive(Clone, Copy, Debug, PartialEq, Eq)]
pub(crate) enum Step {
    /// It accepts again: the error is that of a connection that had ended before it was accepted, or a signal came.
    PassOver,
    /// It waits, and accepts again: the system has no descriptor or no memory for a connection now, or fails otherwise.
    Wait,
    /// It takes no more connections: the listener is none.
    Stop,
}

/// What is done after the system's error of this number; 0 is an error without one.
pub(crate) fn step_behind(error: u32) -> Step
    ensures { result ≡ step_behind error }
{
    match error {
        // accept(2) gives the error of a connection that waits, and says that these are to be tried again.
        EPERM
        | EINTR
        | ENONET
        | EPROTO
        | ENOPROTOOPT
        | EOPNOTSUPP
        | ENETDOWN
        | ENETUNREACH
        | ECONNABORTED
        | ECONNRESET
        | EHOSTDOWN
        | EHOSTUNREACH => Step::PassOver,
        EBADF | EFAULT | EINVAL | ENOTSOCK => Step::Stop,
        _ => Step::Wait,
    }
}

//! The limits of the program's service.
ghost use Rattle.std.specs.Prelude.{◌≡◌};
ghost use Rattle.upload_service.specs.Machine.{AreLawful};
ghost use Rattle.blobd_serve.specs.Limits.{program_limits};

use upload_service::Limits;

/// A blob of 16 GiB, a body of 2 GiB, 1,024 open sessions, and an hour without a chunk.
pub fn limits() -> Limits
    ensures value { result ≡ program_limits }
    ensures lawful { AreLawful result }
{
    Limits {
        max_blob: 17_179_869_184,
        max_body: 2_147_483_648,
        max_open: 1_024,
        max_idle: 3_600,
    }
}

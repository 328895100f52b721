//! What the reply to a refused request names (OCI Distribution Specification 1.1, section "Error Codes").
ghost use Rattle.std.specs.Prelude.{◌≡◌};
ghost use Rattle.upload_texts.specs.Errors.{refusal_code, refusal_status};

use crate::error::ErrorCode;
use http_wire::Status;
use upload_service::Refusal;

/// The status of the reply to a refused request.
pub fn refusal_status(refusal: Refusal) -> Status
    ensures { result ≡ refusal_status refusal }
{
    match refusal {
        Refusal::NoForm | Refusal::BadName | Refusal::NoUpload | Refusal::NoBlob =>
            Status::NotFound,
        Refusal::Method(_) => Status::MethodNotAllowed,
        Refusal::BadRange
        | Refusal::WrongLength
        | Refusal::NoDigest
        | Refusal::Mismatch
        | Refusal::HasBody
        | Refusal::BadDigest => Status::BadRequest,
        Refusal::TooLarge => Status::ContentTooLarge,
        Refusal::TooMany => Status::TooManyRequests,
    }
}

/// The error that the reply to a refused request names.
pub fn refusal_code(refusal: Refusal) -> ErrorCode
    ensures { result ≡ refusal_code refusal }
{
    match refusal {
        Refusal::NoForm | Refusal::Method(_) => ErrorCode::Unsupported,
        Refusal::BadName => ErrorCode::NameInvalid,
        Refusal::NoUpload => ErrorCode::BlobUploadUnknown,
        Refusal::BadRange => ErrorCode::BlobUploadInvalid,
        Refusal::WrongLength | Refusal::TooLarge | Refusal::HasBody => ErrorCode::SizeInvalid,
        Refusal::NoDigest | Refusal::Mismatch | Refusal::BadDigest => ErrorCode::DigestInvalid,
        Refusal::TooMany => ErrorCode::TooManyRequests,
        Refusal::NoBlob => ErrorCode::BlobUnknown,
    }
}

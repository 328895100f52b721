//! The errors that replies name.
ghost use Rattle.std.specs.Prelude.{◌≡◌};

/// A code of the OCI Distribution Specification 1.1, section "Error Codes".
#[derive(Clone, Copy, Debug, PartialEq, Eq)]
pub enum ErrorCode {
    BlobUnknown,
    BlobUploadInvalid,
    BlobUploadUnknown,
    DigestInvalid,
    NameInvalid,
    SizeInvalid,
    Unsupported,
    TooManyRequests,
}

impl ErrorCode {
    ghost use Rattle.upload_texts.specs.Errors.{code_text, error_body};

    /// The code's name.
    pub fn text(self) -> &'static [u8]
        ensures { result.now ≡ code_text self }
    {
        match self {
            ErrorCode::BlobUnknown => b"BLOB_UNKNOWN",
            ErrorCode::BlobUploadInvalid => b"BLOB_UPLOAD_INVALID",
            ErrorCode::BlobUploadUnknown => b"BLOB_UPLOAD_UNKNOWN",
            ErrorCode::DigestInvalid => b"DIGEST_INVALID",
            ErrorCode::NameInvalid => b"NAME_INVALID",
            ErrorCode::SizeInvalid => b"SIZE_INVALID",
            ErrorCode::Unsupported => b"UNSUPPORTED",
            ErrorCode::TooManyRequests => b"TOOMANYREQUESTS",
        }
    }

    /// The body of a reply that names this error.
    pub fn body(self) -> &'static str
        ensures { result.now ≡ error_body self }
    {
        match self {
            ErrorCode::BlobUnknown => {
                "{\"errors\":[{\"code\":\"BLOB_UNKNOWN\",\"message\":\"blob unknown to registry\"}]}"
            }
            ErrorCode::BlobUploadInvalid => {
                "{\"errors\":[{\"code\":\"BLOB_UPLOAD_INVALID\",\"message\":\"blob upload invalid\"}]}"
            }
            ErrorCode::BlobUploadUnknown => {
                "{\"errors\":[{\"code\":\"BLOB_UPLOAD_UNKNOWN\",\"message\":\"blob upload unknown to registry\"}]}"
            }
            ErrorCode::DigestInvalid => {
                "{\"errors\":[{\"code\":\"DIGEST_INVALID\",\
                 \"message\":\"provided digest did not match uploaded content\"}]}"
            }
            ErrorCode::NameInvalid => {
                "{\"errors\":[{\"code\":\"NAME_INVALID\",\"message\":\"invalid repository name\"}]}"
            }
            ErrorCode::SizeInvalid => {
                "{\"errors\":[{\"code\":\"SIZE_INVALID\",\
                 \"message\":\"provided length did not match content length\"}]}"
            }
            ErrorCode::Unsupported => {
                "{\"errors\":[{\"code\":\"UNSUPPORTED\",\"message\":\"the operation is unsupported\"}]}"
            }
            ErrorCode::TooManyRequests => {
                "{\"errors\":[{\"code\":\"TOOMANYREQUESTS\",\"message\":\"too many requests\"}]}"
            }
        }
    }
}

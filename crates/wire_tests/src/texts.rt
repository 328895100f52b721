//! Requests and replies that tests of several kinds take: of the first upload, which is under `lib/a`, and of the blob
//! `abc`.

use std::alloc::{AllocError, Global};
use upload_service::Limits;

/// The limits of the program's service.
pub const LIMITS: Limits = Limits {
    max_blob: 17_179_869_184,
    max_body: 2_147_483_648,
    max_open: 1_024,
    max_idle: 3_600,
};

/// Where the first upload is.
pub const UPLOAD: &[u8] = b"/v2/lib/a/blobs/uploads/00000001-0000-8000-8000-000000000000";

pub const OPENING: &str =
    "POST /v2/lib/a/blobs/uploads/ HTTP/1.1\r\nHost: h\r\nContent-Length: 0\r\n\r\n";

pub const STATUS: &str =
    "GET /v2/lib/a/blobs/uploads/00000001-0000-8000-8000-000000000000 HTTP/1.1\r\nHost: h\r\n\r\n";

pub const CHUNK_A: &str =
    "PATCH /v2/lib/a/blobs/uploads/00000001-0000-8000-8000-000000000000 HTTP/1.1\r\nHost: h\r\nContent-Range: 0-0\r\n\
     Content-Length: 1\r\n\r\na";

pub const CLOSE: &str = "PUT /v2/lib/a/blobs/uploads/00000001-0000-8000-8000-000000000000\
     ?digest=sha256:ba7816bf8f01cfea414140de5dae2223b00361a396177a9cb410ff61f20015ad HTTP/1.1\r\nHost: h\r\n\r\n";

pub const OPENED: &str =
    "HTTP/1.1 202 Accepted\r\nLocation: /v2/lib/a/blobs/uploads/00000001-0000-8000-8000-000000000000\r\n\
     Content-Length: 0\r\n\r\n";

/// The reply to a chunk behind which the upload has one byte.
pub const TAKEN_0: &str =
    "HTTP/1.1 202 Accepted\r\nLocation: /v2/lib/a/blobs/uploads/00000001-0000-8000-8000-000000000000\r\nRange: 0-0\r\n\
     Content-Length: 0\r\n\r\n";

/// The same, if it has three bytes.
pub const TAKEN_2: &str =
    "HTTP/1.1 202 Accepted\r\nLocation: /v2/lib/a/blobs/uploads/00000001-0000-8000-8000-000000000000\r\nRange: 0-2\r\n\
     Content-Length: 0\r\n\r\n";

/// The reply to a chunk that misses the offset of three bytes.
pub const MISPLACED_2: &str =
    "HTTP/1.1 416 Range Not Satisfiable\r\nLocation: /v2/lib/a/blobs/uploads/00000001-0000-8000-8000-000000000000\r\n\
     Range: 0-2\r\nContent-Type: application/json\r\nContent-Length: 75\r\n\r\n\
     {\"errors\":[{\"code\":\"BLOB_UPLOAD_INVALID\",\"message\":\"blob upload invalid\"}]}";

pub const STORED: &str = "HTTP/1.1 201 Created\r\n\
     Location: /v2/lib/a/blobs/sha256:ba7816bf8f01cfea414140de5dae2223b00361a396177a9cb410ff61f20015ad\r\n\
     Content-Length: 0\r\n\r\n";

pub const NO_UPLOAD: &str =
    "HTTP/1.1 404 Not Found\r\nContent-Type: application/json\r\nContent-Length: 87\r\n\r\n\
     {\"errors\":[{\"code\":\"BLOB_UPLOAD_UNKNOWN\",\"message\":\"blob upload unknown to registry\"}]}";

/// Texts, one behind the other.
pub fn joined(alloc: Global, texts: &[&str]) -> Result<Vec<u8>, AllocError> {
    let mut all = Vec::new(alloc);
    for text in texts {
        all.extend_from_slice(text.as_bytes())?;
    }
    Ok(all)
}

/// Whether what was written is a front of these texts.
pub fn is_front(texts: &[&str], written: &[u8]) -> bool {
    let mut left = written;
    for text in texts {
        match left.strip_prefix(text.as_bytes()) {
            Some(behind) => left = behind,
            None => return text.as_bytes().starts_with(left),
        }
    }
    left.is_empty()
}

/// How many bytes texts have.
pub fn length_of(texts: &[&str]) -> usize {
    let mut length = 0usize;
    for text in texts {
        length = length.saturating_add(text.len());
    }
    length
}

/// Whether what was written is exactly these texts.
pub fn are_written(texts: &[&str], written: &[u8]) -> bool {
    written.len() == length_of(texts) && is_front(texts, written)
}

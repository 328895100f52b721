//! What a keeper's history has of each job.
use std::snapshot::Snapshot;
use upload_service::{Answer, Request};

/// One job that was served. Of the request and of the answer only clauses see what they were.
#[derive(Drop)]
pub struct Entry {
    pub seat: usize,
    pub request: Snapshot<Request>,
    pub secret: [u8; 12],
    pub now: u64,
    pub answer: Snapshot<Answer>,
}

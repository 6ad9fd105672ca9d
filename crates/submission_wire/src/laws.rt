//! What requests and submissions owe each other.
ghost use Rattle.submission_wire.specs.Returns.{DocumentsReturn, RequestsAreOne, SubmissionsAreOne};

/// A document without a CR and below 10^17 bytes comes back out of the request that submits it, at any moment and to
/// any base of visible ASCII characters; and what is read of bytes or of a request is one thing at most.
pub fn submissions_return()
    ensures requests { RequestsAreOne }
    ensures submissions { SubmissionsAreOne }
    ensures returned { DocumentsReturn }
{}

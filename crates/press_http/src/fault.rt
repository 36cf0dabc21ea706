ghost use Rattle.std.specs.Prelude.{◌≡◌, IfSome};
ghost use Rattle.press_http.specs.Faults.{http_fault_number, status_of};
ghost use Rattle.press_http.specs.Replies.{IsReplyStatus};
ghost use Rattle.press_http.specs.declared.fault.HttpFault.TheVariants.{NoMemory};

use std::alloc::{AllocError, AllocFailed};
use thiserror::Error;

/// Why a request has no answer of a site, or why no request was read.
#[derive(Clone, Copy, Debug, PartialEq, Eq, Error)]
pub enum HttpFault {
    #[error("no memory")]
    NoMemory,
    #[error("a read failed")]
    ReadFault,
    /// The input ended before the request was whole.
    #[error("the input ended within a request")]
    Ended,
    #[error("a write failed")]
    WriteFault,
    #[error("a bad head")]
    BadHead,
    #[error("a bad form")]
    BadForm,
    #[error("a bad message of a peer")]
    BadPeer,
    #[error("no such path")]
    NotFound,
    #[error("no such method at the path")]
    NotAllowed,
    #[error("a body without its length")]
    NoLength,
    #[error("too long a body")]
    TooBig,
    #[error("too long a head, or too many fields in it")]
    FieldsTooLarge,
    /// Transfer codings of HTTP/1.1 are not supported.
    #[error("not implemented")]
    NotDone,
}

impl HttpFault {
    /// The status of the reply to the fault; None where the connection is closed without a reply.
    pub fn status(self) -> Option<u16>
        ensures value { result ≡ status_of self }
        // It has a fixed reply.
        ensures told { IfSome result IsReplyStatus }
    {
        match self {
            HttpFault::ReadFault | HttpFault::Ended | HttpFault::WriteFault => None,
            HttpFault::BadHead | HttpFault::BadForm | HttpFault::BadPeer => Some(400),
            HttpFault::NotFound => Some(404),
            HttpFault::NotAllowed => Some(405),
            HttpFault::NoLength => Some(411),
            HttpFault::TooBig => Some(413),
            HttpFault::FieldsTooLarge => Some(431),
            HttpFault::NotDone => Some(501),
            HttpFault::NoMemory => Some(503),
        }
    }

    /// The fault's number: that of the program's table if it has one, and else the status.
    pub fn number(self) -> u16
        ensures { result ≡ http_fault_number self }
    {
        match self {
            HttpFault::NoMemory => 0,
            HttpFault::ReadFault => 40,
            HttpFault::Ended => 41,
            HttpFault::WriteFault => 42,
            HttpFault::BadHead | HttpFault::BadForm | HttpFault::BadPeer => 400,
            HttpFault::NotFound => 404,
            HttpFault::NotAllowed => 405,
            HttpFault::NoLength => 411,
            HttpFault::TooBig => 413,
            HttpFault::FieldsTooLarge => 431,
            HttpFault::NotDone => 501,
        }
    }
}

impl From<AllocError> for HttpFault {
    ghost from_gives = { λ _ e. e ≡ NoMemory };

    fn from(_e: AllocError) -> HttpFault {
        HttpFault::NoMemory
    }
}

impl<T: Drop> From<AllocFailed<T>> for HttpFault {
    ghost from_gives = { λ _ e. e ≡ NoMemory };

    fn from(_e: AllocFailed<T>) -> HttpFault {
        HttpFault::NoMemory
    }
}

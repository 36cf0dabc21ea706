use http::Method;
use press_text::{Items, Text};

/// A request, whole.
#[derive(Debug)]
pub struct Request {
    pub method: Method,
    /// The path, with its query.
    pub target: Text,
    /// Empty but for POST.
    pub body: Items<u8>,
}

impl Drop for Request {
    fn drop(self) {
        let Request {
            method: _,
            target: _,
            body: _,
        } = self;
    }
}

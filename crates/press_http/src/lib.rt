//! Requests and replies of HTTP/1.x as bytes, and what a request asks for.
//!
//! A connection has one request, and one reply ends it.
#![tactic(auto)]

mod asked;
mod body;
mod desk;
mod endpoint;
mod fault;
mod fields;
mod form;
mod head;
mod pieces;
mod reading;
mod reply;
mod request;
mod routing;
mod start;
mod status_line;
mod streams;

pub use asked::Asked;
pub use desk::{DeskRequest, DeskRoutes};
pub use endpoint::{Routes, add_route};
pub use fault::HttpFault;
pub use fields::{LONGEST_FORM, posted_length};
pub use form::{first_value, form_command};
pub use head::{LONGEST_HEAD, MOST_FIELDS};
pub use pieces::Pieces;
pub use reading::{read_pieces, read_request};
pub use reply::{write_fault, write_reply};
pub use request::Request;
pub use routing::route;
pub use status_line::{FRONT_LEN, status_of_reply};

//! Tests over the libraries: what no stored file shows, since it takes a closure, a typed value or
//! ten thousand posts.
#![tactic(auto)]

#[cfg(test)]
mod tests;

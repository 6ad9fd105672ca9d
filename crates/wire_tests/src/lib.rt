//! Tests of replies and requests of HTTP, submissions, one exchange and the server.
//! Each public function is called once, and what no contract says is told by examples.
#![tactic(auto)]

#[cfg(test)]
mod http_reply_tests;
#[cfg(test)]
mod http_request_tests;
#[cfg(test)]
mod http_wire_tests;
#[cfg(test)]
mod rosa_box_tests;
#[cfg(test)]
mod submission_wire_tests;
#[cfg(test)]
mod wire_laws_tests;

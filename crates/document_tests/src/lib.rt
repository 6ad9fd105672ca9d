//! Tests of the pieces, documents and nodes of OpenRosa documents.
//! Each public function is called once, and what no contract says is told by examples.
#![tactic(auto)]

#[cfg(test)]
mod rosa_doc_tests;
#[cfg(test)]
mod rosa_nodes_tests;
#[cfg(test)]
mod rosa_pieces_tests;

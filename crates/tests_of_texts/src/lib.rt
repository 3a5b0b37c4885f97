//! Tests of trees and of texts of XML: each public call once, and what no clause says.
#![tactic(auto)]

#[cfg(test)]
mod texts;
#[cfg(test)]
mod tree;

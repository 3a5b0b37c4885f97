//! Tests of what stands over the real system, and of a journal in a real file: each public call once.
#![tactic(auto)]

#[cfg(test)]
mod lives;
#[cfg(test)]
mod system;

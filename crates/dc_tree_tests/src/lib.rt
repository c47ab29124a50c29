//! Tests of the plain tree, walks, stores and plans, for what no clause there says. They have a crate of
//! their own, so that the crates below are proved only once.
#![tactic(auto)]

#[cfg(test)]
mod calls;
#[cfg(test)]
mod ops;
#[cfg(test)]
mod plain;
#[cfg(test)]
mod resolve;
#[cfg(test)]
mod store;

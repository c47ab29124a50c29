//! Tests of the crates of rows, by their public items: the words of a row, which row is used last and
//! which has a key, the events, the shared table and its rows, and the look-ups over it.
#![tactic(auto)]

#[cfg(test)]
mod calls;
#[cfg(test)]
mod event_core;
#[cfg(test)]
mod index;
#[cfg(test)]
mod narrow;
#[cfg(test)]
mod row;
#[cfg(test)]
mod rows;
#[cfg(test)]
mod shrink;
#[cfg(test)]
mod table;
#[cfg(test)]
mod walk;

//! Tests of the cache and its holds, and nothing else. One pass takes steps whose answers come from the rules of
//! POSIX. Threads change one cache, and only one answer can come. Holds answer in numbers.
#![tactic(auto)]

#[cfg(test)]
mod answers;
#[cfg(test)]
mod chains;
#[cfg(test)]
mod entries;
#[cfg(test)]
mod holds;
#[cfg(test)]
mod links;
#[cfg(test)]
mod passes;
#[cfg(test)]
mod races;
#[cfg(test)]
mod steps;
#[cfg(test)]
mod storms;
#[cfg(test)]
mod trails;
#[cfg(test)]
mod trying;
#[cfg(test)]
mod uses;
#[cfg(test)]
mod whereabouts;

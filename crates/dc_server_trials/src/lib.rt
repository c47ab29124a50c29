//! Tests of names and lines, the checker, the server and the soak, and nothing else. Threads change one cache, and the
//! checker judges their answers. Tests of lines alone are files of examples/, and so are those of several sessions
//! at once, whose replies the checker judges.
#![tactic(auto)]

#[cfg(test)]
mod check;
#[cfg(test)]
mod lang;
#[cfg(test)]
mod names;
#[cfg(test)]
mod runs;
#[cfg(test)]
mod serve;
#[cfg(test)]
mod soak;

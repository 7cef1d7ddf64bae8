//! The few tests that are no text cases: of what no run of the program reaches. `FileDisk` is called one call at a time
//! over a file, std's readers and writers fail where a run's don't, and each public call that takes memory and that no
//! run makes is made once, with ample memory, since no clause says that there is any. They stand apart from the crates
//! that they call, so that none of those is proved a second time with its tests. The calls are made in functions
//! without clauses, so that no proof carries what is known of another call.
#![tactic(auto)]

#[cfg(test)]
mod files;
#[cfg(test)]
mod held_files;
#[cfg(test)]
mod histories;
#[cfg(test)]
mod nodes;
#[cfg(test)]
mod streams;
#[cfg(test)]
mod texts;
#[cfg(test)]
mod trees;
#[cfg(test)]
mod worlds;

//! Tests of words, files and sinks, command lines, pipelines, names and schedules, by the public calls of their crates.
#![tactic(auto)]

#[cfg(test)]
mod comparisons;
#[cfg(test)]
mod generations;
#[cfg(test)]
mod given_passes;
#[cfg(test)]
mod invocations;
#[cfg(test)]
mod lines;
#[cfg(test)]
mod lowerings;
#[cfg(test)]
mod memory;
#[cfg(test)]
mod named_files;
#[cfg(test)]
mod names;
#[cfg(test)]
mod pipelines;
#[cfg(test)]
mod real_files;
#[cfg(test)]
mod real_sinks;
#[cfg(test)]
mod regular_words;
#[cfg(test)]
mod schedules;
#[cfg(test)]
mod two_files;
#[cfg(test)]
mod words;

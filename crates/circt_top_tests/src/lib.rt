//! Tests of the whole program, on files and sinks in memory: words, pipelines, faults, limits, generated designs, large arrays, and texts in the
//! AIGER format. Commands of two files are tested in `two_file_tests`. What is printed of each form of text, what `lec` says of two modules, and
//! how designs and their Verilog run is checked by the crate `circt_examples`.
#![tactic(auto)]

#[cfg(test)]
mod aiger_exports;
#[cfg(test)]
mod aiger_imports;
#[cfg(test)]
mod aiger_texts;
#[cfg(test)]
mod cuts;
#[cfg(test)]
mod generation;
#[cfg(test)]
mod groups;
#[cfg(test)]
mod large;
#[cfg(test)]
mod limits;
#[cfg(test)]
mod pass_words;
#[cfg(test)]
mod pieces;
#[cfg(test)]
mod pipelines;
#[cfg(test)]
mod runs;
#[cfg(test)]
mod words;
#[cfg(test)]
mod workers;

//! Tests of schedules that workers share: whole runs, by `run_modules`.
#![tactic(auto)]

#[cfg(test)]
mod runs;

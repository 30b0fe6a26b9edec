//! Tests of agreement, workers, service, settling and runs: what no proof reaches.
#![tactic(auto)]

#[cfg(test)]
mod clerk;
#[cfg(test)]
mod gates;
#[cfg(test)]
mod given;
#[cfg(test)]
mod meddling;
#[cfg(test)]
mod pools;
#[cfg(test)]
mod runs;
#[cfg(test)]
mod schedules;
#[cfg(test)]
mod settling;
#[cfg(test)]
mod steps;
#[cfg(test)]
mod windows;

//! Tests of the core, of its replay, and of the service over a pipe.
#![tactic(auto)]

#[cfg(test)]
mod devices;
#[cfg(test)]
mod events;
#[cfg(test)]
mod growths;
#[cfg(test)]
mod inputs;
#[cfg(test)]
mod rows;
#[cfg(test)]
mod talks;

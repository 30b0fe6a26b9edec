//! Tests of the auditor, of one thread and of several, of the serial run, of certificates for logs and of the crates
//! that they stand on: what no proof reaches, and each public function on its happy path.
#![tactic(auto)]

#[cfg(test)]
mod bundles;
#[cfg(test)]
mod calls;
#[cfg(test)]
mod chains;
#[cfg(test)]
mod decisions;
#[cfg(test)]
mod devices;
#[cfg(test)]
mod faults;
#[cfg(test)]
mod runs;
#[cfg(test)]
mod sections;
#[cfg(test)]
mod sound;
#[cfg(test)]
mod workers;

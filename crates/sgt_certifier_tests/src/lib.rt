//! Tests of what stands from the arena to the certifier: what no proof reaches, and each public function on its happy
//! path.
#![tactic(auto)]

#[cfg(test)]
mod arena;
#[cfg(test)]
mod certifier;
#[cfg(test)]
mod common;
#[cfg(test)]
mod entry_log;
#[cfg(test)]
mod faults;
#[cfg(test)]
mod graph;
#[cfg(test)]
mod judge;
#[cfg(test)]
mod memory;
#[cfg(test)]
mod plain;
#[cfg(test)]
mod random_drafts;
#[cfg(test)]
mod site;
#[cfg(test)]
mod worked_site;

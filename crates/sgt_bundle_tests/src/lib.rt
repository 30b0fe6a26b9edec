//! Tests of names, lines, certificates and bundles: what no proof reaches, and each public function on its happy path.
#![tactic(auto)]

#[cfg(test)]
mod bundles;
#[cfg(test)]
mod certificates;
#[cfg(test)]
mod devices;
#[cfg(test)]
mod events;
#[cfg(test)]
mod fronts;
#[cfg(test)]
mod lines;
#[cfg(test)]
mod names;
#[cfg(test)]
mod readers;
#[cfg(test)]
mod scripts;

//! Tests of `sgt check` and of its rooms: texts, graphs, verdicts, evidence, answers and pictures of histories.
#![tactic(auto)]

#[cfg(test)]
mod answers;
#[cfg(test)]
mod evidence;
#[cfg(test)]
mod graphs;
#[cfg(test)]
mod kept;
#[cfg(test)]
mod kept_answers;
#[cfg(test)]
mod orders;
#[cfg(test)]
mod pictures;
#[cfg(test)]
mod texts;
#[cfg(test)]
mod verdicts;
#[cfg(test)]
mod words;

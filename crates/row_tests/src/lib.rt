//! Tests alone, of whole runs over files and output in memory: tables of words, files, status and text, of commands that read
//! networks, lists and certificates; and runs on hostile words and texts.
#![tactic(auto)]

#[cfg(test)]
mod batches;
#[cfg(test)]
mod bytes;
#[cfg(test)]
mod checks;
#[cfg(test)]
mod counts;
#[cfg(test)]
mod draws;
#[cfg(test)]
mod fronts;
#[cfg(test)]
mod ids;
#[cfg(test)]
mod numbers;
#[cfg(test)]
mod prints;
#[cfg(test)]
mod rows;
#[cfg(test)]
mod running;
#[cfg(test)]
mod solves;
#[cfg(test)]
mod texts;
#[cfg(test)]
mod usages;
#[cfg(test)]
mod whatifs;
#[cfg(test)]
mod words;

//! Examples of the hunk table's calls.
#![tactic(auto)]

#[cfg(test)]
mod counts;
#[cfg(test)]
mod lists;
#[cfg(test)]
mod make;
#[cfg(test)]
mod order;
#[cfg(test)]
mod refusals;
#[cfg(test)]
mod runs;

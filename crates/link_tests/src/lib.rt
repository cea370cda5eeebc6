// Examples of links at their edges, bare and under reserves, each run by the tests.
#![tactic(auto)]

#[cfg(test)]
mod frames;
#[cfg(test)]
mod records;
#[cfg(test)]
mod reserves;
#[cfg(test)]
mod samples;

// Examples of frames, accounts and the text that `tally` prints, each run by the tests. Each file has its own
// sample report: the ticks differ, and one has another party.
#![tactic(auto)]

#[cfg(test)]
mod accounts;
#[cfg(test)]
mod frames;
#[cfg(test)]
mod texts;

// Tests of the channels at their edges.
#![tactic(auto)]

#[cfg(test)]
mod lines;
#[cfg(test)]
mod losses;
#[cfg(test)]
mod relaying;
#[cfg(test)]
mod rings;
#[cfg(test)]
mod stacks;
#[cfg(test)]
mod steps;

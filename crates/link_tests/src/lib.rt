// Tests of the link over rings and over the second set-up.
#![tactic(auto)]

#[cfg(test)]
mod answers;
#[cfg(test)]
mod faults;
#[cfg(test)]
mod makings;
#[cfg(test)]
mod steps;

// Tests of the report at its edges.
#![tactic(auto)]

#[cfg(test)]
mod edges;
#[cfg(test)]
mod forms;
#[cfg(test)]
mod pages;

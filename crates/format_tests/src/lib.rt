// Tests of texts, fields, words, record kinds and captures at their edges.
#![tactic(auto)]

#[cfg(test)]
mod captures;
#[cfg(test)]
mod kinds;
#[cfg(test)]
mod parts;
#[cfg(test)]
mod texts;
#[cfg(test)]
mod words;

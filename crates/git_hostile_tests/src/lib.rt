//! Tests of what the program does where reads, writes or memory are refused, where an input is cut off, and where
//! certificates are wrong. They stand above what they test, so that none of it is proved a second time for them.
#![tactic(auto)]

#[cfg(test)]
mod certificates;
#[cfg(test)]
mod devices;
#[cfg(test)]
mod stops;

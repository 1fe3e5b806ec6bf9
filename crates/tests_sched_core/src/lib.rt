//! The table of events as a program that looks at everything, against the core, which looks at little.
#![tactic(auto)]

#[cfg(test)]
mod both;
#[cfg(test)]
mod dice;
#[cfg(test)]
mod table;
#[cfg(test)]
mod tests;

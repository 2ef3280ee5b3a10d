//! How the libraries are used. Each module is one of the README's snippets, as a test.
#![tactic(auto)]

#[cfg(test)]
mod longest_match;
#[cfg(test)]
mod messages;
#[cfg(test)]
mod transcript;

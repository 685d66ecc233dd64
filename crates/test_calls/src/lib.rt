//! Tests that no row can state: of streams, readers and writers of the standard library that fail, runs over those of few bytes a call, the
//! words of arguments and the whole program; of the libraries' calls, why requests are answered so, how much a manager keeps, automata of very many
//! patterns and the visits that they take; and the examples of the families' pages.
#![tactic(auto)]

#[cfg(test)]
mod arguments;
#[cfg(test)]
mod automata;
#[cfg(test)]
mod calls;
#[cfg(test)]
mod examples;
#[cfg(test)]
mod explain;
#[cfg(test)]
mod fakes;
#[cfg(test)]
mod given;
#[cfg(test)]
mod manager;
#[cfg(test)]
mod program;
#[cfg(test)]
mod runs;
#[cfg(test)]
mod streams;
#[cfg(test)]
mod visits;

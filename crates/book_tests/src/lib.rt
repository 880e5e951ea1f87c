// Tests of the book: every refusal of every call, at its limit from both sides, and which of two comes first.
#![tactic(auto)]

#[cfg(test)]
mod blanking;
#[cfg(test)]
mod ending;
#[cfg(test)]
mod helpers;
#[cfg(test)]
mod reading;
#[cfg(test)]
mod registering;
#[cfg(test)]
mod scheduling;
#[cfg(test)]
mod statements;
#[cfg(test)]
mod terms;
#[cfg(test)]
mod volumes;

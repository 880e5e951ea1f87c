// Tests of issuing: every refusal of an issue, at its limit from both sides, and which of two comes first; what needs an issue before it; and long lists of calls beside a second calculation, one beside a simple count of the sums.
#![tactic(auto)]

#[cfg(test)]
mod closing;
#[cfg(test)]
mod desk;
#[cfg(test)]
mod generator;
#[cfg(test)]
mod ledger;
#[cfg(test)]
mod limits;
#[cfg(test)]
mod lists;
#[cfg(test)]
mod long;
#[cfg(test)]
mod order;
#[cfg(test)]
mod replays;
#[cfg(test)]
mod sent;
#[cfg(test)]
mod spoiled;

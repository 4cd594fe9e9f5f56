//! Tests of fleets: gates that hold a harvester, meetings of threads, refusals, demands, closures at the ends of the price
//! relation, refused memory, many harvesters under a plain slow judge, harvesters that take turns, and the texts of faults.
#![tactic(auto)]

#[cfg(test)]
mod alone;
#[cfg(test)]
mod closures;
#[cfg(test)]
mod held;
#[cfg(test)]
mod judge;
#[cfg(test)]
mod meetings;
#[cfg(test)]
mod memory;
#[cfg(test)]
mod refusals;
#[cfg(test)]
mod stress;
#[cfg(test)]
mod texts;
#[cfg(test)]
mod turns;

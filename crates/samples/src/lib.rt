// Tests of the whole way from texts to rows and lines, on plans that were worked out by hand.
#![tactic(auto)]

#[cfg(test)]
mod calls;
#[cfg(test)]
mod drawing;
#[cfg(test)]
mod orders;
#[cfg(test)]
mod plans;
#[cfg(test)]
mod sizes;
#[cfg(test)]
mod turning_away;

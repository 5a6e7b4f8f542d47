// What the reference finds in plans that were worked out by hand.
#![tactic(auto)]

#[cfg(test)]
mod tests;

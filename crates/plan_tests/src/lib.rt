// What the reader of gateway tables answers to texts, good and faulty.
#![tactic(auto)]

#[cfg(test)]
mod tests;

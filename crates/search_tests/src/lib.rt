// What the searches answer of small plans, sound and unsound.
#![tactic(auto)]

#[cfg(test)]
mod tests;

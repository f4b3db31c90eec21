//! What no case file reaches. There is a module of `tests` for each crate or type below, named `of_` and its name.
#![tactic(auto)]

#[cfg(test)]
mod tests;

//! Tests of phases that make up a program: whole programs that are put together from parts.
#![tactic(auto)]

#[cfg(test)]
mod joined;

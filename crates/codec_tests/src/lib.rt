// Tests of the byte formats on examples, at their edges and on damaged input.
#![tactic(auto)]

#[cfg(test)]
mod journals;
#[cfg(test)]
mod requests;

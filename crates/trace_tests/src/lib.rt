// Tests of the trace library on examples, apart from it, so that the library is not proved again for them.

#![tactic(auto)]

#[cfg(test)]
mod tests;

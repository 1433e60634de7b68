// Tests of traces as text on examples, apart from the library, so that it is not proved again for them.

#![tactic(auto)]

#[cfg(test)]
mod tests;

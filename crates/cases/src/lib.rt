// Worked cases: numbers that a reader can check by hand, over the definitions that the contracts of the crates below cite.

#![tactic(auto)]

ghost use Rattle.std.specs.Prelude.{◌≡◌, true};
ghost use Rattle.cases.specs.Worked.{WorkedCases};

// The worked cases hold.
pub fn worked_cases_hold() -> bool
    ensures answer { result ≡ true }
    ensures cases { WorkedCases }
{
    true
}

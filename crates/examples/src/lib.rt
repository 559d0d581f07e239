// Examples that are proved from the definitions.

#![tactic(auto)]

ghost use Rattle.std.specs.Prelude.{◌≡◌};
ghost use Rattle.examples.specs.Examples.{Examples};

// How many examples there are; its contract holds them all.
pub fn examples() -> usize
    ensures hold { Examples }
    ensures count { result ≡ 13 }
{
    13
}

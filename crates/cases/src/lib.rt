// The worked cases, proved of the books' definitions.
#![tactic(auto)]

ghost use Rattle.std.specs.Prelude.{◌≡◌, length};
ghost use Rattle.std.specs.List.{AllByRecursion};
ghost use Rattle.cases.specs.Change.{Right};
ghost use Rattle.cases.specs.Worked.{worked};

// How many worked changes there are. Each answers the amounts expected of it.
#[tactic(auto, using(crate::proofs::Computed::right))]
pub fn worked_changes() -> usize
    ensures value { result ≡ length worked }
    ensures right { AllByRecursion Right worked }
{
    18
}

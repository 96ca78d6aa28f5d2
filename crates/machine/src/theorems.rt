// What is proved of the copying machine itself.
ghost use Rattle.std.specs.Prelude.{◌≡◌, length};
ghost use Rattle.machine.specs.Examples.{examples, ExamplesHold};
ghost use Rattle.machine.specs.Laws.{RefusalsKeep, SourcesKept, MarksNew};

// How many worked examples the machine is held to: each holds.
#[tactic(auto, using(crate::proofs::Examples::examples_hold), unfolding(crate::specs::Examples::examples))]
pub fn worked_examples() -> usize
    ensures hold { ExamplesHold }
    ensures all { result ≡ length examples }
{
    9
}

// How many laws the machine keeps: each is a clause.
#[tactic(auto, using(crate::proofs::Laws::refusals_keep, crate::proofs::Laws::sources_kept, crate::proofs::Laws::marks_new))]
pub fn machine_laws() -> usize
    ensures refusals { RefusalsKeep }
    ensures sources { SourcesKept }
    ensures marks { MarksNew }
    ensures all { result ≡ 3 }
{
    3
}

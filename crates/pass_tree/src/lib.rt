// The work of a node of the tree.
#![tactic(auto)]

ghost use Rattle.std.specs.Prelude.{◌≡◌, [], ◌+◌, ◌^◌, ◌<◌};
ghost use Rattle.pass_tree.specs.Node.{work_of, plus_work};
ghost use Rattle.pass_tree.specs.Clauses.{counted};

// What a part of a pass did.
#[derive(Clone, Copy)]
pub struct Work {
    // one for each value computed
    pub steps: u32,
}

impl Work {
    // Nothing.
    pub fn none() -> Work
        ensures { result ≡ work_of [] }
    {
        Work { steps: 0 }
    }

    // So many values computed.
    pub fn of(steps: u32) -> Work
        ensures { result ≡ counted steps }
    {
        Work { steps }
    }

    // All that two parts did.
    pub fn plus(self, other: Work) -> Work
        requires { self.steps + other.steps < 2 ^ 32 }
        ensures { result ≡ plus_work self other }
    {
        Work {
            steps: self.steps + other.steps,
        }
    }
}

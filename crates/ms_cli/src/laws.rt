// Laws of jobs. Each is the contract of a function that does nothing.
ghost use Rattle.std.specs.Prelude.{◌≡◌, List, ℕ, Option};
ghost use Rattle.ms_cli.specs.Job.{Job, IsJob, IsTold};

/// Where the files tell what the named file holds, a run has one job at most.
pub fn one_job()
    ensures { (holds : List ℕ → Option (List ℕ)) (words : List (List ℕ)) (a b : Job) → IsTold holds words → IsJob holds words a → IsJob holds words b → a ≡ b }
{
    ms_output::laws::one_output();
}

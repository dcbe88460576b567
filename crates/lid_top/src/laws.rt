//! What follows from the definitions of scripts. Each function here does nothing; its contract is a law.

ghost use Rattle.std.specs.Prelude.{◌≡◌, ℕ, List, Option};
ghost use Rattle.lid_top_words.specs.declared.job.Job.{Job};
ghost use Rattle.lid_top_script.specs.Scripts.{Ending, EndsIn, script_of};
ghost use Rattle.lid_top_script.specs.Statuses.{TellsAll};
ghost use Rattle.lid_top.specs.Verified.{RatesAreVerified};

/// Where the shelf tells all files that a job reaches, the job ends in one way. So which status comes,
/// and which refusal is told, is a function of what the files hold, but for want of memory.
pub fn a_told_job_ends_in_one_way()
    ensures { (held : List ℕ → Option (List ℕ)) (job : Job) (x y : Ending) → TellsAll held (script_of job) → EndsIn held (script_of job) x
        → EndsIn held (script_of job) y → x ≡ y }
{}

/// What `rate` prints is verified: where a file holds such a text, `verify` of that file, with the same
/// netlist, root and stations, may end in telling what it shows. Where the shelf tells all files, it
/// ends in no other way, but for want of memory.
pub fn rates_are_verified()
    ensures { RatesAreVerified }
{}

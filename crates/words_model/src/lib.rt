//! What the words of the command line mean. Nothing here computes for a program. Each function is a law, which its contract
//! states.
#![tactic(auto)]

ghost use Rattle.words_model.specs.Laws.{HasJobOrNone, HasOneJob, JobsAreFitted, PartsChangePlaces, SpellingsAgree, UsageNamesJobs};

/// Words ask for a job or for none.
pub fn job_or_none()
    ensures { HasJobOrNone }
{}

/// Words ask for one job at most.
pub fn one_job()
    ensures { HasOneJob }
{}

/// A job that words ask for has what its task needs.
pub fn jobs_are_fitted()
    ensures { JobsAreFitted }
{}

/// The line of the usage names the jobs of the table.
pub fn usage_names_jobs()
    ensures { UsageNamesJobs }
{}

/// An option's value may stand in its word or in the next, where that does not begin with a hyphen.
pub fn spellings_agree()
    ensures { SpellingsAgree }
{}

/// Options and JOB may stand in any order.
pub fn parts_change_places()
    ensures { PartsChangePlaces }
{}

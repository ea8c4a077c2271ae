ghost use Rattle.std.specs.Prelude.{◌≡◌, IfOk};
ghost use Rattle.ira_pred.specs.Clause.{formula};
ghost use Rattle.ira_cand.specs.Candidates.{AreCandidates};

use ira_cand::{Profile, table};
use ira_event::{NodeLog, OutOfMemory};
use ira_pred::Clause;
use std::alloc::Allocator;
use std::marker::Model;

/// How a log is searched.
#[derive(Drop)]
enum Form<'a, A: Allocator> {
    Profiled(Profile<'a, A>),
    Whole(&'a NodeLog<A>),
}

/// A log in which candidates are searched for: by its profile, which is worth its price where some are, or event by event.
/// Contracts see the log.
#[derive(Drop)]
pub(crate) struct SearchedLog<'a, A: Allocator> {
    form: Form<'a, A>,
}

impl<'a, A: Allocator> Model for SearchedLog<'a, A> {
    ghost use Rattle.ira_event.specs.Log.{Log};
    ghost use Rattle.ira_cert.specs.SearchedLog.{log_in};

    ghost Value = { Log };

    ghost view = { λ s. log_in s.form };
}

impl<'a, A: Allocator + Clone> SearchedLog<'a, A> {
    /// The log, whose profile is found.
    pub(crate) fn profiled(alloc: A, log: &'a NodeLog<A>) -> Result<SearchedLog<'a, A>, OutOfMemory>
        ensures { IfOk result (λ searched. searched ≡ log.now) }
    {
        Ok(SearchedLog {
            form: Form::Profiled(Profile::new(alloc, log)?),
        })
    }

    /// The log as it is.
    pub(crate) fn whole(log: &'a NodeLog<A>) -> SearchedLog<'a, A>
        ensures { result ≡ log.now }
    {
        SearchedLog {
            form: Form::Whole(log),
        }
    }

    /// The candidates of the log for a clause, as a list.
    pub(crate) fn table(&self, alloc: A, clause: &Clause<A>) -> Result<Vec<u32, A>, OutOfMemory>
        ensures { IfOk result (λ v. AreCandidates self.now (formula clause.now) v.items) }
    {
        match &self.form {
            Form::Profiled(profile) => profile.table(alloc, clause),
            Form::Whole(log) => table(alloc, log, clause),
        }
    }
}

//! Accesses that only clauses read.
ghost use Rattle.std.specs.Prelude.{◌≡◌, List, [], ◌++◌};
ghost use Rattle.std.specs.Borrow.{ftrue};
ghost use Rattle.ob_base.specs.declared.access.Access.{Access};
ghost use Rattle.ob_store.specs.Logs.{spelt};

use crate::runs::Runs;
use std::marker::Model;

/// What a log has let go of. It takes no memory, and its functions do nothing at run time.
#[derive(Drop)]
pub(crate) struct Past {
    pub ghost accesses: { List Access },
}

impl Model for Past {
    ghost also_owns = { λ _. ftrue };
}

impl Past {
    pub(crate) fn new() -> Past
        ensures { result.accesses ≡ [] }
    {
        Past {}
    }

    pub(crate) fn joined(_before: &Past, _runs: &Runs) -> Past
        ensures { result.accesses ≡ _before.now.accesses ++ spelt _runs.now.runs }
    {
        Past {}
    }
}

//! Where an expression stands.

ghost use Rattle.std.specs.Prelude.{◌≡◌};
ghost use Rattle.pv_ast.specs.Rules.Typing as typing;
ghost use Rattle.pv_ast.specs.Rules.Statements.{in_statement as in_statement_of};
ghost use Rattle.pv_types.specs.Environments.{environment_of};
ghost use Rattle.pv_types.specs.Sites.{around};

use crate::environment::Environment;
use crate::standing::{in_statement, purely};
use pv_ast::Context;

/// Where an expression stands: what stands around it, and what may stand there.
#[derive(Clone, Copy, Drop)]
pub(crate) struct Site<'a> {
    pub environment: &'a Environment<'a>,
    pub context: Context,
}

impl<'a> Site<'a> {
    /// An expression of a statement.
    pub(crate) fn in_statement(environment: &'a Environment<'a>) -> Site<'a>
        ensures around { around result ≡ environment_of environment.now }
        ensures context { result.context ≡ in_statement_of }
    {
        Site {
            environment,
            context: in_statement(),
        }
    }

    /// The same surroundings, where other things may stand.
    pub(crate) fn with_context(self, context: Context) -> Site<'a>
        ensures around { around result ≡ around self.entry }
        ensures context { result.context ≡ context }
    {
        Site {
            environment: self.environment,
            context,
        }
    }

    /// The same surroundings, where a truth value is needed.
    pub(crate) fn purely(self) -> Site<'a>
        ensures around { around result ≡ around self.entry }
        ensures context { result.context ≡ typing.purely self.entry.context }
    {
        self.with_context(purely(self.context))
    }
}

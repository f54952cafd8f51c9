//! What comes next, in short words.

ghost use Rattle.std.specs.Prelude.{◌≡◌};
ghost use Rattle.es_eval.specs.declared.outcomes.Outcome.TheVariants.{Stopped};
ghost use Rattle.es_eval.specs.declared.works.Given.TheVariants.{Value as GivenValue};
ghost use Rattle.es_eval.specs.declared.works.Now.TheVariants.{Gives, Over};

use crate::outcomes::{Outcome, StopCause};
use crate::works::{Given, Now};
use es_values::Value;

/// A value is given.
pub fn value(value: Value) -> Now
    ensures { result ≡ Gives (GivenValue value) }
{
    Now::Gives(Given::Value(value))
}

/// The script is stopped.
pub fn stopped(cause: StopCause) -> Now
    ensures { result ≡ Over (Stopped cause) }
{
    Now::Over(Outcome::Stopped(cause))
}

// The clock in code: which slots of a horizon count for arrivals. flows/specs/Clock has the definition.
#![tactic(auto)]

ghost use Rattle.std.specs.Prelude.{◌≡◌};
ghost use Rattle.flows.specs.Clock as clock_model;
ghost use Rattle.flows.specs.Span as span_model;

// How many slots of a horizon count.
pub fn counting(horizon: u32) -> u32
    ensures { result ≡ clock_model.counting horizon }
{
    horizon
}

// The horizon of which as many slots count.
pub fn spanning(slots: u32) -> u32
    ensures { result ≡ span_model.spanning slots }
{
    slots
}

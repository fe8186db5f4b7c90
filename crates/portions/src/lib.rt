// How much of what is owed is sent over a route: so many departures at its rate, then the last blocks.
#![tactic(auto)]

ghost use Rattle.std.specs.Prelude.{◌≡◌, ◌-◌, ◌<◌};
ghost use Rattle.portions.specs.Portions.{Apportioned};

// What is sent over a route: so many departures at its rate from slot 0 on, and in the slot after them the last blocks; and what is
// owed still.
#[derive(Clone, Copy)]
pub struct Portion {
    pub departures: u32,
    pub last: u32,
    pub owed: u32,
}

// What is owed: all that the slots hold, or all of it.
fn spread(slots: u32, rate: u32, owed: u32) -> Portion
    requires { 0 < rate }
    ensures { Apportioned slots rate owed result }
{
    let departures = owed / rate;
    if slots <= departures {
        return Portion {
            departures: slots,
            last: 0,
            owed: owed - slots * rate,
        };
    }
    Portion {
        departures,
        last: owed % rate,
        owed: 0,
    }
}

// What is owed, over a route of this length, where as many slots count: a block may depart while it still arrives within them.
pub fn apportion(slots: u32, length: u32, rate: u32, owed: u32) -> Portion
    requires { 0 < rate }
    ensures { Apportioned (slots - length) rate owed result }
{
    spread(slots.saturating_sub(length), rate, owed)
}

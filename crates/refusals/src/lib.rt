// The refusals of the C interface, each by a name, and the one number that it has there.
#![tactic(auto)]

ghost use Rattle.std.specs.Prelude.{◌≡◌};
ghost use Rattle.refusals.specs.Numbers.{number_of};

// Why a call is refused. Of one number of a record the endless form is tested first, then its end, its form, its limits.
#[derive(Clone, Copy, Debug, PartialEq, Eq)]
pub enum Refusal {
    // The network's record, number by number: it ends before a number's last octet.
    NetworkEnds,
    // A number is not in shortest form.
    NetworkNotShortest,
    // A fourth octet has its top bit set.
    NetworkContinues,
    // A number is outside its limits.
    NetworkLimits,
    // The destination is the origin.
    SameEnds,
    // A link ends where it starts.
    LinkLoop,
    // Octets remain after the last number.
    NetworkRemains,
    // What else a call hands over: the buffer is shorter than the record.
    BufferShort,
    // The horizon is above the longest.
    HorizonLimits,
    // Fewer numbers are lent for the cut than there are places.
    CutShort,
    // The amount is 0 or above the most.
    AmountLimits,
    // No chain of links with capacity leads from the origin to the archive.
    NoChain,
    // The plan's buffer is too short.
    PlanBufferShort,
    // The plan's record, number by number: it ends before a number's last octet, or before its copy of the network does.
    PlanEnds,
    // A number is not in shortest form.
    PlanNotShortest,
    // A fourth octet has its top bit set.
    PlanContinues,
    // A number is outside its limits.
    PlanLimits,
    // Octets remain after the last row.
    PlanRemains,
    // The link log, entry by entry: one is cut short, misspelled or out of limits, or one too many.
    LogEntry,
    // A stamp's distance from the one before is too long.
    LogDistance,
    // An entry's slot is too late.
    LogSlot,
    // The copy at the plan's front is not the given network.
    AnotherNetwork,
}

impl Refusal {
    // The number that C has for it. A method, and no From: the promise is an equation with the table that C's promises cite.
    pub fn number(self) -> u32
        ensures { result ≡ number_of self }
    {
        match self {
            Refusal::NetworkEnds => 1,
            Refusal::NetworkNotShortest => 2,
            Refusal::NetworkContinues => 3,
            Refusal::NetworkLimits => 4,
            Refusal::SameEnds => 5,
            Refusal::LinkLoop => 6,
            Refusal::NetworkRemains => 7,
            Refusal::BufferShort => 8,
            Refusal::HorizonLimits => 9,
            Refusal::CutShort => 10,
            Refusal::AmountLimits => 11,
            Refusal::NoChain => 12,
            Refusal::PlanBufferShort => 13,
            Refusal::PlanEnds => 14,
            Refusal::PlanNotShortest => 15,
            Refusal::PlanContinues => 16,
            Refusal::PlanLimits => 17,
            Refusal::PlanRemains => 18,
            Refusal::LogEntry => 20,
            Refusal::LogDistance => 21,
            Refusal::LogSlot => 22,
            Refusal::AnotherNetwork => 23,
        }
    }
}

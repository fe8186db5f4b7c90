// Refuses a network's numbers that no record may have.
#![tactic(auto)]

ghost use Rattle.std.specs.Prelude.{◌≡◌, ◌≤◌};
ghost use Rattle.network.specs.Held.{model_of};
ghost use Rattle.network_check.specs.Check.{fine, limit, link_refusal, links_refusal, network_refusal};

use flows::Link;
use limits::{FEWEST_LINKS, FEWEST_PLACES, MOST_CAPACITY, MOST_LINKS, MOST_PLACES, MOST_TRANSIT};
use network::Network;
use refusals::Refusal;

// Refuses a number that is not from low to high: two numbers, as in the definitions, and no RangeInclusive, which would be taken apart again.
fn limit(low: u32, high: u32, n: u32) -> Result<(), Refusal>
    ensures { result ≡ limit low high n fine }
{
    if n < low || high < n {
        return Err(Refusal::NetworkLimits);
    }
    Ok(())
}

// Refuses one link, or not.
fn check_link(places: u32, link: Link) -> Result<(), Refusal>
    requires { 1 ≤ places }
    ensures { result ≡ link_refusal places link fine }
{
    limit(0, places - 1, link.start)?;
    limit(0, places - 1, link.end)?;
    if link.start == link.end {
        return Err(Refusal::LinkLoop);
    }
    limit(0, MOST_CAPACITY, link.capacity)?;
    limit(0, MOST_TRANSIT, link.transit)
}

// Refuses the first link that has to be refused, if there is one.
fn check_links(places: u32, links: &[Link]) -> Result<(), Refusal>
    requires { 1 ≤ places }
    ensures { result ≡ links_refusal places links.now }
{
    for link in links {
        check_link(places, *link)?;
    }
    Ok(())
}

// Refuses a network's numbers, tested in record order.
pub fn check(network: &Network) -> Result<(), Refusal>
    ensures { result ≡ network_refusal (model_of network.now) }
{
    let places = network.places;
    limit(FEWEST_PLACES, MOST_PLACES, places)?;
    limit(0, places - 1, network.origin)?;
    limit(0, places - 1, network.destination)?;
    if network.destination == network.origin {
        return Err(Refusal::SameEnds);
    }
    limit(FEWEST_LINKS, MOST_LINKS, network.count)?;
    check_links(places, network.links())
}

// A network as a struct, and its links as a slice.
#![tactic(auto)]

ghost use Rattle.std.specs.Prelude.{◌≡◌, ◌≤◌};
ghost use Rattle.limits.specs.Limits.{most_links};
ghost use Rattle.network.specs.Held.{links_below};

use flows::Link;

// Number fields hold any u32: the writer refuses those outside the limits. An array of links with their count, since nothing allocates; those
// past the count are zeros when read, and not looked at when written.
#[derive(Clone, Copy)]
pub struct Network {
    pub places: u32,
    pub origin: u32,
    pub destination: u32,
    pub count: u32,
    pub links: [Link; 256],
}

impl Network {
    // The links that count. `as`: usize has no From<u32>.
    pub fn links(&self) -> &[Link]
        requires { self.now.count ≤ most_links }
        ensures { result.now ≡ links_below self.now self.now.count }
    {
        &self.links[..self.count as usize]
    }
}

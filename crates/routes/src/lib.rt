// Routes: simple paths from the origin to the destination over links with capacity.
#![tactic(auto)]

ghost use Rattle.std.specs.Prelude.{◌≡◌, ◌≤◌, length};
ghost use Rattle.limits.specs.Limits.{most_row_links};

mod finding;

pub use finding::find;

// The links of a path, in order from the origin: an array with a count, since nothing allocates; `links` lends them as a slice.
#[derive(Clone, Copy)]
pub struct Route {
    pub links: [u8; 63],
    pub count: u32,
    pub ghost size: { length links ≡ most_row_links },
    pub ghost short: { count ≤ most_row_links },
}

impl Route {
    ghost use Rattle.routes.specs.Route.{links_of};

    // A route's links.
    pub fn links(&self) -> &[u8]
        ensures { result.now ≡ links_of self.now }
    {
        // `as`: usize has no From<u32>.
        &self.links[..self.count as usize]
    }
}

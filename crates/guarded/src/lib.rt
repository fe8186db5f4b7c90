// Numbers of which nothing is proved, made safe where they are used: brought into the range of an array. `as` in all three: usize has no
// From<u32>.
#![tactic(auto)]

ghost use Rattle.std.specs.Prelude.{◌<◌};

// A place's number, as an index. A generic one of this and the next would be no shorter: each is one remainder.
pub fn place(v: u32) -> usize
    ensures { result < 64 }
{
    (v % 64) as usize
}

// A link's number, as an index.
pub fn link(e: u32) -> usize
    ensures { result < 256 }
{
    (e % 256) as usize
}

// An arc's number, as an index: of the links' arcs and one more.
pub fn arc(a: u32) -> usize
    ensures { result < 257 }
{
    if a < 257 { a as usize } else { 0 }
}

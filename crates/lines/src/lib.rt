// Numbers after a space, and lines that end with one. Each function puts a text to the front of a lent part and answers its length; octets
// after it stay.
// Each part is lent from where it is written on: its clause names the text that has to fit.
#![tactic(auto)]

ghost use Rattle.std.specs.Prelude.{◌≡◌, ◌≤◌, ℕ, length, map};
ghost use Rattle.texts.specs.Put.{Put, spaced, all_spaced, ending};

// What is printed in decimal. A trait of its own: From's law is a relation, and put_numbers' promise needs the value.
pub trait Number: Copy {
    ghost value: { Self → ℕ };

    fn number(self) -> u64
        ensures { result ≡ value self };
}

impl Number for u8 {
    ghost value = { λ n. n };

    fn number(self) -> u64 {
        u64::from(self)
    }
}

impl Number for u32 {
    ghost value = { λ n. n };

    fn number(self) -> u64 {
        u64::from(self)
    }
}

// A number after a space.
pub fn put_spaced(part: &mut [u8], n: u64) -> usize
    requires { length (spaced n) ≤ length part.old }
    ensures { Put (spaced n) part.old part.new result }
{
    decimals::put_named(part, b" ", n)
}

// Numbers, each after a space.
pub fn put_numbers<T: Number>(part: &mut [u8], numbers: &[T]) -> usize
    requires { length (all_spaced (map T.value numbers.now)) ≤ length part.old }
    ensures { Put (all_spaced (map T.value numbers.now)) part.old part.new result }
{
    let mut at = 0;
    for n in numbers {
        at += put_spaced(&mut part[at..], n.number());
    }
    at
}

// A word, the number after it, and the line's end.
pub fn put_line(part: &mut [u8], word: &[u8], n: u64) -> usize
    requires { length (ending word.now n) ≤ length part.old }
    ensures { Put (ending word.now n) part.old part.new result }
{
    let at = decimals::put_named(part, word, n);
    at + words::put_word(&mut part[at..], b"\n")
}

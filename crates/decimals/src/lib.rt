// Numbers as decimal digits. Each function puts a text to the front of a lent part and answers its length; octets after it stay.
// Each part is lent from where it is written on: its clause names the text that has to fit.
// No Display and no write!: what the lent octets hold afterwards is promised.
#![tactic(auto)]

ghost use Rattle.std.specs.Prelude.{◌++◌, ◌≤◌, ◌<◌, length};
ghost use Rattle.texts.specs.Decimal.{decimal};
ghost use Rattle.texts.specs.Triples.{triple};
ghost use Rattle.texts.specs.Put.{Put};

// The digits of a number below 1,000: all three, or those of a number's first triple, which has no leading zeros.
// `as`: 48 and a digit fits u8, below 256.
fn put_triple(part: &mut [u8], n: u64, first: bool) -> usize
    requires triple { n < 1000 }
    requires room { length (triple first n) ≤ length part.old }
    ensures { Put (triple first n) part.old part.new result }
{
    let packed = digits::packed(n);
    if first {
        if n < 10 {
            part[0] = (48 + packed % 16) as u8;
            return 1;
        }
        if n < 100 {
            part[0] = (48 + packed / 16 % 16) as u8;
            part[1] = (48 + packed % 16) as u8;
            return 2;
        }
    }
    part[0] = (48 + packed / 256 % 16) as u8;
    part[1] = (48 + packed / 16 % 16) as u8;
    part[2] = (48 + packed % 16) as u8;
    3
}

// A number's decimal digits, in triples from its end: those before the last, then the last.
fn put_decimal(part: &mut [u8], n: u64) -> usize
    requires { length (decimal n) ≤ length part.old }
    ensures { Put (decimal n) part.old part.new result }
{
    if n < 1000 {
        return put_triple(part, n, true);
    }
    let at = put_decimal(part, n / 1000);
    at + put_triple(&mut part[at..], n % 1000, false)
}

// A word and the number after it.
pub fn put_named(part: &mut [u8], word: &[u8], n: u64) -> usize
    requires { length (word.now ++ decimal n) ≤ length part.old }
    ensures { Put (word.now ++ decimal n) part.old part.new result }
{
    let at = words::put_word(part, word);
    at + put_decimal(&mut part[at..], n)
}

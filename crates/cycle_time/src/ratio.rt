ghost use Rattle.std.specs.Int.{IsGcd};

/// The ratio of a circuit's time to its tokens, in lowest terms.
#[derive(Drop)]
pub struct Ratio {
    pub time: u64,
    pub cards: u64,
    pub circuit: Vec<u32>,
}

/// The greatest common divisor.
pub fn gcd(first: u64, second: u64) -> u64
    ensures { IsGcd first second result }
{
    let mut greater = first;
    let mut less = second;
    while less != 0 {
        let rest = greater % less;
        greater = less;
        less = rest;
    }
    greater
}

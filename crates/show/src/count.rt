// How many there are of a thing, with its name for one and for many.
use std::fmt;

#[derive(Clone, Copy)]
pub struct Count {
    number: u64,
    one: &'static str,
    many: &'static str,
}

impl Count {
    pub fn new(number: u64, one: &'static str, many: &'static str) -> Count {
        Count { number, one, many }
    }
}

pub fn bytes(number: u64) -> Count {
    Count::new(number, "byte", "bytes")
}

pub fn vertices(number: u64) -> Count {
    Count::new(number, "vertex", "vertices")
}

impl fmt::Display for Count {
    fn fmt<W: fmt::Write>(&self, f: &mut fmt::Formatter<W>) -> fmt::Result {
        let number = self.number;
        let name = if number == 1 { self.one } else { self.many };
        write!(f, "{number} {name}")
    }
}

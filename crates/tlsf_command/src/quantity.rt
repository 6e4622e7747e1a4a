use std::fmt;

/// A number of things, as a text counts them: `1 block`, `2 blocks`.
#[derive(Clone, Copy)]
pub struct Quantity {
    count: usize,
    name: &'static str,
}

impl Quantity {
    ghost use Rattle.std.specs.Prelude.{◌≡◌};

    /// This many of the things that `name` says.
    pub fn new(count: usize, name: &'static str) -> Quantity
        ensures count { result.count ≡ count }
        ensures name { result.name ≡ name.entry }
    {
        Quantity { count, name }
    }
}

impl fmt::Display for Quantity {
    ghost use Rattle.std.specs.Prelude.{Some};
    ghost use Rattle.tlsf_command.specs.SizeLines.{quantity};

    ghost output = { λ it. Some (quantity it.count it.name.now) };

    fn fmt<W: fmt::Write>(&self, f: &mut fmt::Formatter<W>) -> fmt::Result {
        let count = self.count;
        let name = self.name;
        if count == 1 {
            write!(f, "{count} {name}")
        } else {
            write!(f, "{count} {name}s")
        }
    }
}

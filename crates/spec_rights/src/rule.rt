// The rules of permission by name.
ghost use Rattle.std.specs.Prelude.{◌≡◌};
ghost use Rattle.spec_rights.specs.inner.Numbers.{number_of, denial};

use muck_model::{Dbref, Denial};

/// A rule of permission. They are tried in this order, and the first that denies is the denial.
#[derive(Clone, Copy, Debug, PartialEq, Eq)]
pub enum Rule {
    P1,
    P2,
    P3,
    P4,
    P5,
    P6,
    P7,
    P8,
    P9,
    P10,
    P11,
    P12,
    P13,
    P14,
    P15,
    P16,
    P17,
    P18,
    P19,
    P20,
    P21,
    P22,
    P23,
    P24,
}

impl Rule {
    // The number of a rule.
    fn number(self) -> u8
        ensures { result ≡ number_of self }
    {
        match self {
            Rule::P1 => 1,
            Rule::P2 => 2,
            Rule::P3 => 3,
            Rule::P4 => 4,
            Rule::P5 => 5,
            Rule::P6 => 6,
            Rule::P7 => 7,
            Rule::P8 => 8,
            Rule::P9 => 9,
            Rule::P10 => 10,
            Rule::P11 => 11,
            Rule::P12 => 12,
            Rule::P13 => 13,
            Rule::P14 => 14,
            Rule::P15 => 15,
            Rule::P16 => 16,
            Rule::P17 => 17,
            Rule::P18 => 18,
            Rule::P19 => 19,
            Rule::P20 => 20,
            Rule::P21 => 21,
            Rule::P22 => 22,
            Rule::P23 => 23,
            Rule::P24 => 24,
        }
    }

    /// The denial by this rule, which speaks of the object.
    pub fn denies(self, object: Dbref) -> Denial
        ensures { result ≡ denial self object }
    {
        Denial {
            rule: self.number(),
            object,
        }
    }
}

// Numbers of two words compare by their values. A derived comparison would be promised by the words.
ghost use Rattle.std.specs.Prelude.{◌==◌};
ghost use Rattle.std.specs.Cmp.{partial_equiv_from_equiv, partial_order_from_own_ties};
ghost use Rattle.std.specs.Cmp.Rules.{comparing};
ghost use Rattle.std.specs.Ordering.{nat_cmp, on, as_partial_cmp};
ghost use Rattle.std.proofs.Common.{rules};
ghost use Rattle.wide.specs.Value.{value, Compared};

use crate::wide::Wide;
use std::cmp::Ordering;

/// How two numbers compare: by their high words, and then by their low ones. They are taken by
/// value, since a field behind a reference is not known to be a word.
fn compare(a: Wide, b: Wide) -> Ordering
    ensures { Compared a b result }
{
    (a.high, a.low).cmp(&(b.high, b.low))
}

impl PartialEq for Wide {
    ghost eq = { on value ◌==◌ };

    ghost laws = { partial_equiv_from_equiv (Prim.search (comparing, rules)) };

    fn eq(&self, other: &Wide) -> bool {
        self.cmp(other).is_eq()
    }
}

impl Eq for Wide {
    ghost laws = { Prim.search (comparing, rules) };
}

impl PartialOrd for Wide {
    ghost partial_cmp = { as_partial_cmp (on value nat_cmp) };

    ghost laws = { partial_order_from_own_ties (Prim.search (comparing, rules)) (Prim.search (comparing, rules)) };

    fn partial_cmp(&self, other: &Wide) -> Option<Ordering> {
        Some(self.cmp(other))
    }
}

impl Ord for Wide {
    ghost cmp = { on value nat_cmp };

    ghost total = { Prim.search (comparing, rules) };

    ghost matches_partial_cmp = { Prim.search (comparing, rules) };

    ghost matches_eq = { Prim.search (comparing, rules) };

    fn cmp(&self, other: &Wide) -> Ordering {
        compare(*self, *other)
    }
}

// Where two tables of profiles differ first: the first hart, and then the lowest address, whose availability differs.
#![tactic(auto)]

ghost use Rattle.differences.specs.Difference.{FirstDifference};

use harts::Table;

// A place where two tables differ.
#[derive(Clone, Copy)]
pub struct Difference {
    pub hart: usize,
    pub csr: usize,
}

// The first hart, then lowest address, where availability differs; None where it differs nowhere.
pub fn first_difference(a: Table, b: Table) -> Option<Difference>
    ensures { FirstDifference a b result }
{
    // The loops count what is answered, a hart and an address
    let mut found = None;
    'search: for hart in 0usize..8 {
        let p = a.profiles[hart];
        let q = b.profiles[hart];
        for csr in 0usize..4096 {
            if csrs::is_available(p, csr) != csrs::is_available(q, csr) {
                found = Some(Difference { hart, csr });
                break 'search;
            }
        }
    }
    found
}

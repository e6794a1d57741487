// A 16-bit number as a set of parties: bit i - 1 stands for party i.
// A party is a number and no type of its own: it comes out of records and cells, and a type would be made at each call and taken apart in each contract.
#![tactic(auto)]

ghost use Rattle.std.specs.Prelude.{◌≡◌, ◌≤◌};
ghost use Rattle.masks.specs.Mask.{has, with, without, put, all, has_all, count};

// Whether the party is in the mask.
pub fn has(mask: u16, party: u16) -> bool
    requires { (1 ≤ party) × (party ≤ 16) }
    ensures { result ≡ has mask party }
{
    (mask >> (party - 1)) % 2 == 1
}

// The mask with the party in it.
pub fn with(mask: u16, party: u16) -> u16
    requires { (1 ≤ party) × (party ≤ 16) }
    ensures { result ≡ with mask party }
{
    mask | (1 << (party - 1))
}

// The mask without the party.
pub fn without(mask: u16, party: u16) -> u16
    requires { (1 ≤ party) × (party ≤ 16) }
    ensures { result ≡ without mask party }
{
    if has(mask, party) {
        mask ^ (1 << (party - 1))
    } else {
        mask
    }
}

// The mask with the party in it or not, as `on` says.
pub fn put(mask: u16, party: u16, on: bool) -> u16
    requires { (1 ≤ party) × (party ≤ 16) }
    ensures { result ≡ put mask party on }
{
    if on {
        with(mask, party)
    } else {
        without(mask, party)
    }
}

// The mask of parties 1 to n, cut out of that of 15: a compiler turns a comparison with `(1 << n) - 1` into a shift at each cell compared.
pub fn all(n: u16) -> u16
    requires { n ≤ 15 }
    ensures { result ≡ all n }
{
    32767 >> (15 - n)
}

// Whether each of parties 1 to n is in the mask.
pub fn has_all(mask: u16, n: u16) -> bool
    requires { n ≤ 15 }
    ensures { result ≡ has_all n mask }
{
    mask % (1 << n) == all(n)
}

// How many parties are in the mask.
pub fn count(mask: u16) -> u16
    ensures { result ≡ count mask }
{
    u16::count_ones(mask) as u16
}

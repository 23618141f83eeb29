// A set of E-RAB IDs, 0 to 15, as a 16-bit number: bit k is set where ID k is in the set.
#![tactic(auto)]

ghost use Rattle.std.specs.Prelude.{◌≡◌};
ghost use Rattle.sets.specs.Sets.{member, add, union, disjoint, within};

// Whether an ID is in a set. None above 15 is.
pub fn member(set: u16, id: u8) -> bool
    ensures { result ≡ member set id }
{
    id < 16 && (set >> id) % 2 == 1
}

// A set with an ID more. An ID above 15 is not added.
pub fn add(set: u16, id: u8) -> u16
    ensures { result ≡ add set id }
{
    if id < 16 { set | (1 << id) } else { set }
}

// The IDs that are in one set or the other.
pub fn union(a: u16, b: u16) -> u16
    ensures { result ≡ union a b }
{
    a | b
}

// Whether no ID is in both sets.
pub fn disjoint(a: u16, b: u16) -> bool
    ensures { result ≡ disjoint a b }
{
    a & b == 0
}

// Whether each ID of the first set is in the second.
pub fn within(a: u16, b: u16) -> bool
    ensures { result ≡ within a b }
{
    a & b == a
}

// The table of places: two for each header and then two for each attribute. An inner crate: the layers above call it, a user of the
// library does not.
#![tactic(auto)]

ghost use Rattle.std.specs.Prelude.{◌≡◌, [], ◌∷◌, ◌+◌, ◌≤◌, length, take};
ghost use Rattle.wire.specs.Bytes.{over};

// The most headers of a packet, the most attributes of a Forward, and the most places that they take.
pub const MAX_HEADERS: u16 = 100;

pub const MAX_ATTRIBUTES: usize = 64;

pub const MAX_PLACES: usize = 328;

// Puts two places into a table, from an index on. That they fit is known before the first one of a list is put. `copy_from_slice` of the two was
// tried and is slower: they then go through memory.
pub fn put_pair(table: &mut [u16], at: usize, first: u16, second: u16)
    requires { at + 2 ≤ length table.old }
    ensures { table.new ≡ over table.old at (first ∷ second ∷ []) }
{
    table[at] = first;
    table[at + 1] = second;
}

// The first `count` places of a list, or as many as there are.
pub fn first(list: &[u16], count: usize) -> &[u16]
    ensures { result.now ≡ take count list.now }
{
    &list[..count.min(list.len())]
}

// Copies places into a table, from its start on. That they fit is known.
pub fn fill(table: &mut [u16], from: &[u16])
    requires { length from.now ≤ length table.old }
    ensures { table.new ≡ over table.old 0 from.now }
{
    table[..from.len()].copy_from_slice(from);
}

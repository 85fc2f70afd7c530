ghost use Rattle.std.specs.Prelude.{◌≡◌, ◌<◌, ◌≤◌, if◌then◌else◌, true, length, replicate, slice_index_or};
ghost use Rattle.hyper_model.specs.Groups.{row_of, with_joined};
ghost use Rattle.preference_rules.specs.Rows.{with_begins, with_members, with_row};

use hyper_model::Lists;

/// Writes an atom's list, which is still as it was made: these units, and of each whether a group begins with it.
pub(crate) fn put_row(lists: &mut Lists, atom: usize, members: &[u8], begins: &[bool])
    requires atom { atom < length lists.old.rows }
    requires members { length members.now ≡ lists.old.units }
    requires begins { length begins.now ≡ lists.old.units }
    requires first { slice_index_or begins.now 0 true ≡ true }
    requires blank { (row_of lists.old atom).begins ≡ replicate lists.old.units true }
    ensures { lists.new ≡ with_row lists.old atom members.now begins.now }
{
    put_members(lists, atom, members);
    put_begins(lists, atom, begins);
}

/// Puts these units at the places of an atom's list, and leaves all else.
pub(crate) fn put_members(lists: &mut Lists, atom: usize, members: &[u8])
    requires atom { atom < length lists.old.rows }
    requires members { length members.now ≡ lists.old.units }
    ensures { lists.new ≡ with_members lists.old atom members.now }
{
    for place in 0..lists.units() {
        lists.set(atom, place, members[place]);
    }
}

/// Puts each place at which no group begins into the group before it.
fn put_begins(lists: &mut Lists, atom: usize, begins: &[bool])
    requires atom { atom < length lists.old.rows }
    requires begins { length begins.now ≡ lists.old.units }
    requires first { slice_index_or begins.now 0 true ≡ true }
    requires blank { (row_of lists.old atom).begins ≡ replicate lists.old.units true }
    ensures { lists.new ≡ with_begins lists.old atom begins.now }
{
    for place in 1..lists.units() {
        join_unless(lists, atom, place, begins[place]);
    }
}

fn join_unless(lists: &mut Lists, atom: usize, place: usize, begins: bool)
    requires atom { atom < length lists.old.rows }
    requires place { place < lists.old.units }
    requires later { 1 ≤ place }
    ensures { lists.new ≡ (if begins then lists.old else with_joined lists.old atom place) }
{
    if !begins {
        lists.join(atom, place);
    }
}

// A family in a lent list of numbers: the cap, the scale, the cells, of each member whether it is open and its total, the byte of who waits, and
// where the search begins.
ghost use Rattle.std.specs.Prelude.{◌≡◌, ◌+◌, ◌%◌, ◌≤◌, ◌^◌, length};
ghost use Rattle.numbers.specs.Lists.{written};
ghost use Rattle.family_calls.specs.List.{family_entries, flag, member_words, members_words, family_words, member_in, family_in};

use family_spec::{Family, Member};

// The entries; `family_entries` in specs/.
pub const FAMILY_ENTRIES: usize = 21;

// An entry as a number of 32 bits.
fn word(x: u64) -> u32
    ensures { result ≡ x % 2 ^ 32 }
{
    (x % 4294967296) as u32
}

// The member whose entries begin at a place.
fn read_member(list: &[u64], at: usize) -> Member
    requires { (at ≤ 17) × (at + 2 ≤ length list.now) }
    ensures { result ≡ member_in list.now at }
{
    let opened = list[at] % 2 == 1;
    let total = word(list[at + 1]);
    Member { opened, total }
}

pub fn read_family(list: &[u64]) -> Family
    requires { family_entries ≤ length list.now }
    ensures { result ≡ family_in list.now }
{
    Family {
        cap: list[0],
        scale: word(list[1]),
        cells: word(list[2]),
        members: [
            read_member(list, 3),
            read_member(list, 5),
            read_member(list, 7),
            read_member(list, 9),
            read_member(list, 11),
            read_member(list, 13),
            read_member(list, 15),
            read_member(list, 17),
        ],
        waiting: (list[19] % 256) as u8,
        from: word(list[20]),
    }
}

// Whether a member is open, as an entry.
fn entry(opened: bool) -> u64
    ensures { result ≡ flag opened }
{
    u64::from(opened)
}

// Puts a member's entries at a place.
fn put_member(m: Member, list: &mut [u64], at: usize)
    requires { (at ≤ 17) × (at + 2 ≤ length list.old) }
    ensures { list.new ≡ written list.old at (member_words m) }
{
    list[at] = entry(m.opened);
    list[at + 1] = u64::from(m.total);
}

// Puts the entries of every member.
fn put_members(family: Family, list: &mut [u64])
    requires { family_entries ≤ length list.old }
    ensures { list.new ≡ written list.old 3 (members_words family 8) }
{
    for (i, m) in family.members.iter().enumerate() {
        put_member(*m, list, 3 + 2 * i);
    }
}

// Puts a family into the first entries.
pub fn put_family(family: Family, list: &mut [u64])
    requires { family_entries ≤ length list.old }
    ensures { list.new ≡ written list.old 0 (family_words family) }
{
    list[0] = family.cap;
    list[1] = u64::from(family.scale);
    list[2] = u64::from(family.cells);
    put_members(family, list);
    list[19] = u64::from(family.waiting);
    list[20] = u64::from(family.from);
}

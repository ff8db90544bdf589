// The members of a family.
ghost use Rattle.std.specs.Prelude.{◌≡◌, ◌≤◌, ◌<◌};
ghost use Rattle.family_spec.specs.Family.{open_with, member_at, put, begun, others};

use family_spec::{Family, Member};

// A family of which nobody is open and nobody waits.
pub fn begin(cap: u64, scale: u32, cells: u32) -> Family
    ensures { result ≡ begun cap scale cells }
{
    let none = Member {
        opened: false,
        total: 0,
    };
    Family {
        cap,
        scale,
        cells,
        members: [none; 8],
        waiting: 0,
        from: 0,
    }
}

pub fn member_at(family: Family, i: u32) -> Member
    requires { i < 8 }
    ensures { result ≡ member_at family i }
{
    family.members[i as usize]
}

// The family with a member open with a total; whoever waits, waits on.
pub fn with_total(family: Family, i: u32, total: u32) -> Family
    requires { i < 8 }
    ensures { result ≡ put family i (open_with total) }
{
    let mut given = family;
    given.members[i as usize] = Member {
        opened: true,
        total,
    };
    given
}

// The sum of the totals of all members but i.
pub fn others_of(family: Family, i: u32) -> u64
    ensures { (result ≡ others family i) × (result ≤ 34359738360) }
{
    let mut sum: u64 = 0;
    for (j, member) in family.members.iter().enumerate() {
        if j != i as usize {
            sum += u64::from(member.total);
        }
    }
    sum
}

// 4: the rules of the tree, in steps in proportion to the number of nodes: the nodes that have a child are marked first.
ghost use Rattle.std.specs.Prelude.{◌≡◌, ◌&&◌, ◌||◌, ℕ, ◌≤◌, ◌<◌, eqb, ltb, length};
ghost use Rattle.numbers.specs.Lists.{at};
ghost use Rattle.qlt_spec.specs.Tree.{child_of, parent_ok};
ghost use Rattle.qlt_spec.specs.Checks.{check_tree};
ghost use Rattle.field_checks.specs.Lists.{Marks};

use numbers::Refusal;

// Marks p, unless u is p: u names p as its parent.
fn mark_one(seen: &mut [u8], p: usize, u: usize)
    ensures { (v : ℕ) → v < length seen.old → eqb (at seen.new v) 1 ≡
        (child_of (λ w. p) u v || eqb (at seen.old v) 1) }
{
    if p != u && p < seen.len() {
        seen[p] = 1;
    }
}

// Marks each node that has a child.
fn mark(parents: &[u32], seen: &mut [u8])
    requires { Marks (at parents.now) 0 seen.old }
    ensures { Marks (at parents.now) (length parents.now) seen.new }
{
    for (u, p) in parents.iter().enumerate() {
        mark_one(seen, *p as usize, u);
    }
}

// The rules of a node's parent p.
#[tactic(auto, unfolding(qlt_spec::specs::Tree::parent_ok))]
fn parent_ok(p: usize, v: usize, n: usize, m: usize) -> bool
    requires { 0 < m }
    ensures { result ≡ parent_ok (λ w. p) n m v }
{
    if v == m - 1 {
        p == v
    } else {
        v < p && (n <= p && p <= m - 1)
    }
}

// The rules of a node, by its parent and its mark.
fn node_good(p: usize, v: usize, n: usize, m: usize, seen: u8) -> bool
    requires { 0 < m }
    ensures { result ≡ (parent_ok (λ w. p) n m v && (ltb v n || eqb seen 1)) }
{
    parent_ok(p, v, n, m) && (v < n || seen == 1)
}

// The smallest node that breaks a rule, by the marks.
fn first_bad(parents: &[u32], n: usize, seen: &[u8]) -> Result<(), Refusal>
    requires parents_in_bounds { (length parents.now ≤ length seen.now) × (length parents.now ≤ 1024) }
    requires marks { Marks (at parents.now) (length parents.now) seen.now }
    ensures { result ≡ check_tree n parents.now }
{
    for (v, p) in parents.iter().enumerate() {
        if !node_good(*p as usize, v, n, parents.len(), seen[v]) {
            return Err(Refusal::at(4, v));
        }
    }
    Ok(())
}

// 4: the smallest node that breaks a rule of the tree.
pub fn check_tree(parents: &[u32], n: usize) -> Result<(), Refusal>
    requires { length parents.now ≤ 1024 }
    ensures { result ≡ check_tree n parents.now }
{
    let mut seen = [0u8; 1024];
    mark(parents, &mut seen);
    first_bad(parents, n, &seen)
}

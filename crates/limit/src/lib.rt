// The ranges of the papers' numbers, and the limit of a node's load.
#![tactic(auto)]

ghost use Rattle.std.specs.Prelude.{◌≡◌, ◌≤◌};
ghost use Rattle.limit.specs.Limit.{max_nodes, max_tolerance, max_total, one_to, limit_of};

pub const MAX_NODES: u32 = 64;

// A table has a count for each of 64 holders and 64 subdomains.
pub const TABLE_SIZE: usize = 4096;

// t counts tenths of a percent.
pub const MAX_TOLERANCE: u32 = 999;

pub const TOLERANCE_SCALE: u32 = 1000;

pub const MAX_TOTAL: u32 = 1000000000;

pub const MAX_LIMIT: u32 = 1999000000;

// Whether x is 1 to `most`: asked of N and of t.
pub fn one_to(most: u32, x: u32) -> bool
    ensures { result ≡ one_to most x }
{
    (1..=most).contains(&x)
}

// The limit L of p particles on n nodes at tolerance t. The product takes more than 32 bits.
pub fn limit(p: u32, n: u32, t: u32) -> u32
    requires { (p ≤ max_total) × (1 ≤ n) × (n ≤ max_nodes) × (t ≤ max_tolerance) }
    ensures { result ≡ limit_of p n t }
{
    let even = p.div_ceil(n);
    let scale = TOLERANCE_SCALE as u64;
    let loose = p as u64 * (scale + t as u64) / (scale * n as u64);
    even.max(loose as u32)
}

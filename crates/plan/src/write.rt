// Writes a plan into a lent buffer.
ghost use Rattle.std.specs.Prelude.{◌≡◌, ◌+◌, ◌*◌, ◌≤◌, length};
ghost use Rattle.limit.specs.Limit.{max_nodes};
ghost use Rattle.words.specs.Buffer.{placed};
ghost use Rattle.plan.specs.Write.{plan_bytes};

// Writes the plan of the first n helpands and shares into a buffer that is long enough.
pub fn put_plan(
    out: &mut [u8],
    n: u32,
    kind: u32,
    limit: u32,
    helpands: [u32; 64],
    shares: [u32; 64],
)
    requires { (n ≤ max_nodes) × (4 * (3 + 2 * n) ≤ length out.old) }
    ensures { out.new ≡ placed (plan_bytes n kind limit helpands shares) out.old }
{
    let nodes = n as usize;
    words::put_head(out, n, kind, limit);
    words::put_words(out, 3, &helpands[..nodes]);
    words::put_words(out, 3 + nodes, &shares[..nodes]);
}

// The bench program's text and the splitting of its input, document 01, 'The bench program': what it prints stands here, its parts
// in `put` and `lines`, where the sheet ends in `split`. Reading and writing are the program's own.
#![tactic(auto)]

ghost use Rattle.std.specs.Prelude.{◌≡◌, ◌+◌, ◌*◌, ◌≤◌, length};
ghost use Rattle.limit.specs.Limit.{max_nodes};
ghost use Rattle.words.specs.Buffer.{placed};
ghost use Rattle.text.specs.Text.{step_text, refused_text};

use put::Writer;

pub mod lines;
pub mod put;
pub mod split;

// Writes the text of an accepted step to the front of out, and gives its length.
pub fn write_step(
    out: &mut [u8],
    kind: u32,
    limit: u32,
    nodes: usize,
    helpands: [u32; 64],
    shares: [u32; 64],
    own: [u32; 64],
    routes: &[u32],
    counts: &[u32],
) -> usize
    requires few { nodes ≤ max_nodes }
    requires same { length routes.now ≡ length counts.now }
    requires room { 64 * (1 + nodes + length routes.now) ≤ length out.old }
    ensures size { result ≡ length (step_text kind limit nodes helpands shares own (length routes.now) routes.now counts.now) }
    ensures bytes { out.new ≡ placed (step_text kind limit nodes helpands shares own (length routes.now) routes.now counts.now)
        out.old }
{
    let mut w = Writer::new(out);
    lines::put_head(&mut w, kind, limit);
    lines::put_nodes(&mut w, nodes, helpands, shares, own);
    lines::put_moves(&mut w, routes, counts);
    w.at
}

// Writes the text of a refusal to the front of out, and gives its length.
pub fn write_refused(out: &mut [u8], number: u32) -> usize
    requires { 64 ≤ length out.old }
    ensures size { result ≡ length (refused_text number) }
    ensures bytes { out.new ≡ placed (refused_text number) out.old }
{
    let mut w = Writer::new(out);
    lines::put_refused(&mut w, number);
    w.at
}

// The lines of the bench program's text, document 01, 'The bench program'. A line has at most 64 bytes.
ghost use Rattle.std.specs.Prelude.{◌≡◌, ◌*◌, ◌≤◌, ◌<◌, length};
ghost use Rattle.limit.specs.Limit.{max_nodes};
ghost use Rattle.text.specs.Text.{head_line, node_line, nodes_text, move_line, moves_text, refused_text};
ghost use Rattle.text.specs.Writer.{Room, Wrote};

use super::put::{BLANK, NEWLINE, Writer};

// "Line 1: kind and L."
pub fn put_head(w: &mut Writer, kind: u32, limit: u32)
    requires { Room w.old 64 }
    ensures { Wrote w.old (head_line kind limit) w.new }
{
    w.field(b"kind", kind, BLANK);
    w.field(b"limit", limit, NEWLINE);
}

// "Node lines: node, helpand, share, amount of its own subdomain."
fn put_node(w: &mut Writer, node: u32, helpand: u32, share: u32, own: u32)
    requires low { node < max_nodes }
    requires room { Room w.old 64 }
    ensures { Wrote w.old (node_line node helpand share own) w.new }
{
    w.field(b"node", node, BLANK);
    w.field(b"helps", helpand, BLANK);
    w.field(b"share", share, BLANK);
    w.field(b"own", own, NEWLINE);
}

// The lines of nodes 0 to nodes − 1.
pub fn put_nodes(
    w: &mut Writer,
    nodes: usize,
    helpands: [u32; 64],
    shares: [u32; 64],
    own: [u32; 64],
)
    requires few { nodes ≤ max_nodes }
    requires room { Room w.old (64 * nodes) }
    ensures { Wrote w.old (nodes_text nodes helpands shares own) w.new }
{
    for k in 0..nodes {
        put_node(w, k as u32, helpands[k], shares[k], own[k]);
    }
}

// "Move lines: subdomain, sender, receiver, particles."
fn put_move(w: &mut Writer, route: u32, count: u32)
    requires { Room w.old 64 }
    ensures { Wrote w.old (move_line route count) w.new }
{
    w.field(b"move", route / 4096, BLANK);
    w.field(b"from", route / 64 % 64, BLANK);
    w.field(b"to", route % 64, BLANK);
    w.field(b"count", count, NEWLINE);
}

// The lines of moves, in their order.
pub fn put_moves(w: &mut Writer, routes: &[u32], counts: &[u32])
    requires same { length routes.now ≡ length counts.now }
    requires room { Room w.old (64 * length routes.now) }
    ensures { Wrote w.old (moves_text (length routes.now) routes.now counts.now) w.new }
{
    for (route, count) in routes.iter().zip(counts) {
        put_move(w, *route, *count);
    }
}

// "A refusal prints only `refused 5` with its number."
pub fn put_refused(w: &mut Writer, number: u32)
    requires { Room w.old 64 }
    ensures { Wrote w.old (refused_text number) w.new }
{
    w.field(b"refused", number, NEWLINE);
}

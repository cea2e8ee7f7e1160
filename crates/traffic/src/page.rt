// The lines of the page: "node in 2 columns, blank, sent in 10, blank, received in 10, newline, all right-aligned".
ghost use Rattle.std.specs.Prelude.{◌≡◌, ◌*◌, ◌≤◌, ◌<◌, length, sum as list_sum};
ghost use Rattle.fold.specs.Sum.{sum};
ghost use Rattle.arrays.specs.Arrays.{at};
ghost use Rattle.limit.specs.Limit.{max_nodes, max_total};
ghost use Rattle.words.specs.Buffer.{placed};
ghost use Rattle.text.specs.Text.{decimal, ascii};
ghost use Rattle.text.specs.Writer.{Room, Wrote};
ghost use Rattle.traffic.specs.Page.{line, node_lines, page_of, page_size};
ghost use Rattle.traffic.specs.Inner.{amounts};

use text::put::{BLANK, NEWLINE, Writer};

// The line behind its node: blank, sent, blank, received, newline.
fn put_amounts(w: &mut Writer, sent: u32, received: u32)
    requires { Room w.old 23 }
    ensures { Wrote w.old (amounts sent received) w.new }
{
    w.byte(BLANK);
    w.right(10, sent);
    w.byte(BLANK);
    w.right(10, received);
    w.byte(NEWLINE);
}

// The line of a node.
fn put_node(w: &mut Writer, node: u32, sent: u32, received: u32)
    requires low { node < max_nodes }
    requires room { Room w.old 25 }
    ensures { Wrote w.old (line (decimal node) sent received) w.new }
{
    w.right(2, node);
    put_amounts(w, sent, received);
}

// The lines of nodes 0 to nodes − 1.
fn put_nodes(w: &mut Writer, nodes: usize, sent: [u32; 64], received: [u32; 64])
    requires few { nodes ≤ max_nodes }
    requires room { Room w.old (25 * nodes) }
    ensures { Wrote w.old (node_lines nodes (at sent) (at received)) w.new }
{
    for k in 0..nodes {
        put_node(w, k as u32, sent[k], received[k]);
    }
}

// The last line.
fn put_last(w: &mut Writer, sent: u32, received: u32)
    requires { Room w.old 25 }
    ensures { Wrote w.old (line (ascii "==") sent received) w.new }
{
    w.byte(b'=');
    w.byte(b'=');
    put_amounts(w, sent, received);
}

// The sum of a column of the page.
fn column_sum(column: &[u32]) -> u32
    requires { list_sum column.now ≤ max_total }
    ensures { result ≡ list_sum column.now }
{
    column.iter().sum()
}

// The page of so many nodes, to the front of a buffer that is long enough.
pub fn put_page(out: &mut [u8], nodes: usize, sent: [u32; 64], received: [u32; 64])
    requires { (nodes ≤ max_nodes) × (sum nodes (at sent) ≤ max_total) × (sum nodes (at received) ≤ max_total)
        × (page_size nodes ≤ length out.old) }
    ensures { out.new ≡ placed (page_of nodes (at sent) (at received)) out.old }
{
    let mut w = Writer::new(out);
    put_nodes(&mut w, nodes, sent, received);
    let s = column_sum(&sent[..nodes]);
    let r = column_sum(&received[..nodes]);
    put_last(&mut w, s, r);
}

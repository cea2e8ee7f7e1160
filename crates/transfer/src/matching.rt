// Document 01, 'Moves': "Each node keeps the smaller of holding and due amount. Nodes with a surplus send, nodes with a shortage
// receive. Both are gone through by rising number, and each pair moves the smaller of what remains. No zero move is written."
ghost use Rattle.std.specs.Prelude.{◌≡◌, ℕ, [], ◌++◌, ◌+◌, ◌-◌, ◌*◌, ◌≤◌, ◌<◌, map, length};
ghost use Rattle.limit.specs.Limit.{max_nodes, table_size};
ghost use Rattle.arrays.specs.Arrays.{at, tabulate};
ghost use Rattle.sheet.specs.Table.{held};
ghost use Rattle.words.specs.Buffer.{placed};
ghost use Rattle.transfer.specs.Due.{due_of};
ghost use Rattle.transfer.specs.Inner.{Allotted, NextAbove};
ghost use Rattle.transfer.specs.List.{routes_in, counts_in};
ghost use Rattle.transfer.specs.Matching.{moves_between, route_of, count_of, all_routes, all_counts};
ghost use Rattle.sheet.specs.Totals.{totals_of};

use crate::due::{due_amounts, own_amounts};
use crate::list::MoveList;
use limit::TABLE_SIZE;
use sheet::table;

// A node with a surplus or a shortage, and what remains of it.
#[derive(Clone, Copy)]
struct Remaining {
    node: usize,
    count: u32,
}

// What each node holds of subdomain n.
fn holdings(table: &[u32; TABLE_SIZE], nodes: usize, n: usize) -> [u32; 64]
    requires { (nodes ≤ max_nodes) × (n < nodes) }
    ensures { result ≡ tabulate nodes (λ (k : ℕ). held table.now k n) }
{
    let mut holding = [0u32; 64];
    for k in 0..nodes {
        holding[k] = table::held(table, k, n);
    }
    holding
}

// The first node from `from` on whose amount is above its bound, and by how much: the next sender if nodes hold these amounts and are
// due these bounds, and the next receiver if it is the other way round.
fn next_above(
    amounts: &[u32; 64],
    bounds: &[u32; 64],
    nodes: usize,
    from: usize,
) -> Option<Remaining>
    requires { nodes ≤ max_nodes }
    ensures { NextAbove nodes (λ (j : ℕ). at amounts.now j - at bounds.now j) from result }
{
    for node in from..nodes {
        let count = amounts[node].saturating_sub(bounds[node]);
        if count != 0 {
            return Some(Remaining { node, count });
        }
    }
    None
}

// Adds the moves of subdomain n to the list. Each turn is done with a sender or with a receiver.
fn put_subdomain(holding: &[u32; 64], due: &[u32; 64], nodes: usize, n: usize, moves: &mut MoveList)
    requires { (nodes ≤ max_nodes) × (n < nodes) × (length (routes_in moves.old) + (nodes - 1) ≤ table_size) }
    ensures routes { routes_in moves.new
        ≡ routes_in moves.old ++ map (route_of n) (moves_between nodes (at holding.now) (at due.now)) }
    ensures counts { counts_in moves.new
        ≡ counts_in moves.old ++ map count_of (moves_between nodes (at holding.now) (at due.now)) }
{
    let mut sender = next_above(holding, due, nodes, 0);
    let mut receiver = next_above(due, holding, nodes, 0);
    while let (Some(s), Some(r)) = (sender, receiver) {
        let count = s.count.min(r.count);
        moves.push(n, s.node, r.node, count);
        if s.count <= r.count {
            receiver = Some(Remaining {
                count: r.count - count,
                ..r
            });
            sender = next_above(holding, due, nodes, s.node + 1);
        } else {
            sender = Some(Remaining {
                count: s.count - count,
                ..s
            });
            receiver = next_above(due, holding, nodes, r.node + 1);
        }
    }
}

// The moves that give each node its due amounts, added to a list that is empty.
pub fn list_moves(
    table: &[u32; TABLE_SIZE],
    totals: [u32; 64],
    helpands: [u32; 64],
    shares: [u32; 64],
    nodes: usize,
    moves: &mut MoveList,
)
    requires { (nodes ≤ max_nodes) × (totals ≡ totals_of nodes table.now) × Allotted nodes (at helpands) (at totals) (at shares)
        × (routes_in moves.old ≡ []) × (counts_in moves.old ≡ []) }
    ensures routes { routes_in moves.new ≡ all_routes nodes table.now (due_of nodes (at helpands) (at totals) (at shares)) }
    ensures counts { counts_in moves.new ≡ all_counts nodes table.now (due_of nodes (at helpands) (at totals) (at shares)) }
{
    let own = own_amounts(totals, helpands, shares, nodes);
    for n in 0..nodes {
        let holding = holdings(table, nodes, n);
        let due = due_amounts(&helpands, &shares, own[n], nodes, n);
        put_subdomain(&holding, &due, nodes, n, moves);
    }
}

// Copies numbers to the front of a buffer that is long enough.
fn put_front(out: &mut [u32], numbers: &[u32])
    requires { length numbers.now ≤ length out.old }
    ensures { out.new ≡ placed numbers.now out.old }
{
    out[..numbers.len()].copy_from_slice(numbers);
}

// The same moves, written to two buffers: routes and counts are written from the front, and the number of moves is given.
pub fn all_moves(
    table: &[u32; TABLE_SIZE],
    totals: [u32; 64],
    helpands: [u32; 64],
    shares: [u32; 64],
    nodes: usize,
    routes: &mut [u32],
    counts: &mut [u32],
) -> usize
    requires { (nodes ≤ max_nodes) × (totals ≡ totals_of nodes table.now) × Allotted nodes (at helpands) (at totals) (at shares)
        × (nodes * (nodes - 1) ≤ length routes.old) × (nodes * (nodes - 1) ≤ length counts.old) }
    ensures entries { result ≡ length (all_routes nodes table.now (due_of nodes (at helpands) (at totals) (at shares))) }
    ensures routes { routes.new ≡ placed (all_routes nodes table.now (due_of nodes (at helpands) (at totals) (at shares)))
        routes.old }
    ensures counts { counts.new ≡ placed (all_counts nodes table.now (due_of nodes (at helpands) (at totals) (at shares)))
        counts.old }
{
    let mut moves = MoveList::new();
    list_moves(table, totals, helpands, shares, nodes, &mut moves);
    put_front(routes, moves.routes());
    put_front(counts, moves.counts());
    moves.len()
}

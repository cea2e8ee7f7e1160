// "Cells absent from the sheet count as 0": the sheet unpacked into a table of 4,096 counts.
ghost use Rattle.std.specs.Prelude.{◌≡◌, ℕ, ◌<◌};
ghost use Rattle.sheet.specs.Sheet.{cell};
ghost use Rattle.sheet.specs.Table.{table_of, held};
ghost use Rattle.sheet.specs.Inner.{Unpackable};

use limit::TABLE_SIZE;

// The cell of a holder and a subdomain. A route may name any subdomain, and such a cell is tested before it is used.
pub fn cell(holder: usize, subdomain: usize) -> usize
    requires { (holder < 64) × (subdomain < 4294967296) }
    ensures { result ≡ cell holder subdomain }
{
    64 * holder + subdomain
}

// What node k holds of subdomain n.
pub fn held(table: &[u32; TABLE_SIZE], k: usize, n: usize) -> u32
    requires { (k < 64) × (n < 64) }
    ensures { result ≡ held table.now k n }
{
    table[64 * k + n]
}

// The table that has each count of the e entries of s at its cell, and 0 elsewhere.
pub fn unpack(s: &[u8], e: usize) -> [u32; TABLE_SIZE]
    requires { (n : ℕ) × Unpackable s.now n e }
    ensures { result ≡ table_of s.now e }
{
    let mut table = [0u32; TABLE_SIZE];
    for i in 0..e {
        let c = words::word_number(s, 3 + i) as usize;
        table[c] = words::word_number(s, 3 + e + i);
    }
    table
}

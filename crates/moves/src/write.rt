// Writes moves into a lent buffer.
ghost use Rattle.std.specs.Prelude.{◌≡◌, ◌+◌, ◌*◌, ◌≤◌, ◌<◌, ◌^◌, length};
ghost use Rattle.words.specs.Buffer.{placed};
ghost use Rattle.moves.specs.Write.{moves_bytes};

// Writes routes and as many counts into a buffer that is long enough.
pub fn put_moves(out: &mut [u8], n: u32, routes: &[u32], counts: &[u32])
    requires few { length routes.now < 2 ^ 32 }
    requires same { length routes.now ≡ length counts.now }
    requires room { 4 * (2 + 2 * length routes.now) ≤ length out.old }
    ensures { out.new ≡ placed (moves_bytes n (length routes.now) routes.now counts.now) out.old }
{
    let e = routes.len();
    words::put_word(out, 0, n);
    words::put_word(out, 1, e as u32);
    words::put_words(out, 2, routes);
    words::put_words(out, 2 + e, counts);
}
